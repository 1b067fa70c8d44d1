ghost use Rattle.std.specs.Prelude.{◌≡◌, ◌+◌, ◌*◌, ◌≤◌, ◌<◌, ℕ, IfOk, length, slice_index_or, true};
ghost use Rattle.vc_types.specs.declared.video.Component.TheVariants.{Y, C1, C2};
ghost use Rattle.vc_types.specs.OfPlan.{padded_height, padded_width};
ghost use Rattle.vc_types.specs.Planes.{output_sample, planes_in};
ghost use Rattle.vc_types.specs.Subbands.{plane_width, plane_height, plane_depth};
ghost use Rattle.vc_types.specs.TransformParameters.{parameters_of};
ghost use Rattle.vc_types.specs.Transforms.{inverse_transform};
ghost use Rattle.vc_wave.specs.Planes.{plane_of};
ghost use Rattle.vc_lowdelay.specs.InRoom.{AreKeptPlanes, HasCells};
ghost use Rattle.vc_lowdelay.specs.Narrow.{HasPaddedSize, kept_plane};

use crate::refusal::NarrowFault;
use crate::room::LowRoom;
use picture_build::{Room, nested_plane};
use std::alloc::Global;
use std::thread::{Threads, join_mut};
use vc_types::{Component, Plan, Plane};

// The cells of a picture's three components.
#[derive(Clone, Copy)]
struct PictureCells<'a> {
    y: &'a [i32],
    c1: &'a [i32],
    c2: &'a [i32],
}

type Answer = Result<Plane, NarrowFault>;

/// The planes of the three components that a room's cells hold, one after another.
pub(crate) fn planes(
    alloc: Global,
    plan: &Plan,
    room: &mut LowRoom,
) -> Result<[Plane; 3], NarrowFault>
    requires { HasCells plan.now room.old }
    ensures { IfOk result (λ planes. AreKeptPlanes plan.now room.old (planes_in planes)) }
{
    let y = plane(alloc, plan, Component::Y, &room.y, &mut room.luma)?;
    let c1 = plane(alloc, plan, Component::C1, &room.c1, &mut room.colour)?;
    let c2 = plane(alloc, plan, Component::C2, &room.c2, &mut room.colour)?;
    Ok([y, c1, c2])
}

/// The same, luma beside the colours, by join.
pub(crate) fn planes_joined<H: Threads + Copy + Send + Sync>(
    rt: H,
    alloc: Global,
    plan: &Plan,
    room: &mut LowRoom,
) -> Result<[Plane; 3], NarrowFault>
    requires { HasCells plan.now room.old }
    ensures { IfOk result (λ planes. AreKeptPlanes plan.now room.old (planes_in planes)) }
{
    let cells = PictureCells {
        y: room.y.as_slice(),
        c1: room.c1.as_slice(),
        c2: room.c2.as_slice(),
    };
    let (y, (c1, c2)) = joined(&rt, alloc, plan, &cells, &mut room.luma, &mut room.colour);
    Ok([y?, c1?, c2?])
}

// The planes of the three components, luma's beside the colours'.
fn joined<H: Threads>(
    rt: &H,
    alloc: Global,
    plan: &Plan,
    cells: &PictureCells<'_>,
    luma: &mut Room,
    colour: &mut Room,
) -> (Answer, (Answer, Answer))
    requires y { HasPaddedSize (parameters_of plan.now) Y cells.now.y.now }
    requires c1 { HasPaddedSize (parameters_of plan.now) C1 cells.now.c1.now }
    requires c2 { HasPaddedSize (parameters_of plan.now) C2 cells.now.c2.now }
    ensures y { IfOk result.0 (λ plane. plane ≡ kept_plane (parameters_of plan.now) Y cells.now.y.now) }
    ensures c1 { IfOk result.1.0
        (λ plane. plane ≡ kept_plane (parameters_of plan.now) C1 cells.now.c1.now) }
    ensures c2 { IfOk result.1.1
        (λ plane. plane ≡ kept_plane (parameters_of plan.now) C2 cells.now.c2.now) }
{
    join_mut(
        rt,
        &mut || plane(alloc, plan, Component::Y, cells.y, luma),
        &mut || colours(alloc, plan, cells, colour),
    )
}

// The planes of both colour components, one after another.
fn colours(
    alloc: Global,
    plan: &Plan,
    cells: &PictureCells<'_>,
    memory: &mut Room,
) -> (Answer, Answer)
    requires c1 { HasPaddedSize (parameters_of plan.now) C1 cells.now.c1.now }
    requires c2 { HasPaddedSize (parameters_of plan.now) C2 cells.now.c2.now }
    ensures c1 { IfOk result.0
        (λ plane. plane ≡ kept_plane (parameters_of plan.now) C1 cells.now.c1.now) }
    ensures c2 { IfOk result.1
        (λ plane. plane ≡ kept_plane (parameters_of plan.now) C2 cells.now.c2.now) }
{
    (
        plane(alloc, plan, Component::C1, cells.c1, memory),
        plane(alloc, plan, Component::C2, cells.c2, memory),
    )
}

// The plane of a component.
fn plane(
    alloc: Global,
    plan: &Plan,
    c: Component,
    nested: &[i32],
    memory: &mut Room,
) -> Result<Plane, NarrowFault>
    requires { HasPaddedSize (parameters_of plan.now) c nested.now }
    ensures { IfOk result (λ plane. plane ≡ kept_plane (parameters_of plan.now) c nested.now) }
{
    match nested_plane(alloc, plan, c, nested, memory)? {
        Some(plane) => Ok(plane),
        None => Err(NarrowFault::TooWide),
    }
}
