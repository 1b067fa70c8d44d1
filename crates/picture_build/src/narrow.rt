ghost use Rattle.std.specs.Prelude.{◌≡◌, ◌*◌, IfOk, IfSome, length};
ghost use Rattle.vc_types.specs.TransformParameters.{parameters_of};
ghost use Rattle.vc_types.specs.Transforms.{inverse_transform};
ghost use Rattle.vc_wave.specs.Planes.{plane_of};
ghost use Rattle.picture_build.specs.Output.{output_plane};
ghost use Rattle.vc_types.specs.OfPlan.{padded_height, padded_width};

use crate::cells::CoefficientCells;
use crate::output::format;
use crate::room::Room;
use std::alloc::Global;
use std::thread::Threads;
use vc_types::{Component, NoMemory, Plan, Plane};
use vc_wave::{Format, inverse_output, inverse_output_joined, joined_room_len, room_len};

/// The plane of a component, made in 32 bits; none where these may not be enough on the way.
pub(crate) fn narrow_plane(
    alloc: Global,
    plan: &Plan,
    c: Component,
    cells: &CoefficientCells,
    room: &mut Room,
) -> Result<Option<Plane>, NoMemory>
    requires { length cells.now ≡ padded_height plan.now c * padded_width plan.now c }
    ensures { IfOk result (λ made. IfSome made (λ plane.
        plane ≡ output_plane (parameters_of plan.now) c (inverse_transform (parameters_of plan.now)
        c (plane_of (padded_width plan.now c) cells.now)))) }
{
    match cells.narrow() {
        Some(nested) => nested_plane(alloc, plan, c, nested, room),
        None => Ok(None),
    }
}

/// The same, with the highest level in two halves that are made side by side, by join.
pub(crate) fn narrow_plane_joined<H: Threads>(
    rt: &H,
    alloc: Global,
    plan: &Plan,
    c: Component,
    cells: &CoefficientCells,
    room: &mut Room,
) -> Result<Option<Plane>, NoMemory>
    requires { length cells.now ≡ padded_height plan.now c * padded_width plan.now c }
    ensures { IfOk result (λ made. IfSome made (λ plane.
        plane ≡ output_plane (parameters_of plan.now) c (inverse_transform (parameters_of plan.now)
        c (plane_of (padded_width plan.now c) cells.now)))) }
{
    match cells.narrow() {
        Some(nested) => nested_plane_joined(rt, alloc, plan, c, nested, room),
        None => Ok(None),
    }
}

/// The plane of a component whose padded grid of nested subbands is a list, row by row (ST 2042-1, picture
/// decoding), made in 32 bits; none where these may not be enough on the way.
pub fn nested_plane(
    alloc: Global,
    plan: &Plan,
    c: Component,
    nested: &[i32],
    room: &mut Room,
) -> Result<Option<Plane>, NoMemory>
    requires { length nested.now ≡ padded_height plan.now c * padded_width plan.now c }
    ensures { IfOk result (λ made. IfSome made (λ plane.
        plane ≡ output_plane (parameters_of plan.now) c (inverse_transform (parameters_of plan.now)
        c (plane_of (padded_width plan.now c) nested.now)))) }
{
    room.fit(alloc, room_len(plan, c))?;
    let (width, height, depth) = format(plan, c);
    let format = Format {
        columns: width as usize,
        rows: height as usize,
        depth,
    };
    let mut samples = room.take_samples(alloc, format.rows * format.columns)?;
    if inverse_output(plan, c, nested, &mut room.cells, &mut samples, format) {
        Ok(Some(Plane::new(width, height, samples)))
    } else {
        Ok(None)
    }
}

// The same of a list, with the highest level in two halves side by side.
fn nested_plane_joined<H: Threads>(
    rt: &H,
    alloc: Global,
    plan: &Plan,
    c: Component,
    nested: &[i32],
    room: &mut Room,
) -> Result<Option<Plane>, NoMemory>
    requires { length nested.now ≡ padded_height plan.now c * padded_width plan.now c }
    ensures { IfOk result (λ made. IfSome made (λ plane.
        plane ≡ output_plane (parameters_of plan.now) c (inverse_transform (parameters_of plan.now)
        c (plane_of (padded_width plan.now c) nested.now)))) }
{
    room.fit(alloc, joined_room_len(plan, c))?;
    let (width, height, depth) = format(plan, c);
    let format = Format {
        columns: width as usize,
        rows: height as usize,
        depth,
    };
    let mut samples = room.take_samples(alloc, format.rows * format.columns)?;
    if inverse_output_joined(rt, plan, c, nested, &mut room.cells, &mut samples, format) {
        Ok(Some(Plane::new(width, height, samples)))
    } else {
        Ok(None)
    }
}
