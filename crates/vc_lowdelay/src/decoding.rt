ghost use Rattle.std.specs.Prelude.{◌≡◌, ◌≤◌, ◌<◌, Ok, IfOk, IfErr, OnOk, length};
ghost use Rattle.vc_types.specs.Planes.{planes_in};
ghost use Rattle.vc_types.specs.TransformParameters.{parameters_of};
ghost use Rattle.picture_build.specs.Kept.{all_slices};
ghost use Rattle.vc_lowdelay.specs.Decoded.{IsDecodable, IsLargeAt, IsSliceAt};
ghost use Rattle.vc_lowdelay.specs.Grown.{grown_slices};
ghost use Rattle.vc_lowdelay.specs.LowDelay.{low_planes, low_slices};
ghost use Rattle.vc_lowdelay.specs.InRoom.{HoldsPicture};
ghost use Rattle.vc_lowdelay.specs.OfBands.{AreLowest};
ghost use Rattle.vc_lowdelay.specs.OfPlan.{low_parameters_of, picture_size, slice_count};
ghost use Rattle.vc_lowdelay.specs.Refusals.{IsRefusalFor, IsRefusalOf};

use crate::bands::{LowestBands, grow_lowest};
use crate::finishing::{planes, planes_joined};
use crate::lowest::grown_bands;
use crate::narrow::put_slices;
use crate::plan::LowPlan;
use crate::refusal::{LowRefusal, NarrowFault};
use crate::room::LowRoom;
use crate::slice::LowSlice;
use crate::wide::wide_coefficients;
use picture_build::PictureBuilder;
use std::alloc::Global;
use std::thread::Threads;
use vc_slice::{SliceBands, SliceCoeffs, SliceParts};
use vc_types::{Component, Plane};

/// The planes of Y, C1 and C2 of a low-delay picture, from the bytes of its slices in raster order
/// (ST 2042-1: low-delay slices, and prediction in the lowest subband). Bytes behind the last slice aren't
/// read. `Short` comes before `CoefficientRange`.
pub fn decode_low(alloc: Global, p: &LowPlan, bytes: &[u8]) -> Result<[Plane; 3], LowRefusal>
    ensures value { IfOk result
        (λ planes. low_planes (low_parameters_of p.now) bytes.now ≡ Ok (planes_in planes)) }
    ensures refused { IfErr result (IsRefusalOf (low_parameters_of p.now) bytes.now) }
{
    if (bytes.len() as u64) < p.picture_size() {
        return Err(LowRefusal::Short);
    }
    let mut room = LowRoom::new(alloc);
    match narrow_planes(alloc, p, bytes, &mut room) {
        Ok(planes) => Ok(planes),
        Err(NarrowFault::TooWide) => wide_planes(alloc, p, bytes),
        Err(NarrowFault::NoMemory) => Err(LowRefusal::NoMemory),
    }
}

/// The same, transformed in parts side by side, by joins, in memory that is kept from picture to picture.
pub fn decode_low_kept<H: Threads + Copy + Send + Sync>(
    rt: H,
    alloc: Global,
    p: &LowPlan,
    bytes: &[u8],
    room: &mut LowRoom,
) -> Result<[Plane; 3], LowRefusal>
    ensures value { IfOk result
        (λ planes. low_planes (low_parameters_of p.now) bytes.now ≡ Ok (planes_in planes)) }
    ensures refused { IfErr result (IsRefusalOf (low_parameters_of p.now) bytes.now) }
{
    if (bytes.len() as u64) < p.picture_size() {
        return Err(LowRefusal::Short);
    }
    match narrow_planes_joined(rt, alloc, p, bytes, room) {
        Ok(planes) => Ok(planes),
        Err(NarrowFault::TooWide) => wide_planes_joined(rt, alloc, p, bytes),
        Err(NarrowFault::NoMemory) => Err(LowRefusal::NoMemory),
    }
}

// The planes of a picture, where 32 bits are enough all the way. The room is memory to work in.
fn narrow_planes(
    alloc: Global,
    p: &LowPlan,
    bytes: &[u8],
    room: &mut LowRoom,
) -> Result<[Plane; 3], NarrowFault>
    requires whole { picture_size p.now ≤ length bytes.now }
    ensures value { IfOk result
        (λ planes. low_planes (low_parameters_of p.now) bytes.now ≡ Ok (planes_in planes)) }
{
    put_cells(alloc, p, bytes, room)?;
    planes(alloc, &p.plan, room)
}

// The same, luma beside the colours, by join.
fn narrow_planes_joined<H: Threads + Copy + Send + Sync>(
    rt: H,
    alloc: Global,
    p: &LowPlan,
    bytes: &[u8],
    room: &mut LowRoom,
) -> Result<[Plane; 3], NarrowFault>
    requires whole { picture_size p.now ≤ length bytes.now }
    ensures value { IfOk result
        (λ planes. low_planes (low_parameters_of p.now) bytes.now ≡ Ok (planes_in planes)) }
{
    put_cells(alloc, p, bytes, room)?;
    planes_joined(rt, alloc, &p.plan, room)
}

// Puts the coefficients of a picture at their places, 32 bits each, and LL as it has grown.
fn put_cells(
    alloc: Global,
    p: &LowPlan,
    bytes: &[u8],
    room: &mut LowRoom,
) -> Result<(), NarrowFault>
    requires whole { picture_size p.now ≤ length bytes.now }
    ensures { OnOk result (HoldsPicture p.now bytes.now room.new) }
{
    room.fit(alloc, &p.plan)?;
    put_slices(alloc, p, bytes, room)?;
    grow_lowest(alloc, &p.plan, Component::Y, &mut room.y)?;
    grow_lowest(alloc, &p.plan, Component::C1, &mut room.c1)?;
    grow_lowest(alloc, &p.plan, Component::C2, &mut room.c2)?;
    Ok(())
}

// The planes of a picture, whatever its coefficients.
fn wide_planes(alloc: Global, p: &LowPlan, bytes: &[u8]) -> Result<[Plane; 3], LowRefusal>
    requires whole { picture_size p.now ≤ length bytes.now }
    ensures value { IfOk result
        (λ planes. low_planes (low_parameters_of p.now) bytes.now ≡ Ok (planes_in planes)) }
    ensures refused { IfErr result (IsRefusalOf (low_parameters_of p.now) bytes.now) }
{
    let mut picture = filled(alloc, p, bytes)?;
    Ok(picture.planes()?)
}

// The same, luma beside the colours, by join.
fn wide_planes_joined<H: Threads + Copy + Send + Sync>(
    rt: H,
    alloc: Global,
    p: &LowPlan,
    bytes: &[u8],
) -> Result<[Plane; 3], LowRefusal>
    requires whole { picture_size p.now ≤ length bytes.now }
    ensures value { IfOk result
        (λ planes. low_planes (low_parameters_of p.now) bytes.now ≡ Ok (planes_in planes)) }
    ensures refused { IfErr result (IsRefusalOf (low_parameters_of p.now) bytes.now) }
{
    let mut picture = filled(alloc, p, bytes)?;
    Ok(picture.planes_joined(rt)?)
}

// A picture that all slices of these bytes came to, with LL as it has grown.
fn filled(alloc: Global, p: &LowPlan, bytes: &[u8]) -> Result<PictureBuilder, LowRefusal>
    requires whole { picture_size p.now ≤ length bytes.now }
    ensures value { IfOk result (λ picture. picture ≡ all_slices (parameters_of p.now.plan)
        (grown_slices (parameters_of p.now.plan) (low_slices (low_parameters_of p.now) bytes.now))) }
    ensures sound { IfOk result (λ picture. IsDecodable (low_parameters_of p.now) bytes.now) }
    ensures refused { IfErr result (IsRefusalOf (low_parameters_of p.now) bytes.now) }
{
    let lowest = grown_bands(alloc, p, bytes)?;
    let mut picture = PictureBuilder::new(alloc, p.plan)?;
    for slice in 0..p.slice_count() {
        let coeffs = coefficients(alloc, p, slice, bytes, &lowest)?;
        picture.fill(slice, &coeffs);
    }
    Ok(picture)
}

// The coefficients of a slice, those of LL as they have grown.
fn coefficients(
    alloc: Global,
    p: &LowPlan,
    slice: u32,
    bytes: &[u8],
    lowest: &LowestBands,
) -> Result<SliceCoeffs, LowRefusal>
    requires slice { slice < slice_count p.now }
    requires whole { picture_size p.now ≤ length bytes.now }
    requires lowest { AreLowest (parameters_of p.now.plan) lowest.now }
    ensures value { IfOk result (IsSliceAt p.now bytes.now slice lowest.now) }
    ensures refused { IfErr result (IsRefusalFor (IsLargeAt p.now bytes.now slice)) }
{
    let coded = LowSlice::new(p.slice_bytes(slice, bytes));
    let parts = SliceParts::new(&p.plan, slice);
    let bands = SliceBands::new(&parts, coded.index);
    wide_coefficients(alloc, &bands, &coded, lowest)
}
