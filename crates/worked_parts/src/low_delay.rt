//! Rows of low-delay pictures: their transform parameters, which stand behind a sequence header of their
//! profile, and their planes.
use crate::parameters::add_plan;
use crate::said::Said;
use crate::words::{bytes_of, parted};
use std::alloc::Global;
use vc_lowdelay::{LowPlan, LowRefusal, ParamsRefusal, decode_low, read_low_params};
use vc_seqhdr::read_header_of;
use vc_types::{Header, LOW_DELAY_PROFILE, Plane};
use worked_common::{Bad, NamedBytes};

// A sequence header, and the bytes behind it.
fn behind_header(bytes: &[u8]) -> Result<(Header, &[u8]), Bad> {
    let Ok((header, used)) = read_header_of(LOW_DELAY_PROFILE, bytes) else {
        return Err(Bad::NoRow);
    };
    match bytes.split_at_checked(used) {
        Some((_, rest)) => Ok((header, rest)),
        None => Err(Bad::NoRow),
    }
}

// What is read of a sequence header and the parameters behind it.
fn low_plan_read(
    alloc: Global,
    parts: &[NamedBytes],
    given: &str,
) -> Result<Result<(LowPlan, usize), ParamsRefusal>, Bad> {
    let bytes = bytes_of(alloc, parts, given)?;
    let (header, rest) = behind_header(bytes.as_slice())?;
    Ok(read_low_params(&header, rest))
}

fn add_low_plan(p: &LowPlan, used: usize, said: &mut Said) {
    add_plan(&p.plan, used, said);
    said.named(&[("numerator", p.numerator), ("denominator", p.denominator)]);
}

/// The transform parameters behind a sequence header, and how many bytes they take.
pub(crate) fn low_parameters(
    parts: &[NamedBytes],
    given: &str,
    said: &mut Said,
) -> Result<(), Bad> {
    match low_plan_read(said.alloc(), parts, given)? {
        Ok((p, used)) => add_low_plan(&p, used, said),
        Err(refusal) => said.shown(refusal),
    }
    Ok(())
}

fn low_plan_of(alloc: Global, parts: &[NamedBytes], given: &str) -> Result<LowPlan, Bad> {
    match low_plan_read(alloc, parts, given)? {
        Ok((p, _)) => Ok(p),
        Err(_) => Err(Bad::NoRow),
    }
}

fn add_plane(name: &str, plane: &Plane, said: &mut Said) {
    said.word(name);
    said.words(plane.samples());
}

fn add_planes(planes: &[Plane; 3], said: &mut Said) {
    add_plane("y", &planes[0], said);
    add_plane("c1", &planes[1], said);
    add_plane("c2", &planes[2], said);
}

// The planes that bytes are decoded to, or why they are refused, where there was memory.
fn add_decoded(p: &LowPlan, bytes: &[u8], said: &mut Said) -> Result<(), Bad> {
    match decode_low(said.alloc(), p, bytes) {
        Ok(planes) => add_planes(&planes, said),
        Err(LowRefusal::NoMemory) => return Err(Bad::NoMemory),
        Err(refusal) => said.shown(refusal),
    }
    Ok(())
}

/// The samples of a low-delay picture, or why it has none: a sequence header and parameters : the bytes of
/// its slices.
pub(crate) fn low_picture(parts: &[NamedBytes], given: &str, said: &mut Said) -> Result<(), Bad> {
    let (plan, bytes) = parted(given);
    let p = low_plan_of(said.alloc(), parts, plan)?;
    let bytes = bytes_of(said.alloc(), parts, bytes)?;
    add_decoded(&p, bytes.as_slice(), said)
}
