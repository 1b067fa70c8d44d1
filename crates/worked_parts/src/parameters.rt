//! Rows of transform parameters, which stand behind a sequence header.
use crate::headers::add_shape;
use crate::said::Said;
use crate::words::{bytes_of, natural, parted};
use std::alloc::Global;
use vc_params::{ParamsRefusal, read_params, write_params};
use vc_seqhdr::read_header;
use vc_types::{Header, Plan};
use worked_common::{Bad, NamedBytes};

// A sequence header, and the bytes behind it.
fn behind_header(bytes: &[u8]) -> Result<(Header, &[u8]), Bad> {
    let Ok((header, used)) = read_header(bytes) else {
        return Err(Bad::NoRow);
    };
    match bytes.split_at_checked(used) {
        Some((_, rest)) => Ok((header, rest)),
        None => Err(Bad::NoRow),
    }
}

/// What is read of a sequence header and the parameters behind it, and how many bytes these take.
pub(crate) fn plan_read(
    alloc: Global,
    parts: &[NamedBytes],
    given: &str,
) -> Result<Result<(Plan, usize), ParamsRefusal>, Bad> {
    let bytes = bytes_of(alloc, parts, given)?;
    let (header, rest) = behind_header(bytes.as_slice())?;
    Ok(read_params(&header, rest))
}

/// The plan of a sequence header and the parameters behind it.
pub(crate) fn plan_of(alloc: Global, parts: &[NamedBytes], given: &str) -> Result<Plan, Bad> {
    match plan_read(alloc, parts, given)? {
        Ok((plan, _)) => Ok(plan),
        Err(_) => Err(Bad::NoRow),
    }
}

/// What is read of transform parameters.
pub(crate) fn add_plan(plan: &Plan, used: usize, said: &mut Said) {
    said.word("wavelet");
    said.words(&[plan.wavelet, plan.wavelet_ho]);
    said.word("depth");
    said.words(&[plan.depth, plan.depth_ho]);
    said.word("slices");
    said.words(&[plan.slices_x, plan.slices_y]);
    said.named(&[("prefix", plan.prefix), ("scaler", plan.scaler)]);
    said.word("matrix");
    said.words(&plan.matrix);
    said.word("takes");
    said.word(used);
}

/// The transform parameters behind a sequence header, and how many bytes they take.
pub(crate) fn parameters(parts: &[NamedBytes], given: &str, said: &mut Said) -> Result<(), Bad> {
    match plan_read(said.alloc(), parts, given)? {
        Ok((plan, used)) => add_plan(&plan, used, said),
        Err(refusal) => said.shown(refusal),
    }
    Ok(())
}

fn add_cuts(header: &Header, rest: &[u8], said: &mut Said) {
    for length in 0..=rest.len() {
        match read_params(header, rest.get(..length).unwrap_or(rest)) {
            Ok(_) => said.word("read"),
            Err(refusal) => said.shown(refusal),
        }
    }
}

/// What is read of the first 0, 1, 2, .. and all of the bytes behind a sequence header.
pub(crate) fn parameters_cuts(
    parts: &[NamedBytes],
    given: &str,
    said: &mut Said,
) -> Result<(), Bad> {
    let bytes = bytes_of(said.alloc(), parts, given)?;
    let (header, rest) = behind_header(bytes.as_slice())?;
    add_cuts(&header, rest, said);
    Ok(())
}

/// The planes of a plan's picture.
pub(crate) fn plan_planes(parts: &[NamedBytes], given: &str, said: &mut Said) -> Result<(), Bad> {
    let plan = plan_of(said.alloc(), parts, given)?;
    add_shape(&plan.shape, said);
    Ok(())
}

// A plan, and the major version of a stream.
fn versioned(alloc: Global, parts: &[NamedBytes], given: &str) -> Result<(u32, Plan), Bad> {
    let (major, plan) = parted(given);
    Ok((natural(major)?, plan_of(alloc, parts, plan)?))
}

/// The bytes that are written of a plan, in a stream of a major version that stands before it.
pub(crate) fn parameters_written(
    parts: &[NamedBytes],
    given: &str,
    said: &mut Said,
) -> Result<(), Bad> {
    let (major, plan) = versioned(said.alloc(), parts, given)?;
    let is_symmetric = plan.wavelet_ho == plan.wavelet && plan.depth_ho == 0;
    if !is_symmetric && major != 3 {
        return Err(Bad::NoRow);
    }
    said.bytes(write_params(said.alloc(), major, &plan)?.as_slice());
    Ok(())
}
