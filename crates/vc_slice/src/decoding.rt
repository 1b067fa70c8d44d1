ghost use Rattle.std.specs.Prelude.{◌≡◌, ◌<◌, ◌≤◌, Ok, Err, Some, IfOk, length};
ghost use Rattle.vc_types.specs.Slices.{in_range, slice_length};
ghost use Rattle.vc_types.specs.declared.refusal.Unsound.TheVariants.{CoefficientRange};
ghost use Rattle.vc_slice.specs.Coded.{coded_of};
ghost use Rattle.vc_slice.specs.declared.subband.Stopped.TheVariants.{Large};
ghost use Rattle.vc_types.specs.OfPlan.{all_coefficients, slice_coefficients, slice_count};

use crate::bands::{SliceBands, SliceParts};
use crate::coded::{CodedSlice, coded_slice};
use crate::coeffs::SliceCoeffs;
use crate::done::SliceDone;
use crate::job::SliceJob;
use crate::narrow_slice::narrow_coefficients;
use crate::subband::Stopped;
use crate::wide_slice::wide_coefficients;
use std::alloc::Global;
use vc_types::{NoMemory, Plan, Unsound};

/// Decodes a slice (ST 2042-1, high-quality slice): its coefficients; IndexRange where its quantisation
/// index is above 127, and else CoefficientRange where a coefficient has a magnitude of 2^60 or more.
pub fn decode(alloc: Global, job: SliceJob) -> Result<SliceDone, NoMemory>
    ensures job { IfOk result (λ done. done.job ≡ job) }
{
    let answer = answer(alloc, &job.plan, job.index, job.bytes.as_slice())?;
    Ok(SliceDone { job, answer })
}

#[tactic(auto, unfolding(vc_types::specs::Slices::slice_coefficients, vc_types::specs::Slices::decoded_slice, vc_types::specs::Slices::slice_length))]
pub(crate) fn answer(
    alloc: Global,
    plan: &Plan,
    slice: u32,
    bytes: &[u8],
) -> Result<Result<SliceCoeffs, Unsound>, NoMemory>
    requires slice { slice < slice_count plan.now }
    requires whole { slice_length plan.now.prefix plan.now.scaler bytes.now
        ≡ Some (length bytes.now) }
    ensures value { IfOk result
        (λ answer. answer ≡ slice_coefficients plan.now slice bytes.now) }
{
    let Some((coded, _)) = coded_slice(plan.prefix, plan.scaler, bytes) else {
        unreachable!();
    };
    if coded.index > 127 {
        return Ok(Err(Unsound::IndexRange));
    }
    match coefficients(alloc, plan, slice, &coded) {
        Ok(coeffs) => Ok(Ok(coeffs)),
        Err(Stopped::Large) => Ok(Err(Unsound::CoefficientRange)),
        Err(Stopped::NoMemory) => Err(NoMemory),
    }
}

// The coefficients of a slice: in 32 bits first, and where one may be too wide, again in 64.
fn coefficients(
    alloc: Global,
    plan: &Plan,
    slice: u32,
    coded: &CodedSlice<'_>,
) -> Result<SliceCoeffs, Stopped>
    requires slice { slice < slice_count plan.now }
    requires index { coded.now.index ≤ 127 }
    ensures value { IfOk result (λ coeffs. Ok coeffs
        ≡ in_range (all_coefficients plan.now slice (coded_of coded.now))) }
    ensures large { result ≡ Err Large
        → in_range (all_coefficients plan.now slice (coded_of coded.now))
        ≡ Err CoefficientRange }
{
    let parts = SliceParts::new(plan, slice);
    let bands = SliceBands::new(&parts, coded.index);
    match narrow_coefficients(alloc, &bands, coded) {
        Ok(Some(coeffs)) => Ok(coeffs),
        Ok(None) => wide_coefficients(alloc, &bands, coded),
        Err(NoMemory) => Err(Stopped::NoMemory),
    }
}
