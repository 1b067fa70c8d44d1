ghost use Rattle.std.specs.Prelude.{◌≡◌, IfOk, length};
ghost use Rattle.vc_types.specs.Planes.{planes_in, planes_of};
ghost use Rattle.vc_types.specs.TransformParameters.{parameters_of};
ghost use Rattle.picture_build.specs.Kept.{all_slices};
ghost use Rattle.picture_build.specs.PictureCoefficients.{ArePictureCoefficients};
ghost use Rattle.vc_types.specs.OfPlan.{slice_count};

use crate::builder::PictureBuilder;
use std::alloc::Global;
use std::thread::Threads;
use vc_slice::SliceCoeffs;
use vc_types::{NoMemory, Plan, Plane};

/// The planes of Y, C1 and C2 from a picture's slices in raster order (ST 2042-1, picture decoding): the
/// coefficients at their places, the inverse transform, and the samples clipped and without padding. Each
/// slice has the coefficients that the plan gives it, with magnitudes below 2^60. It takes the memory of a
/// `PictureBuilder`, and fails only where memory runs out.
pub fn build(alloc: Global, plan: &Plan, slices: Vec<SliceCoeffs>) -> Result<[Plane; 3], NoMemory>
    requires count { length slices.items ≡ slice_count plan.now }
    requires whole { ArePictureCoefficients (parameters_of plan.now) slices.items }
    ensures value { IfOk result
        (λ planes. planes_in planes ≡ planes_of (parameters_of plan.now) slices.items) }
{
    let mut builder = filled(alloc, plan, &slices)?;
    builder.planes()
}

/// The same, where luma is transformed beside the colours, by join.
pub fn build_joined<H: Threads + Copy>(
    rt: H,
    alloc: Global,
    plan: &Plan,
    slices: Vec<SliceCoeffs>,
) -> Result<[Plane; 3], NoMemory>
    requires count { length slices.items ≡ slice_count plan.now }
    requires whole { ArePictureCoefficients (parameters_of plan.now) slices.items }
    ensures value { IfOk result
        (λ planes. planes_in planes ≡ planes_of (parameters_of plan.now) slices.items) }
{
    let mut builder = filled(alloc, plan, &slices)?;
    builder.planes_joined(rt)
}

// A builder that all slices of a picture came to.
fn filled(alloc: Global, plan: &Plan, slices: &[SliceCoeffs]) -> Result<PictureBuilder, NoMemory>
    requires count { length slices.now ≡ slice_count plan.now }
    requires whole { ArePictureCoefficients (parameters_of plan.now) slices.now }
    ensures { IfOk result
        (λ builder. builder ≡ all_slices (parameters_of plan.now) slices.now) }
{
    let mut builder = PictureBuilder::new(alloc, *plan)?;
    for slice in 0..slices.len() {
        builder.fill(slice as u32, &slices[slice]);
    }
    Ok(builder)
}
