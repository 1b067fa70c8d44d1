//! Pictures built by the calls that no command makes: of a list of slices at once, and by a builder that is
//! given up.

ghost use Rattle.std.specs.Prelude.{◌≡◌, ◌<◌, IfOk, length, true};
ghost use Rattle.picture_build.specs.Kept.{HasAllSlices};
ghost use Rattle.picture_build.specs.PictureCoefficients.{ArePictureCoefficients};
ghost use Rattle.vc_types.specs.SliceCoefficients.{AreSliceCoefficients};
ghost use Rattle.vc_types.specs.Subbands.{slice_count};
ghost use Rattle.vc_types.specs.TransformParameters.{parameters_of};

use bytes::Bytes;
use picture_build::{PictureBuilder, build_joined};
use std::alloc::Global;
use std::test::Fail;
use vc_slice::{SliceCoeffs, SliceDone, decode};
use vc_types::{Plan, Plane};
use worked_common::{ONE_SLICE, job_of};

// A picture of one slice, and its luma: columns are put together before rows.
const SLICES: [&'static [u8]; 1] = [&[0, 2, 0x94, 0x80, 0, 0]];

const LUMA: [u16; 4] = [0x80, 0x80, 0x7f, 0x80];

// The coefficients of a slice, by its number and its bytes.
fn decoded(alloc: Global, plan: Plan, index: u32, bytes: &'static [u8]) -> Result<SliceCoeffs, Fail>
    requires { index < slice_count (parameters_of plan) }
    ensures { IfOk result (λ coeffs. AreSliceCoefficients (parameters_of plan) index coeffs) }
{
    let Some(job) = job_of(plan, 0, index, Bytes::from_static(bytes)) else {
        return Err(Fail::from("not one whole slice"));
    };
    let Ok(done) = decode(alloc, job) else {
        return Err(Fail::from("no memory"));
    };
    coefficients(done)
}

fn coefficients(done: SliceDone) -> Result<SliceCoeffs, Fail>
    ensures { IfOk result
        (λ coeffs. AreSliceCoefficients (parameters_of done.job.plan) done.job.index coeffs) }
{
    let SliceDone { job: _, answer } = done;
    match answer {
        Ok(coeffs) => Ok(coeffs),
        Err(_) => Err(Fail::from("unsound")),
    }
}

// The coefficients of each slice of a picture, by its bytes.
fn slices(alloc: Global, plan: Plan, coded: &[&'static [u8]]) -> Result<Vec<SliceCoeffs>, Fail>
    requires { length coded.now ≡ slice_count (parameters_of plan) }
    ensures count { IfOk result (λ slices. length slices.items ≡ slice_count (parameters_of plan)) }
    ensures whole { IfOk result
        (λ slices. ArePictureCoefficients (parameters_of plan) slices.items) }
{
    let mut slices = Vec::new(alloc);
    for i in 0..coded.len() {
        let coeffs = decoded(alloc, plan, i as u32, coded[i])?;
        slices.push(coeffs)?;
    }
    Ok(slices)
}

fn fill(
    builder: &mut PictureBuilder,
    plan: &Plan,
    index: u32,
    coeffs: &SliceCoeffs,
) -> Result<(), Fail>
    requires plan { builder.old.parameters ≡ parameters_of plan.now }
    requires in_plan { index < slice_count (parameters_of plan.now) }
    requires whole { AreSliceCoefficients (parameters_of plan.now) index coeffs.now }
    ensures plan { builder.new.parameters ≡ parameters_of plan.now }
{
    if builder.has(index) {
        return Err(Fail::from("the slice came before"));
    }
    builder.fill(index, coeffs);
    Ok(())
}

fn all_came(builder: &PictureBuilder, plan: &Plan) -> bool
    requires { builder.now.parameters ≡ parameters_of plan.now }
    ensures { result ≡ true → HasAllSlices builder.now }
{
    for index in 0..plan.slices_x * plan.slices_y {
        if !builder.has(index) {
            return false;
        }
    }
    true
}

fn finished(builder: PictureBuilder, plan: &Plan) -> Result<[Plane; 3], Fail>
    requires { builder.parameters ≡ parameters_of plan.now }
{
    if !all_came(&builder, plan) {
        return Err(Fail::from("a slice is missing"));
    }
    Ok(builder.finish()?)
}

fn is_wanted(planes: &[Plane; 3]) -> bool {
    planes[0].samples() == LUMA.as_slice()
        && planes[1].samples() == [0x80; 4].as_slice()
        && planes[2].samples() == [0x80; 4].as_slice()
}

#[test]
fn a_picture_is_built_in_whole_and_slice_by_slice(rt: HostRuntime) -> Result<(), Fail> {
    let (alloc, plan) = (rt.alloc(), ONE_SLICE);
    let slices = slices(alloc, plan, &SLICES)?;
    assert!(rt; is_wanted(&build_joined(&rt, alloc, &plan, slices)?));
    let mut builder = PictureBuilder::new(alloc, plan)?;
    fill(&mut builder, &plan, 0, &decoded(alloc, plan, 0, SLICES[0])?)?;
    assert!(rt; is_wanted(&finished(builder, &plan)?));
    Ok(())
}
