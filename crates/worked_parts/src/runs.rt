//! Rows of runs: slices decoded together.

use crate::parameters::plan_of;
use crate::said::Said;
use crate::slices::{add_coefficients, add_numbers, shared};
use crate::words::{bytes_of, natural, parted};
use bytes::Bytes;
use std::alloc::Global;
use vc_slice::{
    CoefficientList, RunAnswer, RunDone, RunJob, SliceCoeffs, Strip, Unsound, decode_run,
};
use vc_types::Component;
use worked_common::{Bad, NamedBytes, run_of};

// The bytes of slices, one after another.
fn slices_of(alloc: Global, parts: &[NamedBytes], given: &str) -> Result<Vec<Bytes>, Bad> {
    let mut slices = Vec::new(alloc);
    for text in given.split(':') {
        slices.push(shared(bytes_of(alloc, parts, text)?)?)?;
    }
    Ok(slices)
}

// plan : number of the first slice : bytes of each slice.
fn job_of(alloc: Global, parts: &[NamedBytes], given: &str) -> Result<Option<RunJob>, Bad> {
    let (plan, rest) = parted(given);
    let (first, rest) = parted(rest);
    let plan = plan_of(alloc, parts, plan)?;
    let slices = slices_of(alloc, parts, rest)?;
    Ok(run_of(alloc, plan, 0, natural(first)?, slices))
}

/// What a run decodes to, or that there is none: plan : number of the first slice : bytes of each slice.
pub(crate) fn run(parts: &[NamedBytes], given: &str, said: &mut Said) -> Result<(), Bad> {
    match job_of(said.alloc(), parts, given)? {
        Some(job) => add_run(
            &decode_run(said.alloc(), job, Vec::new(said.alloc()))?,
            said,
        ),
        None => said.word("none"),
    }
    Ok(())
}

fn add_run(done: &RunDone, said: &mut Said) {
    match &done.answer {
        RunAnswer::Together(strip) => add_strip(strip, said),
        RunAnswer::Apart(answers) => add_answers(answers.as_slice(), said),
    }
}

fn add_strip(strip: &Strip, said: &mut Said) {
    said.word("Together");
    for (name, c) in [
        ("y", Component::Y),
        ("c1", Component::C1),
        ("c2", Component::C2),
    ] {
        add_numbers(name, &CoefficientList::Narrow(strip.component(c)), said);
    }
}

fn add_answers(answers: &[Result<SliceCoeffs, Unsound>], said: &mut Said) {
    said.word("Apart");
    for answer in answers {
        match answer {
            Ok(coeffs) => add_coefficients(coeffs, said),
            Err(why) => said.shown(*why),
        }
    }
}
