//! Runs of slices to be decoded.

use bytes::Bytes;
use link_slices::same_job;
use std::alloc::Global;
use std::test::Fail;
use vc_slice::{RunAnswer, RunDone, RunJob, RunLoad, SliceJob};
use vc_types::{Component, NoMemory};
use worked_common::{THREE_SLICES, TWO_SLICES, job_of};

// A slice whose luma coefficients are LL 0, HL 1, LH 0, HH 1.
const SLICE: [u8; 6] = [0x00, 0x02, 0x94, 0x80, 0x00, 0x00];

const LUMA: [i32; 4] = [0, 1, 0, 1];

/// The job of an empty first slice of two.
pub(crate) fn empty_slice(number: u64) -> Result<SliceJob, NoMemory> {
    job_of(TWO_SLICES, number, 0, Bytes::from_static(&[0; 4])).ok_or(NoMemory)
}

/// The job of one of three slices with two coefficients.
pub(crate) fn edged_slice(number: u64, index: u32) -> Result<SliceJob, NoMemory> {
    job_of(THREE_SLICES, number, index, Bytes::from_static(&SLICE)).ok_or(NoMemory)
}

/// A run of one slice.
pub(crate) fn load_of(alloc: Global, job: SliceJob) -> Result<RunLoad, NoMemory> {
    Ok(RunLoad {
        job: RunJob::of(alloc, job)?,
        room: Vec::new(alloc),
    })
}

/// A run of so many of three slices, with two coefficients each, from one of them on.
pub(crate) fn edged_run(
    alloc: Global,
    number: u64,
    first: u32,
    count: u32,
) -> Result<RunLoad, NoMemory> {
    let mut load = load_of(alloc, edged_slice(number, first)?)?;
    for index in first.saturating_add(1)..first.saturating_add(count) {
        let job = edged_slice(number, index)?;
        if !load.job.goes_on(&job) {
            return Err(NoMemory);
        }
        load.job.push(job)?;
    }
    Ok(load)
}

/// Whether each slice of a run with two coefficients each was decoded.
pub(crate) fn is_edged_run(done: &RunDone) -> bool {
    match &done.answer {
        // The slices are side by side, and each subband of one has one coefficient.
        RunAnswer::Together(strip) => {
            let numbers = strip.component(Component::Y);
            let count = done.job.slices.len();
            for (i, number) in numbers.iter().enumerate() {
                if LUMA.get(i / count) != Some(number) {
                    return false;
                }
            }
            numbers.len() == count.saturating_mul(LUMA.len())
        }
        RunAnswer::Apart(_) => false,
    }
}

// Whether a slice is another job with one of its four bytes changed.
fn are_told_apart() -> Result<bool, NoMemory> {
    let zeros = empty_slice(7)?;
    let other = job_of(TWO_SLICES, 7, 0, Bytes::from_static(&[1, 0, 0, 0])).ok_or(NoMemory)?;
    Ok(same_job(&zeros, &zeros) && !same_job(&zeros, &other))
}

#[test]
fn jobs_of_other_bytes_are_told_apart(rt: HostRuntime) -> Result<(), Fail> {
    assert!(rt; are_told_apart()?);
    Ok(())
}
