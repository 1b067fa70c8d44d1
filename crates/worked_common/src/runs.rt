use crate::jobs::job_of;
use bytes::Bytes;
use std::alloc::Global;
use vc_slice::RunJob;
use vc_types::Plan;

/// The run of these slices, if they are whole slices of the plan, one after another in one row of slices.
pub fn run_of(
    alloc: Global,
    plan: Plan,
    number: u64,
    first: u32,
    slices: Vec<Bytes>,
) -> Option<RunJob> {
    let mut run = None;
    let mut index = first;
    for bytes in slices {
        let job = job_of(plan, number, index, bytes)?;
        run = match run {
            None => Some(RunJob::of(alloc, job).ok()?),
            Some(mut run) => {
                if !RunJob::goes_on(&run, &job) {
                    return None;
                }
                RunJob::push(&mut run, job).ok()?;
                Some(run)
            }
        };
        index = index.checked_add(1)?;
    }
    run
}
