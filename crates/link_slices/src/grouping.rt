ghost use Rattle.std.specs.Prelude.{◌≡◌, ◌++◌, ◌∷◌, [], IfOk, map};
ghost use Rattle.std.specs.List.{flat_map};
ghost use Rattle.std.specs.Option.{option_map_or};
ghost use Rattle.link_slices.specs.Jobs.{job_of, jobs_of_run};

use std::alloc::Global;
use vc_slice::{RunJob, SliceJob};
use vc_types::NoMemory;

/// The same slices as runs: one ends where the next slice isn't the one after it in the same row of slices of
/// the same picture, and after 32.
pub fn runs_of(alloc: Global, jobs: Vec<SliceJob>) -> Result<Vec<RunJob>, NoMemory>
    ensures jobs { IfOk result
        (λ runs. flat_map jobs_of_run runs.items ≡ map job_of jobs.items) }
{
    let mut runs = Vec::new(alloc);
    let mut last = None;
    for job in jobs {
        let run = with_job(alloc, &mut runs, last, job)?;
        last = Some(run);
    }
    with_last(runs, last)
}

// The last run too, if there is one.
fn with_last(mut runs: Vec<RunJob>, last: Option<RunJob>) -> Result<Vec<RunJob>, NoMemory>
    ensures jobs { IfOk result (λ all. flat_map jobs_of_run all.items
        ≡ flat_map jobs_of_run runs.items ++ option_map_or jobs_of_run last []) }
{
    match last {
        Some(run) => {
            runs.push(run)?;
            Ok(runs)
        }
        None => Ok(runs),
    }
}

// The last run with one slice more, or a new one, where the last one is done.
fn with_job(
    alloc: Global,
    runs: &mut Vec<RunJob>,
    last: Option<RunJob>,
    job: SliceJob,
) -> Result<RunJob, NoMemory>
    ensures jobs { IfOk result (λ run. flat_map jobs_of_run runs.new.items ++ jobs_of_run run
        ≡ (flat_map jobs_of_run runs.old.items ++ option_map_or jobs_of_run last [])
        ++ job_of job ∷ []) }
{
    let Some(mut run) = last else {
        return RunJob::of(alloc, job);
    };
    if run.goes_on(&job) {
        run.push(job)?;
        return Ok(run);
    }
    runs.push(run)?;
    RunJob::of(alloc, job)
}
