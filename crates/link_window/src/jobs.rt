ghost use Rattle.std.specs.Prelude.{◌≡◌, ◌+◌, ◌<◌, ℕ, IfOk, true, false, length, map};
ghost use Rattle.std.specs.List.{list_all};
ghost use Rattle.std.specs.Option.{option_map_or};
ghost use Rattle.machine_model.specs.Feeding.{is_same_job};
ghost use Rattle.receiver_model.specs.Exchanging.{book_job};
ghost use Rattle.link_gather.specs.Views.{new_slice_of};
ghost use Rattle.link_slices.specs.Jobs.{job_by, job_in_run, job_of, jobs_of_run};
ghost use Rattle.link_window.specs.PictureJobs.{has_job_of, has_parameters, picture_job};
ghost use Rattle.vc_types.specs.TransformParameters.{parameters_of};

use link_gather::{NewSlice, PictureBook};
use std::alloc::Global;
use vc_slice::{RunJob, SliceJob};
use vc_types::{NoMemory, Plan};

/// The jobs of slices of the picture with this number.
pub(crate) fn jobs_of(
    alloc: Global,
    number: u64,
    slices: Vec<NewSlice>,
) -> Result<Vec<SliceJob>, NoMemory>
    ensures { IfOk result (λ jobs. map job_of jobs.items
        ≡ map (picture_job number) (map new_slice_of slices.items)) }
{
    let mut jobs = Vec::with_capacity(alloc, slices.len())?;
    for slice in slices {
        jobs.push(picture_job(number, slice))?;
    }
    Ok(jobs)
}

fn picture_job(number: u64, slice: NewSlice) -> SliceJob
    ensures { job_of result ≡ picture_job number (new_slice_of slice) }
{
    SliceJob {
        plan: slice.plan,
        number,
        index: slice.index,
        bytes: slice.bytes,
    }
}

/// Whether a job is of a slice that the picture has: by its plan and its bytes.
pub(crate) fn has_job(book: &PictureBook, job: &SliceJob) -> bool
    ensures { result ≡ option_map_or (is_same_job (job_of job.now))
        (book_job book.now job.now.number job.now.index) false }
{
    has_slice(book, &job.plan, job.index, job.bytes.as_slice())
}

/// Whether slice number `k` of a run is one that the picture has: by its plan and its bytes.
pub(crate) fn has_slice_of(book: &PictureBook, run: &RunJob, k: usize) -> bool
    requires { k < length run.now.slices.items }
    ensures { result ≡ option_map_or (is_same_job (job_in_run run.now k))
        (book_job book.now run.now.number (run.now.first + k)) false }
{
    has_slice(
        book,
        &run.plan,
        run.first + k as u32,
        run.slices[k].as_slice(),
    )
}

/// Whether all slices of a run are ones that the picture has: by their plan and their bytes.
pub(crate) fn has_run(book: &PictureBook, run: &RunJob) -> bool
    ensures { result ≡ list_all (has_job_of book.now) (jobs_of_run run.now) }
{
    if !has_plan(book, &run.plan) {
        return false;
    }
    for k in 0..run.slices.len() {
        if !has_bytes_of(book, run, k) {
            return false;
        }
    }
    true
}

// Whether the picture has this plan.
fn has_plan(book: &PictureBook, plan: &Plan) -> bool
    ensures { result ≡ has_parameters book.now (parameters_of plan.now) }
{
    match book.plan() {
        Some(own) => plan.is_same(&own),
        None => false,
    }
}

// Whether the picture has slice number `k` of a run, which is by its plan: with its bytes.
fn has_bytes_of(book: &PictureBook, run: &RunJob, k: usize) -> bool
    requires below { k < length run.now.slices.items }
    requires plan { has_parameters book.now (parameters_of run.now.plan) ≡ true }
    ensures { result ≡ has_job_of book.now (job_in_run run.now k) }
{
    match book.slice(run.first + k as u32) {
        Some(slice) => run.slices[k].as_slice() == slice.as_slice(),
        None => false,
    }
}

// Whether the picture has this slice: by this plan and with these bytes.
fn has_slice(book: &PictureBook, plan: &Plan, index: u32, bytes: &[u8]) -> bool
    ensures { (number : ℕ) → result ≡ option_map_or
        (is_same_job (job_by (parameters_of plan.now) number index bytes.now))
        (book_job book.now number index) false }
{
    let Some(own) = book.plan() else {
        return false;
    };
    let Some(slice) = book.slice(index) else {
        return false;
    };
    plan.is_same(&own) && bytes == slice.as_slice()
}
