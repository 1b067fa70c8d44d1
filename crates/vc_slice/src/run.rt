ghost use Rattle.std.specs.Prelude.{◌≡◌, ◌<◌, ◌≤◌, ◌+◌, ◌∷◌, [], All, Some, IfOk, OnOk, length, true};
ghost use Rattle.std.specs.Prelude.{slice_index_or};
ghost use Rattle.vc_types.specs.Slices.{slice_length};
ghost use Rattle.vc_geometry.specs.OfPlan.{IsRun};
ghost use Rattle.vc_slice.specs.OfPlan.{IsWholeStrip, decodings, run_answers};

use crate::job::SliceJob;
use crate::run_answer::RunAnswer;
use bytes::Bytes;
use std::alloc::Global;
use vc_types::{NoMemory, Plan};

// The most slices of a run.
const MOST_SLICES: u64 = 32;

/// Slices one after another in one row of slices, which are to be decoded together: the plan and the number
/// of their picture, the number of the first there, and the bytes of each, prefix bytes included. Each is
/// one whole slice, and there are at most 32.
#[derive(Drop)]
pub struct RunJob {
    pub plan: Plan,
    pub number: u64,
    pub first: u32,
    pub slices: Vec<Bytes>,
    pub ghost whole: { All (λ bytes. slice_length plan.prefix plan.scaler bytes
        ≡ Some (length bytes)) slices.items },
    pub ghost some: { 0 < length slices.items },
    pub ghost few: { length slices.items ≤ 32 },
    pub ghost run: { IsRun plan first (length slices.items) },
}

/// A run with its decoding: of each slice its coefficients, or why it has none.
#[derive(Drop)]
pub struct RunDone {
    pub job: RunJob,
    pub answer: RunAnswer,
    pub ghost decoded: { run_answers job.plan job.first (length job.slices.items) answer
        ≡ decodings job.plan job.first job.slices.items },
    pub ghost strip: { IsWholeStrip job.plan job.first (length job.slices.items) answer },
}

/// A run, and memory for its strip.
#[derive(Drop)]
pub struct RunLoad {
    pub job: RunJob,
    pub room: Vec<i32>,
}

impl RunJob {
    ghost use Rattle.vc_slice.specs.RunJobs.{GoesOn, GrewBy};

    /// A run of one slice.
    pub fn of(alloc: Global, job: SliceJob) -> Result<RunJob, NoMemory>
        ensures { IfOk result (λ run. (run.plan ≡ job.plan) × (run.number ≡ job.number)
            × (run.first ≡ job.index) × (run.slices.items ≡ job.bytes ∷ [])) }
    {
        let SliceJob {
            plan,
            number,
            index,
            bytes,
        } = job;
        let mut slices = Vec::with_capacity(alloc, 16)?;
        slices.push(bytes)?;
        Ok(RunJob {
            plan,
            number,
            first: index,
            slices,
        })
    }

    /// Whether a slice is the next of the same picture, by the same plan, and in the same row of slices, and
    /// the run has fewer than 32.
    pub fn goes_on(&self, job: &SliceJob) -> bool
        ensures { result ≡ true → GoesOn self.now job.now }
    {
        let len = self.slices.len() as u64;
        let column = u64::from(self.first % self.plan.slices_x);
        if self.number != job.number || u64::from(self.first) + len != u64::from(job.index) {
            return false;
        }
        if len >= MOST_SLICES || column + len >= u64::from(self.plan.slices_x) {
            return false;
        }
        self.plan.is_same(&job.plan)
    }

    /// The same run. The bytes are shared.
    pub fn copy(&self, alloc: Global) -> Result<RunJob, NoMemory>
        ensures value { IfOk result (λ copy. (copy.plan ≡ self.now.plan)
            × (copy.number ≡ self.now.number) × (copy.first ≡ self.now.first)
            × (copy.slices.items ≡ self.now.slices.items)) }
    {
        let mut slices = Vec::with_capacity(alloc, self.slices.len())?;
        for bytes in &self.slices {
            let Ok(bytes) = bytes.clone() else {
                return Err(NoMemory);
            };
            slices.push(bytes)?;
        }
        Ok(RunJob {
            plan: self.plan,
            number: self.number,
            first: self.first,
            slices,
        })
    }

    /// Slice number `k` of the run as a job of its own. The bytes are shared.
    pub fn slice(&self, k: usize) -> Result<SliceJob, NoMemory>
        requires { k < length self.now.slices.items }
        ensures { IfOk result (λ job. (job.plan ≡ self.now.plan) × (job.number ≡ self.now.number)
            × (job.index ≡ self.now.first + k)
            × (job.bytes ≡ slice_index_or self.now.slices.items k [])) }
    {
        let Ok(bytes) = self.slices[k].clone() else {
            return Err(NoMemory);
        };
        Ok(SliceJob {
            plan: self.plan,
            number: self.number,
            index: self.first + k as u32,
            bytes,
        })
    }

    /// One slice more.
    pub fn push(&mut self, job: SliceJob) -> Result<(), NoMemory>
        requires { GoesOn self.old job }
        ensures { OnOk result (GrewBy self.old self.new job) }
    {
        self.slices.push(job.bytes)?;
        Ok(())
    }
}
