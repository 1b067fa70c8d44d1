use crate::plans::UNWEIGHTED_SLICES;
use crate::runs::run_of;
use bytes::Bytes;
use std::alloc::Global;
use vc_slice::{Hands, Places, RunDone, RunJob, RunLoad, decode_run};
use vc_types::{NoMemory, Plan};

/// What is given back in place of the answer to a run.
#[derive(Clone, Copy)]
pub enum Given {
    OfNextPicture,
    /// `UNWEIGHTED_SLICES`.
    OfAnotherPlan,
    /// Those of the first slice of the first run, and empty ones in place of them.
    OfOtherBytes,
    /// Which has its answer already.
    OfFirstRun,
    /// Without its last slice, where there are more.
    CutShort,
    InOppositeOrder,
}

/// Two places, where a run is decoded at once. They give what they have, whichever is asked, and
/// tell nothing.
#[derive(Drop)]
pub struct TwoPlaces {
    alloc: Global,
    given: Given,
    // The first run that was put.
    first: Option<RunJob>,
    dones: Vec<RunDone>,
    // How many were given back.
    back: u32,
}

impl TwoPlaces {
    /// Two empty places.
    pub fn new(alloc: Global, given: Given) -> TwoPlaces {
        TwoPlaces {
            alloc,
            given,
            first: None,
            dones: Vec::new(alloc),
            back: 0,
        }
    }

    /// Whether something was given back, and nothing is left.
    pub fn gave_all(&self) -> bool {
        self.back > 0 && self.dones.is_empty()
    }

    // The first run that was put, which is this one if there was none.
    fn first(&mut self, job: &RunJob) -> Option<RunJob> {
        let first = match &self.first {
            Some(first) => first.copy(self.alloc).ok()?,
            None => job.copy(self.alloc).ok()?,
        };
        self.first = Some(first.copy(self.alloc).ok()?);
        Some(first)
    }

    // The run whose answer is given back in place of that to this one.
    fn turned(&mut self, job: &RunJob) -> Option<RunJob> {
        let alloc = self.alloc;
        let first = self.first(job)?;
        let all = job.slices.len();
        match self.given {
            Given::OfNextPicture => cut_to(alloc, job, job.plan, job.number.saturating_add(1), all),
            Given::OfAnotherPlan => cut_to(alloc, job, UNWEIGHTED_SLICES, job.number, all),
            Given::OfOtherBytes => with_other_bytes(alloc, job, &first),
            Given::OfFirstRun => Some(first),
            Given::CutShort => cut_to(
                alloc,
                job,
                job.plan,
                job.number,
                all.saturating_sub(1).max(1),
            ),
            Given::InOppositeOrder => job.copy(alloc).ok(),
        }
    }
}

// So many slices of a run in another picture.
fn cut_to(alloc: Global, job: &RunJob, plan: Plan, number: u64, count: usize) -> Option<RunJob> {
    let mut slices = Vec::new(alloc);
    for bytes in job.slices.as_slice().get(..count)? {
        slices.push(bytes.clone().ok()?).ok()?;
    }
    run_of(alloc, plan, number, job.first, slices)
}

// The run with the bytes of the first slice of the first run for each, or with empty ones where it has those.
fn with_other_bytes(alloc: Global, job: &RunJob, first: &RunJob) -> Option<RunJob> {
    let bytes = first.slices.as_slice().get(0)?;
    let mut slices = Vec::new(alloc);
    for own in &job.slices {
        let other = if own.as_slice() == bytes.as_slice() {
            Bytes::from_static(&[0; 4])
        } else {
            bytes.clone().ok()?
        };
        slices.push(other).ok()?;
    }
    run_of(alloc, job.plan, job.number, job.first, slices)
}

impl Places for TwoPlaces {
    ghost use Rattle.std.specs.Prelude.{None};

    ghost bound = { λ _. 2 };

    ghost told = { λ _. None };

    fn put(&mut self, load: RunLoad) -> Result<u32, RunLoad> {
        let place = self.dones.len();
        if place >= 2 {
            return Err(load);
        }
        let Some(done) = answer(self, &load.job) else {
            return Err(load);
        };
        match self.dones.push(done) {
            Ok(()) => Ok(place as u32),
            Err(_) => Err(load),
        }
    }

    // The last place is asked first.
    fn take(&mut self, _place: u32) -> Option<RunDone> {
        if self.dones.is_empty() {
            return None;
        }
        self.back = self.back.saturating_add(1);
        match self.given {
            Given::InOppositeOrder => Some(self.dones.remove(0)),
            _ => self.dones.pop(),
        }
    }

    fn withdraw(&mut self, _place: u32) -> Option<RunLoad> {
        None
    }

    fn leave(&mut self, _place: u32) {
        self.dones.clear();
    }
}

fn answer(places: &mut TwoPlaces, job: &RunJob) -> Option<RunDone> {
    let turned = places.turned(job)?;
    decode_run(places.alloc, turned, Vec::new(places.alloc)).ok()
}

impl Hands for TwoPlaces {
    ghost use Rattle.std.specs.Prelude.{⊤};

    ghost is_free = { λ _. ⊤ };

    fn start_workers(&mut self, _workers: u32) -> Result<(), NoMemory> {
        Ok(())
    }
}
