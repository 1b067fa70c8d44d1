use std::alloc::Global;
use vc_slice::{Hands, Places, RunDone, RunJob, RunLoad, decode_run};
use vc_types::NoMemory;

/// One place, where a run is decoded at once. It tells nothing.
#[derive(Drop)]
pub struct AtOnce {
    alloc: Global,
    done: Option<RunDone>,
}

impl AtOnce {
    /// An empty place.
    pub fn new(alloc: Global) -> AtOnce {
        AtOnce { alloc, done: None }
    }
}

impl Places for AtOnce {
    ghost use Rattle.std.specs.Prelude.{None};

    ghost bound = { λ _. 1 };

    ghost told = { λ _. None };

    fn put(&mut self, load: RunLoad) -> Result<u32, RunLoad> {
        if self.done.is_some() {
            return Err(load);
        }
        let Some(done) = decoded(self.alloc, &load.job) else {
            return Err(load);
        };
        self.done = Some(done);
        Ok(0)
    }

    fn take(&mut self, _place: u32) -> Option<RunDone> {
        self.done.take()
    }

    fn withdraw(&mut self, _place: u32) -> Option<RunLoad> {
        None
    }

    fn leave(&mut self, _place: u32) {
        self.done = None;
    }
}

impl Hands for AtOnce {
    ghost use Rattle.std.specs.Prelude.{⊤};

    ghost is_free = { λ _. ⊤ };

    fn start_workers(&mut self, _workers: u32) -> Result<(), NoMemory> {
        Ok(())
    }
}

fn decoded(alloc: Global, job: &RunJob) -> Option<RunDone> {
    decode_run(alloc, job.copy(alloc).ok()?, Vec::new(alloc)).ok()
}
