use std::alloc::{AllocError, Global};
use vc_slice::{Hands, Places, RunDone, RunJob, RunLoad};
use vc_types::NoMemory;

#[derive(Drop)]
struct Stored {
    job: RunJob,
    place: u32,
}

/// Hands that tell what they are asked, while they have room for that, and decode nothing. A run's
/// place is the number of runs before it.
#[derive(Drop)]
pub struct Recorder {
    offered: Vec<Stored>,
    asked: Vec<u32>,
    freed: Vec<u32>,
    started: Vec<u32>,
    // Whether a place was asked that had been freed before.
    asked_freed: bool,
    is_full: bool,
}

impl Recorder {
    /// Nothing was asked yet, and there is room for so many questions of each kind.
    pub fn new(alloc: Global, room: usize) -> Result<Recorder, AllocError> {
        Ok(Recorder {
            offered: Vec::with_capacity(alloc, room)?,
            asked: Vec::with_capacity(alloc, room)?,
            freed: Vec::with_capacity(alloc, room)?,
            started: Vec::with_capacity(alloc, room)?,
            asked_freed: false,
            is_full: false,
        })
    }

    /// Whether there was room for all, and slices of these numbers and indices were offered in turn.
    pub fn was_offered(&self, slices: &[(u64, u32)]) -> bool {
        if self.is_full {
            return false;
        }
        let mut at = 0;
        for stored in &self.offered {
            for k in 0..stored.job.slices.len() {
                let offered = (stored.job.number, stored.job.first + k as u32);
                if slices.get(at) != Some(&offered) {
                    return false;
                }
                at += 1;
            }
        }
        at == slices.len()
    }

    /// The places that were freed, in this order.
    pub fn freed(&self) -> &[u32] {
        self.freed.as_slice()
    }

    /// Whether a place was asked after it was freed.
    pub fn asked_freed(&self) -> bool {
        self.asked_freed
    }

    /// How many workers were started each time.
    pub fn started(&self) -> &[u32] {
        self.started.as_slice()
    }
}

impl Places for Recorder {
    ghost use Rattle.std.specs.Prelude.{◌^◌, [], None, Some, map, if◌then◌else◌};

    ghost bound = { λ _. 2 ^ 32 };

    ghost told = { λ r. if r.is_full then None else Some (record {
      offered = map (λ o. record { job = o.job; place = Some o.place }) r.offered.items;
      asked = r.asked.items;
      given = [];
      freed = r.freed.items;
      started = r.started.items;
    }) };

    fn put(&mut self, load: RunLoad) -> Result<u32, RunLoad> {
        let place = self.offered.len();
        if place >= self.offered.capacity() || place > 1000 {
            self.is_full = true;
            return Err(load);
        }
        let place = place as u32;
        self.offered.push_reserved(Stored {
            job: load.job,
            place,
        });
        Ok(place)
    }

    fn take(&mut self, place: u32) -> Option<RunDone> {
        if self.freed.contains(&place) {
            self.asked_freed = true;
        }
        if self.asked.len() >= self.asked.capacity() {
            self.is_full = true;
        } else {
            self.asked.push_reserved(place);
        }
        None
    }

    fn withdraw(&mut self, _place: u32) -> Option<RunLoad> {
        None
    }

    fn leave(&mut self, place: u32) {
        if self.freed.len() >= self.freed.capacity() {
            self.is_full = true;
        } else {
            self.freed.push_reserved(place);
        }
    }
}

impl Hands for Recorder {
    ghost use Rattle.std.specs.Prelude.{⊤};

    ghost is_free = { λ _. ⊤ };

    fn start_workers(&mut self, workers: u32) -> Result<(), NoMemory> {
        if self.started.len() >= self.started.capacity() {
            self.is_full = true;
        } else {
            self.started.push_reserved(workers);
        }
        Ok(())
    }
}
