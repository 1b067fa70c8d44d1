ghost use Rattle.std.specs.Prelude.{◌≡◌, ◌+◌, IfOk, OnOk, OnErr, Err, true};
ghost use Rattle.std.specs.Option.{option_copied, option_map};
ghost use Rattle.std.specs.Result.{result_map_both};
ghost use Rattle.machine_model.specs.Places.{Nothing, Offered, Decoded, unused_place, state_of, is_in};
ghost use Rattle.machine_model.specs.Places.{is_free, has_slice, is_of_slice, claimed_by};
ghost use Rattle.machine_model.specs.declared.place_state.PlaceState.TheVariants.{Waiting};
ghost use Rattle.slice_ring.specs.Calls.{completing, stale, taking_from, withdrawing_from};
ghost use Rattle.slice_ring.specs.Calls.{leaving_from, held_with, done_in};
ghost use Rattle.slice_ring.specs.Stages.{content_of};
ghost use Rattle.link_slices.specs.Jobs.{job_of, answered};

use crate::answers::{CompleteRefusal, NotHeld, NotWaiting, NotYet};
use link_slices::same_job;
use machine_model::PlaceState;
use std::marker::Model;
use std::mem;
use vc_slice::{SliceDone, SliceJob};
use vc_types::NoMemory;

// The serial of a place stays below it.
const LAST_SERIAL: u64 = 1 << 61;

/// What stands in a place. A job that is held has the number of its worker.
#[derive(Drop)]
pub(crate) enum Stage {
    Empty,
    Waiting(SliceJob),
    Held(u32, SliceJob),
    Done(SliceDone),
}

/// A place of the ring. Contracts see its data.
#[derive(Drop)]
pub(crate) struct RingPlace {
    serial: u64,
    stage: Stage,
}

impl Model for RingPlace {
    ghost use Rattle.machine_model.specs.Places.{JobPlace};

    ghost Value = { JobPlace };

    ghost use Rattle.slice_ring.specs.Stages.{content_of};

    ghost view = { λ p. record { serial = p.serial; content = content_of p.stage } };
}

impl RingPlace {
    pub(crate) fn unused() -> RingPlace
        ensures { result ≡ unused_place }
    {
        RingPlace {
            serial: 0,
            stage: Stage::Empty,
        }
    }

    pub(crate) fn state(&self) -> PlaceState
        ensures { result ≡ state_of self.now.content }
    {
        match &self.stage {
            Stage::Empty => PlaceState::Empty,
            Stage::Waiting(_) => PlaceState::Waiting,
            Stage::Held(_, _) => PlaceState::Held,
            Stage::Done(_) => PlaceState::Done,
        }
    }

    pub(crate) fn is_waiting(&self) -> bool
        ensures { result ≡ is_in Waiting self.now }
    {
        matches!(&self.stage, Stage::Waiting(_))
    }

    pub(crate) fn is_free(&self) -> bool
        ensures { result ≡ is_free self.now }
    {
        matches!(&self.stage, Stage::Empty) && self.serial < LAST_SERIAL
    }

    pub(crate) fn serial(&self) -> u64
        ensures { result ≡ self.now.serial }
    {
        self.serial
    }

    pub(crate) fn has_slice(&self, number: u64, index: u32) -> bool
        ensures { result ≡ has_slice number index self.now }
    {
        match &self.stage {
            Stage::Empty => false,
            Stage::Waiting(job) | Stage::Held(_, job) => is_of_slice(job, number, index),
            Stage::Done(done) => is_of_slice(&done.job, number, index),
        }
    }

    /// The job that a worker holds with this serial.
    pub(crate) fn held_job(&self, serial: u64) -> Option<&SliceJob>
        ensures { option_map job_of (option_copied result) ≡ held_with self.now serial }
    {
        match &self.stage {
            Stage::Held(_, job) if self.serial == serial => Some(job),
            _ => None,
        }
    }

    pub(crate) fn done(&self) -> Option<&SliceDone>
        ensures { option_map answered (option_copied result) ≡ done_in self.now.content }
    {
        match &self.stage {
            Stage::Done(done) => Some(done),
            _ => None,
        }
    }

    pub(crate) fn put(&mut self, job: SliceJob)
        requires free { is_free self.old ≡ true }
        ensures { self.new
            ≡ record { serial = self.old.serial + 1; content = Offered (job_of job) } }
    {
        self.serial += 1;
        self.stage = Stage::Waiting(job);
    }

    /// Gives the waiting job to a worker, and a copy of it to the caller.
    pub(crate) fn claim(&mut self, worker: u32) -> Result<SliceJob, NoMemory>
        requires waiting { is_in Waiting self.old ≡ true }
        ensures job { IfOk result (λ job. self.old.content ≡ Offered (job_of job)) }
        ensures held { OnOk result (self.new
            ≡ record self.old { content = claimed_by worker self.old.content }) }
        ensures unchanged { OnErr result (self.new ≡ self.old) }
    {
        let Stage::Waiting(job) = &self.stage else {
            unreachable!()
        };
        let copy = job.copy()?;
        self.stage = held_by(worker, mem::replace(&mut self.stage, Stage::Empty));
        Ok(copy)
    }

    pub(crate) fn complete(&mut self, serial: u64, done: SliceDone) -> Result<(), CompleteRefusal>
        ensures answer { result ≡ completing self.old serial done }
        ensures done { OnOk result (self.new
            ≡ record self.old { content = Decoded (answered done) }) }
        ensures unchanged { OnErr result (self.new ≡ self.old) }
    {
        let Stage::Held(_, job) = &self.stage else {
            return Err(self.stale(serial, done));
        };
        if self.serial != serial {
            return Err(self.stale(serial, done));
        }
        if !same_job(&done.job, job) {
            return Err(CompleteRefusal::Other { done });
        }
        self.stage = Stage::Done(done);
        Ok(())
    }

    fn stale(&self, given: u64, done: SliceDone) -> CompleteRefusal
        ensures { Err result ≡ stale self.now given done }
    {
        CompleteRefusal::Stale {
            kept: self.serial,
            state: self.state(),
            given,
            done,
        }
    }

    pub(crate) fn take(&mut self) -> Result<SliceDone, NotYet>
        ensures answer { result_map_both answered (λ e. e) result ≡ taking_from self.old.content }
        ensures free { OnOk result (self.new ≡ record self.old { content = Nothing }) }
        ensures unchanged { OnErr result (self.new ≡ self.old) }
    {
        match mem::replace(&mut self.stage, Stage::Empty) {
            Stage::Done(done) => Ok(done),
            other => {
                self.stage = other;
                Err(NotYet {
                    state: self.state(),
                })
            }
        }
    }

    pub(crate) fn withdraw(&mut self) -> Result<SliceJob, NotWaiting>
        ensures answer { result_map_both job_of (λ e. e) result
            ≡ withdrawing_from self.old.content }
        ensures free { OnOk result (self.new ≡ record self.old { content = Nothing }) }
        ensures unchanged { OnErr result (self.new ≡ self.old) }
    {
        match mem::replace(&mut self.stage, Stage::Empty) {
            Stage::Waiting(job) => Ok(job),
            other => {
                self.stage = other;
                Err(NotWaiting {
                    state: self.state(),
                })
            }
        }
    }

    pub(crate) fn leave(&mut self) -> Result<(), NotHeld>
        ensures answer { result ≡ leaving_from self.old.content }
        ensures free { OnOk result (self.new ≡ record self.old { content = Nothing }) }
        ensures unchanged { OnErr result (self.new ≡ self.old) }
    {
        match mem::replace(&mut self.stage, Stage::Empty) {
            Stage::Held(_, _) => Ok(()),
            other => {
                self.stage = other;
                Err(NotHeld {
                    state: self.state(),
                })
            }
        }
    }
}

// The job that waits is held by the worker.
fn held_by(worker: u32, stage: Stage) -> Stage
    ensures { content_of result ≡ claimed_by worker (content_of stage) }
{
    match stage {
        Stage::Waiting(job) => Stage::Held(worker, job),
        other => other,
    }
}

fn is_of_slice(job: &SliceJob, number: u64, index: u32) -> bool
    ensures { result ≡ is_of_slice number index (job_of job.now) }
{
    job.number == number && job.index == index
}
