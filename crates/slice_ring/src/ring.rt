ghost use Rattle.std.specs.Prelude.{◌≡◌, IfOk, IfSome, IsNone, OnOk, OnErr, Ok, true, false};
ghost use Rattle.std.specs.Prelude.{position};
ghost use Rattle.std.specs.Option.{option_copied, option_map, option_map_or};
ghost use Rattle.std.specs.Result.{result_map_both};
ghost use Rattle.machine_model.specs.Machine as machine;
ghost use Rattle.machine_model.specs.Machine.{is_legal_on_places};
ghost use Rattle.machine_model.specs.Places.{Offered, unused_places, place_at, is_in, is_free};
ghost use Rattle.machine_model.specs.Places.{has_slice, may_put, stands_in, state_of, puts_job};
ghost use Rattle.machine_model.specs.Places.{claims_job, completes_job, frees_place};
ghost use Rattle.machine_model.specs.Places.{AreApart, HaveOwnAnswers};
ghost use Rattle.machine_model.specs.declared.place_state.PlaceState.TheVariants.{Waiting};
ghost use Rattle.slice_ring.specs.Calls.{put_answer, complete_answer, IfStale, taking_from};
ghost use Rattle.slice_ring.specs.Calls.{withdrawing_from, leaving_from, held_with, done_in};
ghost use Rattle.link_slices.specs.Jobs.{job_of, answered};

use crate::answers::{Claim, CompleteRefusal, NotHeld, NotWaiting, NotYet, PutRefusal};
use crate::place::RingPlace;
use machine_model::PlaceState;
use std::alloc::Global;
use std::marker::Model;
use vc_slice::{SliceDone, SliceJob};
use vc_types::NoMemory;

/// Places where slices wait until they are decoded, numbered from 0. Contracts see the list of
/// them.
#[derive(Drop)]
pub struct Ring {
    places: Vec<RingPlace>,
}

impl Model for Ring {
    ghost use Rattle.std.specs.Prelude.{List};
    ghost use Rattle.machine_model.specs.Places.{JobPlace};

    ghost Value = { List JobPlace };

    ghost use Rattle.slice_ring.specs.Rings.{IsRing};

    ghost view = { λ r. r.places.items };

    ghost invariant = { λ r. IsRing r.places.items };
}

impl Ring {
    /// So many places, each of them empty with the serial 0.
    pub fn new(alloc: Global, places: u32) -> Result<Ring, NoMemory>
        ensures value { IfOk result (λ ring. ring ≡ unused_places places) }
    {
        let mut made = Vec::new(alloc);
        for _ in 0..places {
            made.push(RingPlace::unused())?;
        }
        Ok(Ring { places: made })
    }

    /// What a ring keeps: no slice stands in two of its places, and what is done is its own job's
    /// decoding.
    pub fn keeps(&self)
        ensures apart { AreApart self.now }
        ensures own_answers { HaveOwnAnswers self.now }
    {
        let _places = &self.places;
    }

    /// A job comes to the lowest place that is empty with a serial below 2^61. It is handed back
    /// where a place has a job of its slice, and else where there is no such place.
    pub fn put(&mut self, job: SliceJob) -> Result<u32, PutRefusal>
        ensures answer { result ≡ put_answer self.old job }
        ensures put { IfOk result (λ place. self.new ≡ puts_job self.old place (job_of job)) }
        ensures legal { IfOk result (λ place.
            is_legal_on_places self.old (machine.Put place job.number job.index) ≡ true) }
        ensures unchanged { OnErr result (self.new ≡ self.old) }
    {
        if let Some(place) = place_of(&self.places, job.number, job.index) {
            return Err(PutRefusal::Twice {
                job,
                place: place as u32,
            });
        }
        let Some(place) = free_place(&self.places) else {
            return Err(PutRefusal::Full { job });
        };
        self.places[place].put(job);
        Ok(place as u32)
    }

    /// The lowest waiting place is held by this worker, who gets a copy of its job.
    pub fn claim(&mut self, worker: u32) -> Result<Option<Claim>, NoMemory>
        ensures place { IfOk result (λ claim. option_map (λ c. c.place) claim
            ≡ position (is_in Waiting) self.old) }
        ensures job { IfOk result (λ claim. IfSome claim (λ c. place_at self.old c.place
            ≡ record { serial = c.serial; content = Offered (job_of c.job) })) }
        ensures claimed { IfOk result (λ claim. self.new
            ≡ option_map_or (λ c. claims_job self.old worker c.place) claim self.old) }
        ensures legal { IfOk result (λ claim. IfSome claim (λ c.
            is_legal_on_places self.old (machine.Claim worker c.place) ≡ true)) }
        ensures unchanged { OnErr result (self.new ≡ self.old) }
    {
        let Some(place) = waiting_place(&self.places) else {
            return Ok(None);
        };
        let serial = self.places[place].serial();
        let job = self.places[place].claim(worker)?;
        Ok(Some(Claim {
            place: place as u32,
            serial,
            job,
        }))
    }

    /// A place that is held with this serial is done. Where it isn't, and where it is held for
    /// another job, what was decoded is handed back.
    pub fn complete(
        &mut self,
        place: u32,
        serial: u64,
        done: SliceDone,
    ) -> Result<(), CompleteRefusal>
        ensures answer { result ≡ complete_answer self.old place serial done }
        ensures completed { OnOk result (self.new ≡ completes_job self.old place serial) }
        ensures stale { IfStale result (completes_job self.old place serial ≡ self.old) }
        ensures unchanged { OnErr result (self.new ≡ self.old) }
    {
        if place as usize >= self.places.len() {
            return Err(CompleteRefusal::Stale {
                kept: 0,
                state: PlaceState::Empty,
                given: serial,
                done,
            });
        }
        self.places[place as usize].complete(serial, done)
    }

    /// What is done in a place is taken, and the place is empty.
    pub fn take(&mut self, place: u32) -> Result<SliceDone, NotYet>
        ensures answer { result_map_both answered (λ e. e) result
            ≡ taking_from (place_at self.old place).content }
        ensures freed { OnOk result (self.new ≡ frees_place self.old place) }
        ensures legal { OnOk result (is_legal_on_places self.old (machine.Take place) ≡ true) }
        ensures unchanged { OnErr result (self.new ≡ self.old) }
    {
        if place as usize >= self.places.len() {
            return Err(NotYet {
                state: PlaceState::Empty,
            });
        }
        self.places[place as usize].take()
    }

    /// A job that waits is handed back, and its place is empty.
    pub fn withdraw(&mut self, place: u32) -> Result<SliceJob, NotWaiting>
        ensures answer { result_map_both job_of (λ e. e) result
            ≡ withdrawing_from (place_at self.old place).content }
        ensures freed { OnOk result (self.new ≡ frees_place self.old place) }
        ensures legal { OnOk result (is_legal_on_places self.old (machine.Withdraw place) ≡ true) }
        ensures unchanged { OnErr result (self.new ≡ self.old) }
    {
        if place as usize >= self.places.len() {
            return Err(NotWaiting {
                state: PlaceState::Empty,
            });
        }
        self.places[place as usize].withdraw()
    }

    /// A place that is held is empty. What its worker decodes comes too late.
    pub fn leave(&mut self, place: u32) -> Result<(), NotHeld>
        ensures answer { result ≡ leaving_from (place_at self.old place).content }
        ensures freed { OnOk result (self.new ≡ frees_place self.old place) }
        ensures legal { OnOk result (is_legal_on_places self.old (machine.Leave place) ≡ true) }
        ensures unchanged { OnErr result (self.new ≡ self.old) }
    {
        if place as usize >= self.places.len() {
            return Err(NotHeld {
                state: PlaceState::Empty,
            });
        }
        self.places[place as usize].leave()
    }

    /// The state of a place. A place past the last is empty.
    pub fn state(&self, place: u32) -> PlaceState
        ensures { result ≡ state_of (place_at self.now place).content }
    {
        match self.places.get(place as usize) {
            Some(p) => p.state(),
            None => PlaceState::Empty,
        }
    }

    /// Whether the place is there, and empty with a serial below 2^61.
    pub fn may_put(&self, place: u32) -> bool
        ensures { result ≡ may_put self.now place }
    {
        match self.places.get(place as usize) {
            Some(p) => p.is_free(),
            None => false,
        }
    }

    /// Whether a place has a job of this slice.
    pub fn stands_in(&self, number: u64, index: u32) -> bool
        ensures { result ≡ stands_in self.now number index }
    {
        self.places.iter().any(|p| p.has_slice(number, index))
    }

    /// The job that a worker holds in a place with this serial.
    pub fn held_job(&self, place: u32, serial: u64) -> Option<&SliceJob>
        ensures { option_map job_of (option_copied result)
            ≡ held_with (place_at self.now place) serial }
    {
        self.places.get(place as usize)?.held_job(serial)
    }

    /// What is done in a place.
    pub fn done(&self, place: u32) -> Option<&SliceDone>
        ensures { option_map answered (option_copied result)
            ≡ done_in (place_at self.now place).content }
    {
        self.places.get(place as usize)?.done()
    }

    /// A job comes to this place. No place may have a job of its slice.
    pub fn put_at(&mut self, place: u32, job: SliceJob)
        requires free { may_put self.old place ≡ true }
        requires apart { stands_in self.old job.number job.index ≡ false }
        ensures put { self.new ≡ puts_job self.old place (job_of job) }
    {
        self.places[place as usize].put(job);
    }

    /// The job that waits in this place is held by the worker, who gets a copy of it.
    pub fn claim_at(&mut self, worker: u32, place: u32) -> Result<SliceJob, NoMemory>
        requires waiting { is_in Waiting (place_at self.old place) ≡ true }
        ensures job { IfOk result (λ job.
            (place_at self.old place).content ≡ Offered (job_of job)) }
        ensures claimed { OnOk result (self.new ≡ claims_job self.old worker place) }
        ensures unchanged { OnErr result (self.new ≡ self.old) }
    {
        self.places[place as usize].claim(worker)
    }
}

// The first place that has a job of this slice.
fn place_of(places: &[RingPlace], number: u64, index: u32) -> Option<usize>
    ensures { result ≡ position (has_slice number index) places.now }
{
    places.iter().position(|p| p.has_slice(number, index))
}

fn free_place(places: &[RingPlace]) -> Option<usize>
    ensures { result ≡ position is_free places.now }
{
    places.iter().position(|p| p.is_free())
}

fn waiting_place(places: &[RingPlace]) -> Option<usize>
    ensures { result ≡ position (is_in Waiting) places.now }
{
    places.iter().position(|p| p.is_waiting())
}
