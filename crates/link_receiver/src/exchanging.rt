ghost use Rattle.std.specs.Prelude.{◌≡◌, ◌⊎◌, ◌<◌, ℕ, List, [], ◌∷◌, true, Option, IfOk, IfSome, OnOk, is_some};
ghost use Rattle.std.specs.Prelude.{length, map};
ghost use Rattle.std.specs.List.{list_all};
ghost use Rattle.std.specs.Option.{option_map};
ghost use Rattle.machine_model.specs.Places.{own_answer};
ghost use Rattle.receiver_model.specs.Exchanging.{is_own, takes_done, takes_dones};
ghost use Rattle.receiver_model.specs.Releasing.{next_picture};
ghost use Rattle.link_receiver.specs.Exchanged.{IsExchanged, KeepsPlaces};
ghost use Rattle.link_receiver.specs.Offers.{AreOffersOf, IsOfferOf, proposed_in};
ghost use Rattle.link_receiver.specs.Offers.{are_asked, asked_at, asked_in};
ghost use Rattle.link_slices.specs.Calls.{PlaceCall, PlacesAreBelow, Puts, exchanges_of, is_handed_back};
ghost use Rattle.link_slices.specs.Jobs.{answered_run, job_in_run, job_of, jobs_of_run, made_run};
ghost use Rattle.link_window.specs.Views.{releasable_of};

use crate::reception::Reception;
use link_slices::runs_of;
use link_window::Released;
use std::thread::Threads;
use vc_slice::{Places, RunDone, RunJob, RunLoad, SliceJob, decode_run};
use vc_types::NoMemory;

// How many rooms for strips are kept: as many as there may be runs out, so that none is let go that is soon
// wanted again.
const MOST_ROOMS: usize = 256;

// How many runs are asked for, those that are out longest, where one finds no place.
const FEW_ASKED: usize = 8;

// How many runs may be out before those that are decoded are taken back early.
const FEW_OUT: usize = 24;

#[tactic(auto, using(crate::proofs::Asked::keeps_none, crate::proofs::Asked::keeps_twice))]
impl<H: Threads + Copy> Reception<H> {
    /// Offers slices to places, run by run, and takes back what is decoded: where a run is handed back, and
    /// where a picture may be released, which is answered.
    pub(crate) fn exchange<P: Places>(
        &mut self,
        jobs: Vec<SliceJob>,
        places: &mut P,
    ) -> Result<Option<Released>, NoMemory>
        requires below { PlacesAreBelow (P.bound places.old) self.old.out }
        ensures exchanged { OnOk result ((calls : List PlaceCall)
            × IsExchanged (P.told places.old) (P.told places.new) self.old self.new calls
            × AreOffersOf (map job_of jobs.items) (proposed_in (exchanges_of calls))
            × (is_some (next_picture self.old) ≡ true
            → are_asked self.old.out (exchanges_of calls) ≡ true)) }
        ensures next { IfOk result
            (λ next. option_map releasable_of next ≡ next_picture self.new) }
        ensures places { KeepsPlaces P.told P.bound places.old places.new self.new.out }
    {
        self.offer_all(jobs, places)?;
        self.take_back(places)
    }

    /// Takes back what is decoded, if a picture may be released, which is answered; and as long as a run
    /// waits that nobody decodes, decodes the last of them here. Where no picture may be released, takes
    /// runs back only where many are out.
    pub(crate) fn take_back<P: Places>(
        &mut self,
        places: &mut P,
    ) -> Result<Option<Released>, NoMemory>
        requires below { PlacesAreBelow (P.bound places.old) self.old.out }
        ensures exchanged { OnOk result ((calls : List PlaceCall)
            × IsExchanged (P.told places.old) (P.told places.new) self.old self.new calls
            × (proposed_in (exchanges_of calls) ≡ [])
            × (is_some (next_picture self.old) ≡ true
            → are_asked self.old.out (exchanges_of calls) ≡ true)) }
        ensures next { IfOk result
            (λ next. option_map releasable_of next ≡ next_picture self.new) }
        ensures places { KeepsPlaces P.told P.bound places.old places.new self.new.out }
    {
        let Some(next) = self.next_release() else {
            self.collect(places)?;
            return Ok(None);
        };
        let _came = self.ask_all(places)?;
        self.help(places)?;
        Ok(Some(next))
    }

    fn offer_all<P: Places>(&mut self, jobs: Vec<SliceJob>, places: &mut P) -> Result<(), NoMemory>
        requires below { PlacesAreBelow (P.bound places.old) self.old.out }
        ensures exchanged { OnOk result ((calls : List PlaceCall)
            × IsExchanged (P.told places.old) (P.told places.new) self.old self.new calls
            × AreOffersOf (map job_of jobs.items) (proposed_in (exchanges_of calls))) }
        ensures places { KeepsPlaces P.told P.bound places.old places.new self.new.out }
    {
        let runs = runs_of(self.alloc, jobs)?;
        let mut may_come = true;
        for job in runs {
            let room = self.spare_room();
            may_come = self.offer(RunLoad { job, room }, may_come, places)?;
        }
        Ok(())
    }

    // Offers a run. Where it is handed back while something may come, the runs that are out longest are asked
    // for, and if something came the run is offered once more. Where it is handed back still, it is decoded
    // here. Answers whether something may still come.
    fn offer<P: Places>(
        &mut self,
        load: RunLoad,
        may_come: bool,
        places: &mut P,
    ) -> Result<bool, NoMemory>
        requires below { PlacesAreBelow (P.bound places.old) self.old.out }
        ensures exchanged { OnOk result ((calls : List PlaceCall)
            × IsExchanged (P.told places.old) (P.told places.new) self.old self.new calls
            × IsOfferOf (jobs_of_run load.job) (proposed_in (exchanges_of calls))) }
        ensures places { KeepsPlaces P.told P.bound places.old places.new self.new.out }
    {
        let Some(load) = self.put(load, places)? else {
            return Ok(may_come);
        };
        if !may_come {
            self.make(load)?;
            return Ok(false);
        }
        if !self.ask_first(places)? {
            self.make(load)?;
            return Ok(false);
        }
        if let Some(load) = self.put(load, places)? {
            self.make(load)?;
        }
        Ok(true)
    }

    // Offers a run once. It may be handed back.
    fn put<P: Places>(&mut self, load: RunLoad, places: &mut P) -> Result<Option<RunLoad>, NoMemory>
        requires below { PlacesAreBelow (P.bound places.old) self.old.out }
        ensures exchanged { IfOk result (λ back. (answer : Option ℕ)
            × IsExchanged (P.told places.old) (P.told places.new) self.old self.new
            (Puts load.job answer ∷ []) × is_handed_back answer back) }
        ensures back { IfOk result (λ back. IfSome back (λ same. same.job ≡ load.job)) }
        ensures places { KeepsPlaces P.told P.bound places.old places.new self.new.out }
    {
        self.out.offer(load, places)
    }

    // Decodes a run that found no place, while others are out. Where none is, nobody else decodes, and
    // each slice is decoded once its picture is released.
    fn make(&mut self, load: RunLoad) -> Result<(), NoMemory>
        ensures made { OnOk result ((self.new ≡ self.old)
            ⊎ (self.new ≡ takes_dones self.old (made_run load.job))) }
        ensures out { self.new.out ≡ self.old.out }
    {
        if self.out.count() > 0 {
            return self.make_run(load);
        }
        self.keep_room(load.room)
    }

    // Decodes a run here, and keeps its answers as those of one that came back. Where not all of its slices
    // are the receiver's own, only those are decoded that are.
    fn make_run(&mut self, load: RunLoad) -> Result<(), NoMemory>
        ensures made { OnOk result (self.new ≡ takes_dones self.old (made_run load.job)) }
        ensures out { self.new.out ≡ self.old.out }
    {
        let RunLoad { job, room } = load;
        if !self.are_own(&job) {
            self.make_own(&job)?;
            return self.keep_room(room);
        }
        let done = decode_run(self.alloc, job, room)?;
        self.keep_own(done)
    }

    // Decodes those slices of a run that are the receiver's own and have no answer.
    fn make_own(&mut self, job: &RunJob) -> Result<(), NoMemory>
        ensures made { OnOk result (self.new ≡ takes_dones self.old (made_run job.now)) }
        ensures out { self.new.out ≡ self.old.out }
    {
        for k in 0..job.slices.len() {
            self.make_slice(job, k)?;
        }
        Ok(())
    }

    // The same of slice number `k`.
    fn make_slice(&mut self, job: &RunJob, k: usize) -> Result<(), NoMemory>
        requires { k < length job.now.slices.items }
        ensures made { OnOk result
            (self.new ≡ takes_done self.old (own_answer (job_in_run job.now k))) }
        ensures out { self.new.out ≡ self.old.out }
    {
        if self.is_own_slice(job, k) {
            self.answers.make_slice(job, k)?;
        }
        Ok(())
    }

    fn is_own_slice(&self, job: &RunJob, k: usize) -> bool
        requires { k < length job.now.slices.items }
        ensures { result ≡ is_own self.now (job_in_run job.now k) }
    {
        match &self.standing {
            Some(standing) => standing.is_own_slice(job, k),
            None => false,
        }
    }

    // Whether all slices of a run are the receiver's own.
    fn are_own(&self, job: &RunJob) -> bool
        ensures { result ≡ true → list_all (is_own self.now) (jobs_of_run job.now) ≡ true }
    {
        match &self.standing {
            Some(standing) => standing.are_own(job),
            None => false,
        }
    }

    // While more than a few runs are out, takes back the one that was put first, and stops at the first that
    // isn't decoded. So the memory of their strips serves other runs early.
    fn collect<P: Places>(&mut self, places: &mut P) -> Result<(), NoMemory>
        requires below { PlacesAreBelow (P.bound places.old) self.old.out }
        ensures exchanged { OnOk result ((calls : List PlaceCall)
            × IsExchanged (P.told places.old) (P.told places.new) self.old self.new calls
            × (proposed_in (exchanges_of calls) ≡ [])) }
        ensures places { KeepsPlaces P.told P.bound places.old places.new self.new.out }
    {
        for _ in FEW_OUT..self.out_count() {
            if !self.ask(0, places)? {
                break;
            }
        }
        Ok(())
    }

    // Takes runs back that wait, the last one first, and decodes each; then asks what is decoded by then.
    // So only where a picture may be released.
    fn help<P: Places>(&mut self, places: &mut P) -> Result<(), NoMemory>
        requires released { is_some (next_picture self.old) ≡ true }
        requires below { PlacesAreBelow (P.bound places.old) self.old.out }
        ensures exchanged { OnOk result ((calls : List PlaceCall)
            × IsExchanged (P.told places.old) (P.told places.new) self.old self.new calls
            × (proposed_in (exchanges_of calls) ≡ [])) }
        ensures places { KeepsPlaces P.told P.bound places.old places.new self.new.out }
    {
        for i in (0..self.out_count()).rev() {
            self.take_over(i, places)?;
        }
        let _came = self.ask_all(places)?;
        Ok(())
    }

    // Takes the `i`th run that is out back, if there are so many and nobody decodes it yet, and decodes it.
    fn take_over<P: Places>(&mut self, i: usize, places: &mut P) -> Result<(), NoMemory>
        requires released { is_some (next_picture self.old) ≡ true }
        requires below { PlacesAreBelow (P.bound places.old) self.old.out }
        ensures exchanged { OnOk result ((calls : List PlaceCall)
            × IsExchanged (P.told places.old) (P.told places.new) self.old self.new calls
            × (proposed_in (exchanges_of calls) ≡ [])) }
        ensures places { KeepsPlaces P.told P.bound places.old places.new self.new.out }
    {
        if i >= self.out.count() {
            return Ok(());
        }
        let place = self.out.place(i);
        let Some(load) = self.out.take_back(place, places) else {
            return Ok(());
        };
        self.make_run(load)
    }

    // Asks the places of the few runs that are out longest. Answers whether something came back.
    fn ask_first<P: Places>(&mut self, places: &mut P) -> Result<bool, NoMemory>
        requires below { PlacesAreBelow (P.bound places.old) self.old.out }
        ensures exchanged { OnOk result ((calls : List PlaceCall)
            × IsExchanged (P.told places.old) (P.told places.new) self.old self.new calls
            × (proposed_in (exchanges_of calls) ≡ [])) }
        ensures places { KeepsPlaces P.told P.bound places.old places.new self.new.out }
    {
        let mut came = false;
        for i in (0..FEW_ASKED).rev() {
            came = self.ask(i, places)? || came;
        }
        Ok(came)
    }

    // Asks the place of each run that is out. Answers whether something came back.
    fn ask_all<P: Places>(&mut self, places: &mut P) -> Result<bool, NoMemory>
        requires below { PlacesAreBelow (P.bound places.old) self.old.out }
        ensures exchanged { OnOk result ((calls : List PlaceCall)
            × IsExchanged (P.told places.old) (P.told places.new) self.old self.new calls
            × (proposed_in (exchanges_of calls) ≡ [])
            × (are_asked self.old.out (exchanges_of calls) ≡ true)) }
        ensures places { KeepsPlaces P.told P.bound places.old places.new self.new.out }
    {
        let mut came = false;
        for i in (0..self.out_count()).rev() {
            came = self.ask(i, places)? || came;
        }
        Ok(came)
    }

    fn out_count(&self) -> usize
        ensures { result ≡ length self.now.out }
    {
        self.out.count()
    }

    // Asks the place of the `i`th run that is out, if there are so many.
    fn ask<P: Places>(&mut self, i: usize, places: &mut P) -> Result<bool, NoMemory>
        requires below { PlacesAreBelow (P.bound places.old) self.old.out }
        ensures exchanged { OnOk result ((calls : List PlaceCall)
            × IsExchanged (P.told places.old) (P.told places.new) self.old self.new calls
            × (proposed_in (exchanges_of calls) ≡ [])
            × (asked_in (exchanges_of calls) ≡ asked_at self.old.out i)) }
        ensures places { KeepsPlaces P.told P.bound places.old places.new self.new.out }
    {
        if i >= self.out.count() {
            return Ok(false);
        }
        let place = self.out.place(i);
        match self.out.ask(place, places) {
            Some(done) => {
                self.accept(done)?;
                Ok(true)
            }
            None => Ok(false),
        }
    }

    // Keeps the answers to those slices of a run that are the receiver's own and have none.
    fn accept(&mut self, done: RunDone) -> Result<(), NoMemory>
        ensures value { OnOk result (self.new ≡ takes_dones self.old (answered_run done)) }
        ensures out { self.new.out ≡ self.old.out }
    {
        if !self.are_own(&done.job) {
            return self.make_own(&done.job);
        }
        self.keep_own(done)
    }

    // The same of a run whose slices are all the receiver's own.
    fn keep_own(&mut self, done: RunDone) -> Result<(), NoMemory>
        requires own { list_all (is_own self.old) (jobs_of_run done.job) ≡ true }
        ensures value { OnOk result (self.new ≡ takes_dones self.old (answered_run done)) }
        ensures out { self.new.out ≡ self.old.out }
    {
        if let Some(room) = self.answers.keep_run(done)? {
            self.keep_room(room)?;
        }
        Ok(())
    }

    // Memory for a strip; it may be too small.
    fn spare_room(&mut self) -> Vec<i32>
        ensures unchanged { self.new ≡ self.old }
    {
        match self.rooms.pop() {
            Some(room) => room,
            None => Vec::new(self.alloc),
        }
    }

    // Keeps a strip's memory for other runs.
    fn keep_room(&mut self, room: Vec<i32>) -> Result<(), NoMemory>
        ensures unchanged { self.new ≡ self.old }
    {
        if self.rooms.len() < MOST_ROOMS {
            self.rooms.push(room)?;
        }
        Ok(())
    }

    /// The least picture that is opened and not released, if it may be released.
    pub(crate) fn next_release(&self) -> Option<Released>
        ensures { option_map releasable_of result ≡ next_picture self.now }
    {
        match &self.standing {
            Some(standing) => standing.next_release(),
            None => None,
        }
    }
}
