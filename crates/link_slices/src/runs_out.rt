ghost use Rattle.std.specs.Prelude.{◌≡◌, ◌<◌, ◌==◌, IfOk, IfSome, OnErr, filter, length, position, slice_get};
ghost use Rattle.std.specs.Prelude.{[], ℕ, Option, Some};
ghost use Rattle.std.specs.Option.{option_map};
ghost use Rattle.receiver_model.specs.Exchanging.{Proposed, Fetched, not_at};
ghost use Rattle.receiver_model.specs.Releasing.{is_of_other};
ghost use Rattle.link_slices.specs.Calls.{PlacesAreBelow, out_exchanged, out_withdrawn};
ghost use Rattle.link_slices.specs.Calls.{freeing, is_handed_back, places_of_picture};
ghost use Rattle.link_slices.specs.Jobs.{answered_run, jobs_of_run};
ghost use Rattle.vc_slice.specs.Asked.{Grows, one_offer, taking, withdrawing, leaving};

use crate::out_run::OutRun;
use std::alloc::Global;
use std::marker::Model;
use vc_slice::{Places, RunDone, RunLoad};
use vc_types::NoMemory;

/// The runs that were put into places and weren't taken back since, in the order of the puts.
/// Contracts see the list of them.
#[derive(Drop)]
pub struct RunsOut {
    runs: Vec<OutRun>,
}

impl Model for RunsOut {
    ghost use Rattle.std.specs.Prelude.{List};
    ghost use Rattle.receiver_model.specs.Receptions.{RunOut};

    ghost Value = { List RunOut };

    ghost view = { λ s. s.runs.items };
}

impl RunsOut {
    pub fn new(alloc: Global) -> RunsOut
        ensures { result ≡ [] }
    {
        RunsOut {
            runs: Vec::new(alloc),
        }
    }

    pub fn count(&self) -> usize
        ensures { result ≡ length self.now }
    {
        self.runs.len()
    }

    /// The place of the `i`th run.
    pub fn place(&self, i: usize) -> u32
        requires { i < length self.now }
        ensures { option_map (λ run. run.place) (slice_get self.now i) ≡ Some result }
    {
        self.runs[i].place()
    }

    /// Puts a run once. It is out then, or it is handed back. After NoMemory it wasn't offered.
    pub fn offer<P: Places>(
        &mut self,
        load: RunLoad,
        places: &mut P,
    ) -> Result<Option<RunLoad>, NoMemory>
        requires below { PlacesAreBelow (P.bound places.old) self.old }
        ensures offered { IfOk result (λ back. (answer : Option ℕ)
            × Grows (P.told places.old) (P.told places.new) (one_offer load.job answer)
            × (self.new ≡ out_exchanged self.old (Proposed (jobs_of_run load.job) answer))
            × is_handed_back answer back) }
        ensures back { IfOk result (λ back. IfSome back (λ same. same.job ≡ load.job)) }
        ensures unchanged { OnErr result ((self.new ≡ self.old) × (places.new ≡ places.old)) }
        ensures bound { P.bound places.new ≡ P.bound places.old }
        ensures below { PlacesAreBelow (P.bound places.new) self.new }
    {
        let run = OutRun::new(&load.job);
        self.runs.reserve(1)?;
        match places.put(load) {
            Ok(place) => {
                self.runs.push_reserved(run.with_place(place));
                Ok(None)
            }
            Err(load) => Ok(Some(load)),
        }
    }

    /// Asks a place. The run that it gives is no longer out.
    pub fn ask<P: Places>(&mut self, place: u32, places: &mut P) -> Option<RunDone>
        requires place { place < P.bound places.old }
        requires below { PlacesAreBelow (P.bound places.old) self.old }
        ensures told { Grows (P.told places.old) (P.told places.new) (taking place result) }
        ensures out { self.new
            ≡ out_exchanged self.old (Fetched place (option_map answered_run result)) }
        ensures bound { P.bound places.new ≡ P.bound places.old }
        ensures below { PlacesAreBelow (P.bound places.new) self.new }
    {
        let done = places.take(place)?;
        self.forget(place);
        Some(done)
    }

    /// Takes the run of a place back, if nobody decodes it yet. It is no longer out then.
    pub fn take_back<P: Places>(&mut self, place: u32, places: &mut P) -> Option<RunLoad>
        requires place { place < P.bound places.old }
        requires below { PlacesAreBelow (P.bound places.old) self.old }
        ensures told { Grows (P.told places.old) (P.told places.new) (withdrawing place result) }
        ensures out { self.new ≡ out_withdrawn self.old place result }
        ensures bound { P.bound places.new ≡ P.bound places.old }
        ensures below { PlacesAreBelow (P.bound places.new) self.new }
    {
        let load = places.withdraw(place)?;
        self.forget(place);
        Some(load)
    }

    fn forget(&mut self, place: u32)
        ensures { self.new ≡ filter (not_at place) self.old }
    {
        while let Some(i) = index_at(&self.runs, place) {
            self.runs.remove(i);
        }
    }

    /// Frees each place where a run of the picture is. None of them is out then.
    pub fn free_picture<P: Places>(&mut self, number: u64, places: &mut P)
        requires below { PlacesAreBelow (P.bound places.old) self.old }
        ensures told { Grows (P.told places.old) (P.told places.new)
            (freeing (places_of_picture number self.old)) }
        ensures out { self.new ≡ filter (is_of_other number) self.old }
        ensures bound { P.bound places.new ≡ P.bound places.old }
        ensures below { PlacesAreBelow (P.bound places.new) self.new }
    {
        free_runs(&self.runs, number, places);
        self.runs.retain(|run| run.is_of_other(number));
    }
}

// The first of the runs that are at a place.
fn index_at(runs: &[OutRun], place: u32) -> Option<usize>
    ensures { result ≡ position (λ run. run.place == place) runs.now }
{
    runs.iter().position(|run| run.place() == place)
}

fn free_runs<P: Places>(runs: &[OutRun], number: u64, places: &mut P)
    requires below { PlacesAreBelow (P.bound places.old) runs.now }
    ensures told { Grows (P.told places.old) (P.told places.new)
        (freeing (places_of_picture number runs.now)) }
    ensures bound { P.bound places.new ≡ P.bound places.old }
{
    for run in runs {
        if !run.is_of_other(number) {
            free_place(run.place(), places);
        }
    }
}

// What nobody decodes yet is withdrawn, and anything else is left.
fn free_place<P: Places>(place: u32, places: &mut P)
    requires { place < P.bound places.old }
    ensures told { Grows (P.told places.old) (P.told places.new) (leaving place) }
    ensures bound { P.bound places.new ≡ P.bound places.old }
{
    if places.withdraw(place).is_none() {
        places.leave(place);
    }
}
