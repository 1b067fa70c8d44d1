ghost use Rattle.std.specs.Prelude.{◌≡◌, ◌≤◌, ◌==◌, true, false, not, is_some, IfOk, OnOk, OnErr};
ghost use Rattle.std.specs.Prelude.{Ok};
ghost use Rattle.std.specs.Option.{option_map, option_map_or};
ghost use Rattle.link_core.specs.Cores.{IsReached, Steps};
ghost use Rattle.link_core.specs.Events.{verdict};
ghost use Rattle.link_core.specs.Events.{machine_event};
ghost use Rattle.machine_model.specs.Feeders.{is_closed_now, slice_job};
ghost use Rattle.machine_model.specs.Machine as machine;
ghost use Rattle.machine_model.specs.Machine.{new_machine};
ghost use Rattle.machine_model.specs.Places.{completes_job, frees_place, is_in, place_at};
ghost use Rattle.machine_model.specs.declared.place_state.PlaceState.TheVariants as states;
ghost use Rattle.link_slices.specs.Jobs.{job_of};

use crate::event::{Event, StepRefusal};
use crate::feeder::FeederPart;
use crate::verdict::{all_of_1, all_of_2, all_of_5};
use bytes::Bytes;
use slice_ring::{PlaceState, Ring};
use std::alloc::Global;
use std::marker::Model;
use vc_slice::{SliceJob, decode};
use vc_types::NoMemory;

/// A feeder and its workers: the datagrams that were heard, the answers to slices, the pictures
/// that were released, the bytes that were written, and the places between the feeder and the
/// workers. It is only ever as legal events leave it.
#[derive(Drop)]
pub struct Core {
    alloc: Global,
    window: u8,
    feeder: FeederPart,
    ring: Ring,
}

impl Model for Core {
    ghost use Rattle.link_core.specs.Cores.{CoreState, IsReached};

    ghost Value = { CoreState };

    ghost view = { λ c. record {
      window = c.window;
      machine = record { feeder = c.feeder; places = c.ring };
    } };

    ghost invariant = { λ c. IsReached (record {
      window = c.window;
      machine = record { feeder = c.feeder; places = c.ring };
    }) };
}

// Whether a job waits in a place.
fn is_waiting(ring: &Ring, place: u32) -> bool
    ensures { result ≡ is_in states.Waiting (place_at ring.now place) }
{
    matches!(ring.state(place), PlaceState::Waiting)
}

fn is_held(ring: &Ring, place: u32) -> bool
    ensures { result ≡ is_in states.Held (place_at ring.now place) }
{
    matches!(ring.state(place), PlaceState::Held)
}

fn is_done(ring: &Ring, place: u32) -> bool
    ensures { result ≡ is_in states.Done (place_at ring.now place) }
{
    matches!(ring.state(place), PlaceState::Done)
}

fn is_number(next: Option<u64>, number: u64) -> bool
    ensures { result ≡ option_map_or (λ n. n == number) next false }
{
    match next {
        Some(n) => n == number,
        None => false,
    }
}

// What is held in a place with this serial is decoded.
fn complete(alloc: Global, ring: &mut Ring, place: u32, serial: u64) -> Result<(), NoMemory>
    ensures completed { OnOk result (ring.new ≡ completes_job ring.old place serial) }
    ensures unchanged { OnErr result (ring.new ≡ ring.old) }
{
    let Some(job) = ring.held_job(place, serial) else {
        return Ok(());
    };
    let done = decode(alloc, job.copy()?)?;
    match ring.complete(place, serial, done) {
        Ok(()) => Ok(()),
        Err(_) => unreachable!(),
    }
}

// What is done in a place goes.
fn free_done(ring: &mut Ring, place: u32)
    requires done { is_in states.Done (place_at ring.old place) ≡ true }
    ensures freed { ring.new ≡ frees_place ring.old place }
{
    match ring.take(place) {
        Ok(_) => {}
        Err(_) => unreachable!(),
    }
}

// Whether the picture of a slice isn't closed, if the slice is kept.
fn is_open(
    alloc: Global,
    window: u8,
    feeder: &FeederPart,
    job: &Option<SliceJob>,
    number: u64,
    index: u32,
) -> Result<bool, NoMemory>
    requires least { 2 ≤ window }
    requires most { window ≤ 8 }
    requires job { option_map job_of job.now ≡ slice_job window feeder.now number index }
    ensures { is_some job.now ≡ true
        → IfOk result (λ stays. stays ≡ not (is_closed_now window feeder.now number)) }
{
    if job.is_none() {
        return Ok(true);
    }
    Ok(!feeder.is_closed(alloc, window, number)?)
}

// Whether a slice may be put into a place, by its job and by whether its picture isn't closed.
fn put_verdict(
    window: u8,
    feeder: &FeederPart,
    ring: &Ring,
    job: &Option<SliceJob>,
    is_open: bool,
    place: u32,
    number: u64,
    index: u32,
) -> Result<(), StepRefusal>
    requires job { option_map job_of job.now ≡ slice_job window feeder.now number index }
    requires is_open { is_some job.now ≡ true
        → is_open ≡ not (is_closed_now window feeder.now number) }
    ensures { let m : machine.Machine = record { feeder = feeder.now; places = ring.now } in
        result ≡ verdict (machine.conditions window m (machine.Put place number index)) }
{
    all_of_5(
        ring.may_put(place),
        job.is_some(),
        is_open,
        !ring.stands_in(number, index),
        !feeder.is_decoded(number, index),
    )
}

impl Core {
    /// Nothing was heard, and there are so many places that nothing was put into. So many pictures
    /// of a session may be open at a time, 2 to 8.
    pub fn new(alloc: Global, w: u8, places: u32) -> Result<Core, NoMemory>
        requires least { 2 ≤ w }
        requires most { w ≤ 8 }
        ensures value { IfOk result (λ core. core
            ≡ record { window = w; machine = new_machine places }) }
    {
        Ok(Core {
            alloc,
            window: w,
            feeder: FeederPart::new(alloc),
            ring: Ring::new(alloc, places)?,
        })
    }

    /// The bytes of the frames of the pictures that were released.
    pub fn written(&self) -> &[u8]
        ensures { result.now ≡ self.now.machine.feeder.written }
    {
        self.feeder.written()
    }

    /// Legal events lead to it.
    pub fn is_reached(&self)
        ensures { IsReached self.now }
    {
        let _feeder = &self.feeder;
    }

    fn enter(&mut self, datagram: Bytes) -> Result<(), StepRefusal>
        ensures { Steps self.old (machine.Enter datagram) result self.new }
    {
        all_of_1(!self.feeder.has_ended())?;
        self.feeder.hear(datagram)?;
        Ok(())
    }

    fn put(&mut self, place: u32, number: u64, index: u32) -> Result<(), StepRefusal>
        ensures { Steps self.old (machine.Put place number index) result self.new }
    {
        let job = self
            .feeder
            .slice_job(self.alloc, self.window, number, index)?;
        let is_open = is_open(self.alloc, self.window, &self.feeder, &job, number, index)?;
        put_verdict(
            self.window,
            &self.feeder,
            &self.ring,
            &job,
            is_open,
            place,
            number,
            index,
        )?;
        let Some(job) = job else { unreachable!() };
        self.ring.put_at(place, job);
        Ok(())
    }

    fn claim(&mut self, worker: u32, place: u32) -> Result<(), StepRefusal>
        ensures { Steps self.old (machine.Claim worker place) result self.new }
    {
        all_of_1(is_waiting(&self.ring, place))?;
        self.ring.claim_at(worker, place)?;
        Ok(())
    }

    fn complete(&mut self, place: u32, serial: u64) -> Result<(), StepRefusal>
        ensures { Steps self.old (machine.Complete place serial) result self.new }
    {
        complete(self.alloc, &mut self.ring, place, serial)?;
        Ok(())
    }

    fn take(&mut self, place: u32) -> Result<(), StepRefusal>
        ensures { Steps self.old (machine.Take place) result self.new }
    {
        all_of_1(is_done(&self.ring, place))?;
        let Some(done) = self.ring.done(place) else {
            unreachable!()
        };
        self.feeder.accept(self.alloc, self.window, done)?;
        free_done(&mut self.ring, place);
        Ok(())
    }

    fn withdraw(&mut self, place: u32) -> Result<(), StepRefusal>
        ensures { Steps self.old (machine.Withdraw place) result self.new }
    {
        all_of_1(is_waiting(&self.ring, place))?;
        match self.ring.withdraw(place) {
            Ok(_) => Ok(()),
            Err(_) => unreachable!(),
        }
    }

    fn leave(&mut self, place: u32) -> Result<(), StepRefusal>
        ensures { Steps self.old (machine.Leave place) result self.new }
    {
        all_of_1(is_held(&self.ring, place))?;
        match self.ring.leave(place) {
            Ok(()) => Ok(()),
            Err(_) => unreachable!(),
        }
    }

    fn redo(&mut self, number: u64, index: u32) -> Result<(), StepRefusal>
        ensures { Steps self.old (machine.Redo number index) result self.new }
    {
        let job = self
            .feeder
            .slice_job(self.alloc, self.window, number, index)?;
        all_of_2(job.is_some(), !self.feeder.is_decoded(number, index))?;
        let Some(job) = job else { unreachable!() };
        self.feeder.redo(self.alloc, job)?;
        Ok(())
    }

    fn release(&mut self, number: u64) -> Result<(), StepRefusal>
        ensures { Steps self.old (machine.Release number) result self.new }
    {
        let next = self.feeder.next_to_release(self.alloc, self.window)?;
        let has_answers = self.feeder.has_answers(self.alloc, self.window, number)?;
        all_of_2(is_number(next, number), has_answers)?;
        self.feeder.release(self.alloc, self.window, number)?;
        Ok(())
    }

    fn finish(&mut self)
        ensures { Steps self.old machine.Finish (Ok tt) self.new }
    {
        self.feeder.end();
    }
}

/// The event happens where each of its conditions holds; else the number of the first one that is
/// broken is told. A refusal changes nothing. A place that isn't there is neither empty nor
/// waiting, held or done.
pub fn step(state: &mut Core, e: Event) -> Result<(), StepRefusal>
    ensures { Steps state.old (machine_event e) result state.new }
{
    match e {
        Event::Enter(datagram) => state.enter(datagram),
        Event::Put {
            place,
            number,
            index,
        } => state.put(place, number, index),
        Event::Claim { worker, place } => state.claim(worker, place),
        Event::Complete { place, serial } => state.complete(place, serial),
        Event::Take { place } => state.take(place),
        Event::Withdraw { place } => state.withdraw(place),
        Event::Leave { place } => state.leave(place),
        Event::Redo { number, index } => state.redo(number, index),
        Event::Release { number } => state.release(number),
        Event::Finish => {
            state.finish();
            Ok(())
        }
    }
}
