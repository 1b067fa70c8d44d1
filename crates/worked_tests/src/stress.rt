//! Ten thousand calls of a crew at work: each answer is of the job that was put there.

ghost use Rattle.std.specs.Prelude.{◌≡◌, ◌<◌, IfOk, OnOk};
ghost use Rattle.slice_pool.specs.Crews.{NotStarted, bound_at, crew_at};

use crate::jobs::{edged_run, is_edged_run};
use slice_pool::{Crew, Worker};
use std::alloc::Global;
use std::sync::Arc;
use std::test::Fail;
use std::thread::JoinHandle;
use vc_ports::NoGate;
use vc_slice::{Hands, Places};
use vc_types::NoMemory;

const PLACES: usize = 256;

// Which job was put into each place, 0 where none is there, and which places were left.
#[derive(Drop)]
struct Book {
    alloc: Global,
    numbers: [u64; PLACES],
    left: [bool; PLACES],
    // Where the last job was put.
    last: u32,
    ghost within: { last < 256 },
}

impl Book {
    // Whether the place was free or left.
    fn put<P: Places>(&mut self, places: &mut P, number: u64) -> Result<bool, NoMemory>
        requires { P.bound places.old ≡ 256 }
        ensures { OnOk result (P.bound places.new ≡ 256) }
    {
        // Runs of one, two and three slices in turn.
        let load = edged_run(self.alloc, number, 0, (number % 3) as u32 + 1)?;
        let Ok(place) = places.put(load) else {
            return Ok(true);
        };
        self.last = place;
        let place = place as usize;
        let was_free = self.numbers[place] == 0 || self.left[place];
        self.numbers[place] = number;
        self.left[place] = false;
        Ok(was_free)
    }

    // Whether what comes back, if anything does, is of the job that was put there.
    fn take<P: Places>(&mut self, places: &mut P, place: u32) -> bool
        requires { (P.bound places.old ≡ 256) × (place < 256) }
        ensures { P.bound places.new ≡ 256 }
    {
        match places.take(place) {
            Some(done) => self.is_back(place, done.job.number) && is_edged_run(&done),
            None => true,
        }
    }

    fn withdraw<P: Places>(&mut self, places: &mut P, place: u32) -> bool
        requires { (P.bound places.old ≡ 256) × (place < 256) }
        ensures { P.bound places.new ≡ 256 }
    {
        match places.withdraw(place) {
            Some(load) => self.is_back(place, load.job.number),
            None => true,
        }
    }

    fn leave<P: Places>(&mut self, places: &mut P, place: u32)
        requires { (P.bound places.old ≡ 256) × (place < 256) }
        ensures { P.bound places.new ≡ 256 }
    {
        places.leave(place);
        self.left[place as usize] = true;
    }

    fn is_back(&mut self, place: u32, number: u64) -> bool
        requires { place < 256 }
    {
        let place = place as usize;
        let is_own = self.numbers[place] == number;
        self.numbers[place] = 0;
        self.left[place] = false;
        is_own
    }

    // The place of the last job, whose worker may be at it, or any.
    fn place_by(&self, dice: u64) -> u32
        ensures { result < 256 }
    {
        if dice % 2 == 0 {
            return self.last;
        }
        (dice / 2 % 256) as u32
    }

    // One call, which the dice choose.
    fn turn<P: Places>(&mut self, places: &mut P, number: u64, dice: u64) -> Result<bool, NoMemory>
        requires { P.bound places.old ≡ 256 }
        ensures { OnOk result (P.bound places.new ≡ 256) }
    {
        let place = self.place_by(dice / 8);
        match dice % 8 {
            0..=3 => self.put(places, number),
            4 | 5 => Ok(self.take(places, place)),
            6 => Ok(self.withdraw(places, place)),
            _ => {
                self.leave(places, place);
                Ok(true)
            }
        }
    }
}

// Whether each answer in ten thousand calls is of its own job.
fn are_answers_own<P: Places>(alloc: Global, places: &mut P) -> Result<bool, NoMemory>
    requires { P.bound places.old ≡ 256 }
{
    let mut book = Book {
        alloc,
        numbers: [0; PLACES],
        left: [false; PLACES],
        last: 0,
    };
    let mut dice: u64 = 1;
    for number in 1..10_001 {
        dice = dice
            .wrapping_mul(6_364_136_223_846_793_005)
            .wrapping_add(1_442_695_040_888_963_407);
        if !book.turn(places, number, dice >> 33)? {
            return Ok(false);
        }
    }
    Ok(true)
}

// The same of four workers.
fn work_for<H, F: Fn(Worker) -> Option<JoinHandle<()>>>(
    alloc: Global,
    crew: &mut Crew<H, F>,
) -> Result<bool, NoMemory>
    requires free { crew_at crew.old ≡ NotStarted }
    requires callable { F.IsAlwaysCallable crew.old.start }
{
    crew.start_workers(4)?;
    are_answers_own(alloc, crew)
}

#[test]
fn answers_belong_to_their_jobs(rt: HostRuntime) -> Result<(), Fail> {
    let alloc = rt.alloc();
    let gate = Arc::new(alloc, NoGate)?;
    let mut crew = Crew::new(rt, alloc, |worker: Worker| worker.start(rt, &gate));
    let are_own = work_for(alloc, &mut crew);
    crew.stop();
    assert!(rt; are_own?);
    Ok(())
}
