//! A board as places: the lowest one that is empty is used, and what was left isn't until its worker is done.

ghost use Rattle.std.specs.Prelude.{◌≡◌, ◌<◌, All, IfOk};
ghost use Rattle.std.specs.Arc.{arc_value};
ghost use Rattle.claim_board.specs.Calls.{IsNewWorker};
ghost use Rattle.claim_board.specs.Feeders.{feeder_bound};
ghost use Rattle.claim_board.specs.Seats.{IsWorkerOf, place_count};

use crate::jobs::{empty_slice, load_of};
use claim_board::{Board, BoardFeeder, WorkerSeat};
use std::alloc::Global;
use std::sync::Arc;
use std::test::Fail;
use vc_slice::Places;
use vc_types::NoMemory;

// A call of one of the two places, 0 and 1.
#[derive(Clone, Copy)]
enum Call {
    /// A picture's number.
    Put(u64),
    Take(Place),
    Withdraw(Place),
    Leave(Place),
    /// A worker claims it, and ends.
    Claim(Place),
}

#[derive(Clone, Copy)]
enum Place {
    First,
    Second,
}

#[derive(Clone, Copy, PartialEq, Eq)]
enum Answer {
    At(u32),
    /// The number of what comes back, or is claimed.
    Job(u64),
    Nothing,
}

#[derive(Drop)]
struct Fresh {
    alloc: Global,
    board: Arc<Board>,
    form: BoardFeeder,
    worker: WorkerSeat,
    ghost two: { place_count (arc_value board) ≡ 2 },
    ghost both: { feeder_bound form ≡ 2 },
    ghost of_worker: { IsWorkerOf (arc_value board) worker },
}

fn number_of(place: Place) -> u32
    ensures { result < 2 }
{
    match place {
        Place::First => 0,
        Place::Second => 1,
    }
}

fn only_one(board: &Board, workers: &mut Vec<WorkerSeat>) -> Result<WorkerSeat, NoMemory>
    requires { All (IsNewWorker board.now) workers.old.items }
    ensures { IfOk result (IsWorkerOf board.now) }
{
    match workers.pop() {
        Some(worker) => Ok(worker),
        None => Err(NoMemory),
    }
}

fn new_form(alloc: Global) -> Result<Fresh, NoMemory> {
    let (board, feeder, workers, _bells) = Board::new(alloc, 2, 1)?;
    let mut workers = workers;
    let worker = only_one(&board, &mut workers)?;
    let board = Arc::new(alloc, board)?;
    let form = BoardFeeder::new(alloc, Arc::try_clone(&board)?, feeder)?;
    Ok(Fresh {
        alloc,
        board,
        form,
        worker,
    })
}

fn job_or_nothing(number: Option<u64>) -> Answer {
    match number {
        Some(number) => Answer::Job(number),
        None => Answer::Nothing,
    }
}

impl Fresh {
    fn put(&mut self, number: u64) -> Result<Answer, NoMemory> {
        let load = load_of(self.alloc, empty_slice(number)?)?;
        Ok(match self.form.put(load) {
            Ok(place) => Answer::At(place),
            Err(load) => Answer::Job(load.job.number),
        })
    }

    fn claim(&mut self, place: Place) -> Answer {
        match self.board.claim(&mut self.worker, number_of(place)) {
            Ok(held) => Answer::Job(held.load.job.number),
            Err(_) => Answer::Nothing,
        }
    }

    fn turn(&mut self, call: Call) -> Result<Answer, NoMemory> {
        match call {
            Call::Put(number) => self.put(number),
            Call::Take(place) => {
                let done = self.form.take(number_of(place));
                Ok(job_or_nothing(done.map(|done| done.job.number)))
            }
            Call::Withdraw(place) => {
                let load = self.form.withdraw(number_of(place));
                Ok(job_or_nothing(load.map(|load| load.job.number)))
            }
            Call::Leave(place) => {
                self.form.leave(number_of(place));
                Ok(Answer::Nothing)
            }
            Call::Claim(place) => Ok(self.claim(place)),
        }
    }
}

const LOWEST: [(Call, Answer); 7] = [
    (Call::Put(1), Answer::At(0)),
    (Call::Put(2), Answer::At(1)),
    (Call::Put(3), Answer::Job(3)),
    (Call::Take(Place::Second), Answer::Nothing),
    (Call::Withdraw(Place::Second), Answer::Job(2)),
    (Call::Leave(Place::First), Answer::Nothing),
    // A place that was left isn't empty yet.
    (Call::Put(4), Answer::At(1)),
];

const ENDED: [(Call, Answer); 7] = [
    (Call::Put(7), Answer::At(0)),
    (Call::Claim(Place::First), Answer::Job(7)),
    (Call::Take(Place::First), Answer::Nothing),
    (Call::Withdraw(Place::First), Answer::Nothing),
    (Call::Leave(Place::First), Answer::Nothing),
    (Call::Put(8), Answer::At(1)),
    // The worker ended, and keeps its place.
    (Call::Put(9), Answer::Job(9)),
];

// The place of the first call that a new board answers otherwise, if there is one.
fn first_other(alloc: Global, calls: &[(Call, Answer)]) -> Result<Option<usize>, NoMemory> {
    let mut fresh = new_form(alloc)?;
    for (place, (call, answer)) in calls.iter().enumerate() {
        if fresh.turn(*call)? != *answer {
            return Ok(Some(place));
        }
    }
    Ok(None)
}

#[test]
fn the_lowest_empty_place_is_used(rt: HostRuntime) -> Result<(), Fail> {
    for calls in [LOWEST.as_slice(), ENDED.as_slice()] {
        assert_eq!(rt; first_other(rt.alloc(), calls)?, None);
    }
    Ok(())
}
