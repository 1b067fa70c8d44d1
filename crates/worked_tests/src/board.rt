//! The words of a board's place, as its seats find them: four times the serial and the state, which is 0
//! empty, 1 waiting, 2 held, 3 done.

ghost use Rattle.std.specs.Prelude.{◌≡◌, All, IfOk, true, false};
ghost use Rattle.claim_board.specs.Calls.{AreEmpty, IsNewWorker};
ghost use Rattle.claim_board.specs.Seats.{IsBellSeatOf, IsFeederOf, IsWorkerOf, feeder_sees};
ghost use Rattle.claim_board.specs.Seats.{place_count};
ghost use Rattle.claim_board.specs.Views.{lane, lane_at};

use crate::jobs::{empty_slice, load_of};
use claim_board::{
    BellSeat, Board, ClaimedRun, FeederSeat, NotWaiting, NotYet, WorkerSeat, bell, rest, wake,
};
use std::alloc::Global;
use std::sync::Wait;
use std::test::Fail;
use vc_slice::{RunLoad, decode_run};
use vc_types::NoMemory;

// What is done at the only place.
#[derive(Clone, Copy)]
enum Call {
    Take,
    Withdraw,
    /// The first worker claims it, and keeps it.
    Claim,
    /// The second one tries to.
    ClaimToo,
    /// The first worker claims it, decodes the slice and completes the place.
    Work,
}

#[derive(Clone, Copy, PartialEq, Eq)]
enum Answer {
    /// The picture's number in the job that is given, or was decoded.
    Job(u64),
    /// The serial and the number of what is held.
    Held(u64, u64),
    Completed,
    /// This word stands there.
    Word(u64),
}

// A board with one place, and its seats.
#[derive(Drop)]
struct Fresh {
    board: Board,
    feeder: FeederSeat,
    first: WorkerSeat,
    second: WorkerSeat,
    bells: BellSeat,
    ghost one: { place_count board ≡ 1 },
    ghost of_feeder: { IsFeederOf board feeder },
    ghost of_first: { IsWorkerOf board first },
    ghost of_second: { IsWorkerOf board second },
    ghost of_bells: { IsBellSeatOf board bells },
}

// The last of a board's workers.
fn last_of(board: &Board, workers: &mut Vec<WorkerSeat>) -> Result<WorkerSeat, NoMemory>
    requires { All (IsNewWorker board.now) workers.old.items }
    ensures rest { All (IsNewWorker board.now) workers.new.items }
    ensures seat { IfOk result (IsWorkerOf board.now) }
{
    match workers.pop() {
        Some(worker) => Ok(worker),
        None => Err(NoMemory),
    }
}

fn new_board(alloc: Global) -> Result<Fresh, NoMemory>
    ensures empty { IfOk result (λ made. AreEmpty 1 (feeder_sees made.feeder)) }
{
    let (board, feeder, workers, bells) = Board::new(alloc, 1, 2)?;
    let mut workers = workers;
    let second = last_of(&board, &mut workers)?;
    let first = last_of(&board, &mut workers)?;
    Ok(Fresh {
        board,
        feeder,
        first,
        second,
        bells,
    })
}

fn claim(board: &Board, worker: &mut WorkerSeat) -> Answer
    requires one { place_count board.now ≡ 1 }
    requires seat { IsWorkerOf board.now worker.old }
    ensures seat { IsWorkerOf board.now worker.new }
{
    match board.claim(worker, 0) {
        Ok(claimed) => Answer::Held(claimed.held.serial, claimed.load.job.number),
        Err(NotWaiting { word }) => Answer::Word(word),
    }
}

fn work(alloc: Global, board: &Board, worker: &mut WorkerSeat) -> Result<Answer, NoMemory>
    requires one { place_count board.now ≡ 1 }
    requires seat { IsWorkerOf board.now worker.old }
    ensures seat { IsWorkerOf board.now worker.new }
{
    match board.claim(worker, 0) {
        Ok(claimed) => {
            let ClaimedRun {
                held,
                load: RunLoad { job, room },
            } = claimed;
            let done = decode_run(alloc, job, room)?;
            board.complete(worker, held, done);
            Ok(Answer::Completed)
        }
        Err(NotWaiting { word }) => Ok(Answer::Word(word)),
    }
}

impl Fresh {
    // Puts a job, and rings the bell. Whether the bell rose by 1 for each.
    fn put<H: Wait + Copy + Drop>(&mut self, rt: H, load: RunLoad) -> bool
        requires { AreEmpty 1 (feeder_sees self.old.feeder) }
    {
        let rung = bell(&self.board, &mut self.first);
        self.board.put(&mut self.feeder, 0, load);
        wake(&self.board, &mut self.bells);
        rest(rt, &self.board, &mut self.first, rung);
        bell(&self.board, &mut self.first) == rung.wrapping_add(2)
    }

    // Whether the place goes round with a job.
    fn goes_round(&mut self, alloc: Global) -> Result<bool, NoMemory>
        requires { AreEmpty 1 (feeder_sees self.old.feeder) }
        ensures { IfOk result (λ done. done ≡ true
            → lane_at (feeder_sees self.new.feeder) 0 ≡ lane 1 true false) }
    {
        self.board
            .put(&mut self.feeder, 0, load_of(alloc, empty_slice(7)?)?);
        let worked = work(alloc, &self.board, &mut self.first)?;
        let Ok(done) = self.board.take(&mut self.feeder, 0) else {
            return Ok(false);
        };
        Ok(worked == Answer::Completed && done.job.number == 7)
    }

    // Puts a job in the second round.
    fn put_again(&mut self, load: RunLoad)
        requires { lane_at (feeder_sees self.old.feeder) 0 ≡ lane 1 true false }
    {
        self.board.put(&mut self.feeder, 0, load);
    }

    // Whether it goes round, and another job is withdrawn in the next round.
    fn goes_on(&mut self, alloc: Global) -> Result<bool, NoMemory>
        requires { AreEmpty 1 (feeder_sees self.old.feeder) }
    {
        if !self.goes_round(alloc)? {
            return Ok(false);
        }
        self.put_again(load_of(alloc, empty_slice(9)?)?);
        let waits = self.turn(alloc, Call::Take)?;
        let back = self.turn(alloc, Call::Withdraw)?;
        let empty = self.turn(alloc, Call::ClaimToo)?;
        Ok([waits, back, empty] == [Answer::Word(9), Answer::Job(9), Answer::Word(8)])
    }

    fn turn(&mut self, alloc: Global, call: Call) -> Result<Answer, NoMemory> {
        match call {
            Call::Take => Ok(match self.board.take(&mut self.feeder, 0) {
                Ok(done) => Answer::Job(done.job.number),
                Err(NotYet { word }) => Answer::Word(word),
            }),
            Call::Withdraw => Ok(match self.board.withdraw(&mut self.feeder, 0) {
                Ok(load) => Answer::Job(load.job.number),
                Err(NotWaiting { word }) => Answer::Word(word),
            }),
            Call::Claim => Ok(claim(&self.board, &mut self.first)),
            Call::ClaimToo => Ok(claim(&self.board, &mut self.second)),
            Call::Work => work(alloc, &self.board, &mut self.first),
        }
    }
}

const HELD: [(Call, Answer); 6] = [
    (Call::Take, Answer::Word(5)),
    (Call::Claim, Answer::Held(1, 7)),
    (Call::ClaimToo, Answer::Word(6)),
    (Call::Work, Answer::Word(6)),
    (Call::Take, Answer::Word(6)),
    (Call::Withdraw, Answer::Word(6)),
];

const COMPLETED: [(Call, Answer); 6] = [
    (Call::Work, Answer::Completed),
    (Call::ClaimToo, Answer::Word(7)),
    (Call::Withdraw, Answer::Word(7)),
    (Call::Take, Answer::Job(7)),
    (Call::Take, Answer::Word(4)),
    (Call::ClaimToo, Answer::Word(4)),
];

const WITHDRAWN: [(Call, Answer); 4] = [
    (Call::Withdraw, Answer::Job(7)),
    (Call::Claim, Answer::Word(4)),
    (Call::Take, Answer::Word(4)),
    (Call::Withdraw, Answer::Word(4)),
];

const NOTHING_PUT: [(Call, Answer); 2] = [
    (Call::ClaimToo, Answer::Word(0)),
    (Call::Take, Answer::Word(0)),
];

// Whether the only place answers these calls so.
fn answers(alloc: Global, fresh: &mut Fresh, calls: &[(Call, Answer)]) -> Result<bool, NoMemory> {
    for (call, answer) in calls {
        if fresh.turn(alloc, *call)? != *answer {
            return Ok(false);
        }
    }
    Ok(true)
}

// Whether the only place of a new board answers so, once a job was put there.
fn answers_on_job<H: Wait + Copy + Drop>(
    rt: H,
    alloc: Global,
    calls: &[(Call, Answer)],
) -> Result<bool, NoMemory> {
    let mut fresh = new_board(alloc)?;
    Ok(fresh.put(rt, load_of(alloc, empty_slice(7)?)?) && answers(alloc, &mut fresh, calls)?)
}

fn new_board_answers(alloc: Global, calls: &[(Call, Answer)]) -> Result<bool, NoMemory> {
    let mut fresh = new_board(alloc)?;
    answers(alloc, &mut fresh, calls)
}

fn new_board_goes_on(alloc: Global) -> Result<bool, NoMemory> {
    let mut fresh = new_board(alloc)?;
    fresh.goes_on(alloc)
}

#[test]
fn a_place_goes_round(rt: HostRuntime) -> Result<(), Fail> {
    let alloc = rt.alloc();
    for calls in [HELD.as_slice(), COMPLETED.as_slice(), WITHDRAWN.as_slice()] {
        assert!(rt; answers_on_job(rt, alloc, calls)?);
    }
    assert!(rt; new_board_answers(alloc, &NOTHING_PUT)?);
    assert!(rt; new_board_goes_on(alloc)?);
    Ok(())
}
