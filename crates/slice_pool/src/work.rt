ghost use Rattle.std.specs.Prelude.{◌≡◌, ◌<◌, ◌≤◌, IfSome, OnOk};
ghost use Rattle.claim_board.specs.Seats.{IsWorkerOf, place_count, worker_sees};
ghost use Rattle.claim_board.specs.Views.{DidOnce};
ghost use Rattle.claim_board.specs.declared.view.Deed.TheVariants.{WasCompleted};
ghost use Rattle.vc_slice.specs.declared.run.RunDone.{RunDone};
ghost use Rattle.slice_pool.specs.Holding.{IsHeldBy};

use crate::worker::Worker;
use claim_board::{Board, ClaimedRun, WorkerSeat, bell, rest};
use std::alloc::Global;
use std::sync::Wait;
use std::sync::atomic::Ordering;
use vc_ports::Gate;
use vc_slice::{RunLoad, decode_run};
use vc_types::NoMemory;

/// Decodes what waits on the board, until the workers are to end. Where there is no memory for a
/// run its place stays held, and the worker ends.
pub(crate) fn work<H: Wait + Copy, G: Gate>(rt: H, gate: &G, worker: Worker) {
    let Worker {
        alloc,
        number,
        mut seat,
        board,
        is_over,
    } = worker;
    let mut first = number;
    for _ in rt.forever() {
        // The bell is read first, so that a ring from here on ends the rest.
        let seen = bell(&board, &mut seat);
        if is_over.load(Ordering::SeqCst) {
            return;
        }
        let Some(claimed) = claim_next(&board, &mut seat, first) else {
            rest(rt, &board, &mut seat, seen);
            continue;
        };
        // The feeder puts into one place behind another.
        first = claimed.held.place;
        gate.pass(number, claimed.load.job.first);
        if answer(alloc, &board, &mut seat, claimed).is_err() {
            return;
        }
    }
}

/// Claims a place that waits: the next one from `first` on, and around.
pub(crate) fn claim_next(board: &Board, seat: &mut WorkerSeat, first: u32) -> Option<ClaimedRun>
    requires some_place { 0 < place_count board.now }
    requires seat { IsWorkerOf board.now seat.old }
    ensures seat { IsWorkerOf board.now seat.new }
    ensures held { IfSome result (IsHeldBy board.now seat.new) }
{
    let places = board.places();
    let own = first % places;
    match claim_between(board, seat, own, places) {
        Some(claimed) => Some(claimed),
        None => claim_between(board, seat, 0, own),
    }
}

// Claims the first place that waits, of those from one on and before another.
fn claim_between(board: &Board, seat: &mut WorkerSeat, from: u32, to: u32) -> Option<ClaimedRun>
    requires places { to ≤ place_count board.now }
    requires seat { IsWorkerOf board.now seat.old }
    ensures seat { IsWorkerOf board.now seat.new }
    ensures held { IfSome result (IsHeldBy board.now seat.new) }
{
    for place in from..to {
        if let Ok(claimed) = board.claim(seat, place) {
            return Some(claimed);
        }
    }
    None
}

// Decodes the run, and completes the place.
fn answer(
    alloc: Global,
    board: &Board,
    seat: &mut WorkerSeat,
    claimed: ClaimedRun,
) -> Result<(), NoMemory>
    requires seat { IsWorkerOf board.now seat.old }
    requires held { IsHeldBy board.now seat.old claimed }
    ensures seat { IsWorkerOf board.now seat.new }
    ensures completed { OnOk result ((done : RunDone) × (done.job ≡ claimed.load.job)
        × DidOnce (worker_sees seat.old) (worker_sees seat.new)
        (WasCompleted claimed.held.place claimed.held.serial done)) }
{
    let ClaimedRun {
        held,
        load: RunLoad { job, room },
    } = claimed;
    let done = decode_run(alloc, job, room)?;
    board.complete(seat, held, done);
    Ok(())
}
