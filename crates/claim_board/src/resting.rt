ghost use Rattle.std.specs.Prelude.{◌≡◌};
ghost use Rattle.claim_board.specs.Seats.{IsBellSeatOf, IsWorkerOf};

use crate::board::Board;
use crate::seats::{BellSeat, WorkerSeat};
use std::sync::Wait;

/// The number of the bell, which each ring raises by 1, wrapping.
pub fn bell(board: &Board, s: &mut WorkerSeat) -> u64
    requires seat { IsWorkerOf board.now s.old }
    ensures seat { s.new ≡ s.old }
{
    let _seat = s;
    board.bell.number()
}

/// Rests while the bell has the number `seen`. A ring ends the rest of one worker.
pub fn rest<H: Wait + Drop>(rt: H, board: &Board, s: &mut WorkerSeat, seen: u64)
    requires seat { IsWorkerOf board.now s.old }
    ensures seat { s.new ≡ s.old }
{
    let _seat = s;
    board.bell.rest(&rt, seen);
}

/// Raises the bell and wakes a worker that rests, if there is one.
pub fn wake(board: &Board, b: &mut BellSeat)
    requires seat { IsBellSeatOf board.now b.old }
    ensures seat { IsBellSeatOf board.now b.new }
{
    board.bell.ring(&mut b.bell);
}
