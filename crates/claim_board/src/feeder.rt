ghost use Rattle.std.specs.Prelude.{◌≡◌, ◌<◌, ◌≤◌, ◌^◌, ℕ, IfOk, IfSome, IfNone, OnSome, false};
ghost use Rattle.std.specs.Prelude.{true, vec_len};
ghost use Rattle.std.specs.Arc.{arc_value};
ghost use Rattle.claim_board.specs.Seats.{IsFeederOf, feeder_sees, place_count};
ghost use Rattle.claim_board.specs.Views.{may_take_a_job};

use crate::board::Board;
use crate::marks::Marks;
use crate::seats::FeederSeat;
use std::sync::Arc;

/// The feeder's form of a board: places for slices, as many as the board has.
#[derive(Drop)]
pub struct BoardFeeder {
    pub(crate) board: Arc<Board>,
    pub(crate) seat: FeederSeat,
    // The places that were left: their answers are taken and dropped once they are there.
    pub(crate) left: Marks,
    // No place before it is free.
    pub(crate) free_from: u32,
    ghost same: { IsFeederOf (arc_value board) seat },
    ghost marks: { vec_len left.marks ≡ place_count (arc_value board) },
    ghost taken: { (place : ℕ) → place < free_from
        → may_take_a_job (feeder_sees seat) place ≡ false },
}
