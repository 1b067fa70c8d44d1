ghost use Rattle.std.specs.Prelude.{◌<◌};
ghost use Rattle.std.specs.Arc.{arc_value};
ghost use Rattle.claim_board.specs.Seats.{IsBellSeatOf, place_count};

use claim_board::{BellSeat, Board, BoardFeeder};
use std::sync::Arc;
use std::sync::atomic::AtomicBool;
use std::thread::JoinHandle;

/// The workers that run, and the feeder's form of their board.
pub(crate) struct Team {
    pub(crate) form: BoardFeeder,
    pub(crate) post: Post,
    pub(crate) handles: Vec<JoinHandle<()>>,
}

/// What the workers are called by.
#[derive(Drop)]
pub(crate) struct Post {
    pub(crate) board: Arc<Board>,
    pub(crate) bells: BellSeat,
    pub(crate) is_over: Arc<AtomicBool>,
    ghost some_place: { 0 < place_count (arc_value board) },
    ghost of_board: { IsBellSeatOf (arc_value board) bells },
}

/// How far a crew is.
pub(crate) enum Stage {
    /// No workers were started.
    Free,
    /// None were asked for.
    Alone,
    Working(Team),
}
