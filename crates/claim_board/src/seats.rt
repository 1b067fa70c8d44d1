ghost use Rattle.std.specs.Prelude.{◌≡◌, ℕ, ◌<◌, ◌≤◌, ◌^◌, true, vec_len};
ghost use Rattle.std.specs.VecDeque.{deque_capacity};
ghost use Rattle.claim_board.specs.Counts.{held_count, idle_count, occurrences};
ghost use Rattle.claim_board.specs.Plays.{empty_slots};
ghost use Rattle.claim_board.specs.Views.{content_at, lane_at};

use crate::cargo::Cargo;
use crate::view::{Lane, View};
use std::collections::VecDeque;

pub(crate) type Seat = atomic_table::Seat<Option<Cargo>, View>;

pub(crate) type BellPass = atomic_table::Seat<u8, ()>;

/// What the feeder steps with. It knows each place's serial, and whether the place is out; the slot
/// of each place that is not out is with it.
#[derive(Drop)]
pub struct FeederSeat {
    pub(crate) seat: Seat,
    pub(crate) bell: BellPass,
    // The lanes of the view, while the program runs.
    pub(crate) lanes: Vec<Lane>,
    // The places whose slots are with the seat, in the seat's order.
    pub(crate) order: VecDeque<usize>,
    ghost feeds: { seat.me.0.number ≡ 0 },
    ghost mirrors: { seat.me.0.lanes ≡ lanes.items },
    ghost wide: { vec_len lanes ≡ seat.table_id.words },
    ghost slots: { seat.me.1 ≡ empty_slots order.items },
    ghost idle: { (place : ℕ)
        → occurrences place order.items ≡ idle_count (lane_at seat.me.0 place) },
    ghost room: { vec_len lanes ≤ deque_capacity order },
    ghost fetched: { (place : ℕ) → place < vec_len lanes
        → (lane_at seat.me.0 place).is_fetched ≡ true },
    ghost small: { (place : ℕ) → (lane_at seat.me.0 place).serial ≤ 2 ^ 61 },
}

/// What a worker steps with. The slot of each place that it holds is with it.
#[derive(Drop)]
pub struct WorkerSeat {
    pub(crate) seat: Seat,
    pub(crate) bell: BellPass,
    // The places that it holds, in the seat's order.
    pub(crate) order: VecDeque<usize>,
    ghost slots: { seat.me.1 ≡ empty_slots order.items },
    ghost holds: { (place : ℕ) → occurrences place order.items
        ≡ held_count seat.me.0.number (content_at seat.me.0 place) },
    ghost below: { (place : ℕ) → seat.table_id.words ≤ place → occurrences place order.items ≡ 0 },
    ghost room: { seat.table_id.words ≤ deque_capacity order },
}

/// A seat at the bell alone.
#[derive(Drop)]
pub struct BellSeat {
    pub(crate) bell: BellPass,
}
