ghost use Rattle.std.specs.Prelude.{◌≡◌, ℕ, ◌<◌, ◌∷◌, slice_index, List};
ghost use Rattle.std.specs.VecDeque.{deque_len, deque_capacity};
ghost use Rattle.claim_board.specs.Plays.{empty_slots};
ghost use Rattle.claim_board.specs.Counts.{occurrences};
ghost use Rattle.claim_board.specs.Steps.{IsSameSeat};

use crate::seats::Seat;
use std::collections::VecDeque;

// Where a place stands among the slots that are out with a seat.
fn index_of(order: &VecDeque<usize>, place: usize) -> usize
    requires { 0 < occurrences place order.now.items }
    ensures { (result < deque_len order.now) × (slice_index order.now.items result ≡ place) }
{
    for i in 0..order.len() {
        if order[i] == place {
            return i;
        }
    }
    unreachable!()
}

/// Brings the slot of a place to the front, where the next exchange finds it.
pub(crate) fn bring(seat: &mut Seat, order: &mut VecDeque<usize>, place: usize)
    requires slots { seat.old.me.1 ≡ empty_slots order.old.items }
    requires place { 0 < occurrences place order.old.items }
    ensures id { IsSameSeat seat.old seat.new }
    ensures view { seat.new.me.0 ≡ seat.old.me.0 }
    ensures slots { seat.new.me.1 ≡ empty_slots order.new.items }
    ensures front { (rest : List ℕ) × (order.new.items ≡ place ∷ rest) }
    ensures same { (q : ℕ) → occurrences q order.new.items ≡ occurrences q order.old.items }
    ensures room { (deque_len order.new ≡ deque_len order.old)
        × (deque_capacity order.new ≡ deque_capacity order.old) }
{
    let at = index_of(order, place);
    for _turn in 0..at {
        seat.turn();
    }
    order.rotate_left(at);
}
