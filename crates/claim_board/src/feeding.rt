ghost use Rattle.std.specs.Prelude.{◌≡◌, ◌≢◌, ℕ, ◌+◌, ◌-◌, ◌%◌, ◌<◌, ◌≤◌, ◌^◌, ◌∷◌, ◌⊎◌, true, false};
ghost use Rattle.std.specs.Prelude.{OnOk, OnErr, IfOk, IfErr, cond, ◌==◌, slice_set, vec_len};
ghost use Rattle.std.specs.VecDeque.{deque_len, deque_capacity};
ghost use Rattle.claim_board.specs.Views.{lane};
ghost use Rattle.claim_board.specs.Counts.{occurrences};
ghost use Rattle.claim_board.specs.Plays.{deed_back, empty_slots, lying_state, stamp_of};
ghost use Rattle.claim_board.specs.Seats.{IsFeederOf, feeder_sees, place_count};
ghost use Rattle.claim_board.specs.Views.{DidOnce, lane_at};
ghost use Rattle.claim_board.specs.Steps.{MayStep, IsSameSeat};
ghost use Rattle.claim_board.specs.declared.view.Deed.TheVariants.{WasRead, WasPut, WasTaken};
ghost use Rattle.claim_board.specs.declared.view.Deed.TheVariants.{WasWithdrawn};

use crate::board::Board;
use crate::cargo::{Cargo, DONE, WAITING};
use crate::seats::{FeederSeat, Seat};
use crate::slots::bring;
use crate::view::Lane;
use crate::working::NotWaiting;
use std::collections::VecDeque;
use vc_slice::{RunDone, RunLoad};

/// The word that was read, which isn't done.
#[derive(Clone, Copy, Debug, PartialEq, Eq)]
pub struct NotYet {
    pub word: u64,
}

impl Board {
    /// Hands a run to an empty place, and raises its serial by 1. The bell rings for each job while
    /// up to 16 places are out, and then for one in 16.
    pub fn put(&self, f: &mut FeederSeat, place: u32, load: RunLoad)
        requires seat { IsFeederOf self.now f.old }
        requires place { place < place_count self.now }
        requires empty { (lane_at (feeder_sees f.old) place).is_out ≡ false }
        requires serial { (lane_at (feeder_sees f.old) place).serial < 2 ^ 61 }
        ensures seat { IsFeederOf self.now f.new }
        ensures did { DidOnce (feeder_sees f.old) (feeder_sees f.new) (WasPut place load.job) }
        ensures out { lane_at (feeder_sees f.new) place
            ≡ lane ((lane_at (feeder_sees f.old) place).serial + 1) true true }
    {
        let FeederSeat {
            seat,
            bell,
            lanes,
            order,
        } = f;
        let place = place as usize;
        let serial = lanes[place].serial + 1;
        self.put_at(seat, order, place, serial, load);
        lanes[place] = Lane {
            serial,
            is_fetched: true,
            is_out: true,
        };
        let out = lanes.len().saturating_sub(order.len());
        self.bell.ring_for(bell, out);
    }

    fn put_at(
        &self,
        seat: &mut Seat,
        order: &mut VecDeque<usize>,
        place: usize,
        serial: u64,
        load: RunLoad,
    )
        requires table { MayStep self.now seat.old place }
        requires feeder { seat.old.me.0.number ≡ 0 }
        requires idle { (lane_at seat.old.me.0 place ≡ lane (serial - 1) true false)
            × (0 < serial) × (serial ≤ 2 ^ 61) }
        requires slots { (seat.old.me.1 ≡ empty_slots order.old.items)
            × (0 < occurrences place order.old.items) }
        ensures id { IsSameSeat seat.old seat.new }
        ensures did { DidOnce seat.old.me.0 seat.new.me.0 (WasPut place load.job) }
        ensures slots { seat.new.me.1 ≡ empty_slots order.new.items }
        ensures order { (q : ℕ)
            → occurrences q order.old.items
            ≡ cond (place == q) 1 0 + occurrences q order.new.items }
        ensures room { deque_capacity order.new ≡ deque_capacity order.old }
    {
        bring(seat, order, place);
        self.give_job(seat, place, serial, load);
        let _place = order.pop_front();
    }

    /// Takes the answer of a place that is done, which is empty then. The answer was stamped with
    /// the serial that the seat knows of the place.
    pub fn take(&self, f: &mut FeederSeat, place: u32) -> Result<RunDone, NotYet>
        requires seat { IsFeederOf self.now f.old }
        requires place { place < place_count self.now }
        ensures seat { IsFeederOf self.now f.new }
        ensures took { IfOk result (λ done. DidOnce (feeder_sees f.old) (feeder_sees f.new)
            (WasTaken place (lane_at (feeder_sees f.old) place).serial done)) }
        ensures empty { OnOk result (lane_at (feeder_sees f.new) place
            ≡ lane (lane_at (feeder_sees f.old) place).serial true false) }
        ensures was_out { OnOk result ((lane_at (feeder_sees f.old) place).is_out ≡ true) }
        ensures not_yet { IfErr result (λ e. DidOnce (feeder_sees f.old) (feeder_sees f.new)
            (WasRead place e.word) × (e.word % 4 ≢ 3)) }
    {
        match self.take_back(f, place, DONE) {
            Ok(Cargo::Finished(_, done)) => Ok(done),
            Ok(Cargo::Waiting(_, _)) => unreachable!(),
            Err(word) => Err(NotYet { word }),
        }
    }

    /// Takes the job back of a place that waits, which is empty then. The job was stamped with the
    /// serial that the seat knows of the place.
    pub fn withdraw(&self, f: &mut FeederSeat, place: u32) -> Result<RunLoad, NotWaiting>
        requires seat { IsFeederOf self.now f.old }
        requires place { place < place_count self.now }
        ensures seat { IsFeederOf self.now f.new }
        ensures took { IfOk result (λ load. DidOnce (feeder_sees f.old) (feeder_sees f.new)
            (WasWithdrawn place (lane_at (feeder_sees f.old) place).serial load.job)) }
        ensures empty { OnOk result (lane_at (feeder_sees f.new) place
            ≡ lane (lane_at (feeder_sees f.old) place).serial true false) }
        ensures was_out { OnOk result ((lane_at (feeder_sees f.old) place).is_out ≡ true) }
        ensures not_waiting { IfErr result (λ e. DidOnce (feeder_sees f.old) (feeder_sees f.new)
            (WasRead place e.word) × (e.word % 4 ≢ 1)) }
    {
        match self.take_back(f, place, WAITING) {
            Ok(Cargo::Waiting(_, load)) => Ok(load),
            Ok(Cargo::Finished(_, _)) => unreachable!(),
            Err(word) => Err(NotWaiting { word }),
        }
    }

    // Takes back what lies at a place in this state, which is empty then, or tells its word.
    fn take_back(&self, f: &mut FeederSeat, place: u32, state: u64) -> Result<Cargo, u64>
        requires seat { IsFeederOf self.now f.old }
        requires place { place < place_count self.now }
        requires lies { (state ≡ 1) ⊎ (state ≡ 3) }
        ensures seat { IsFeederOf self.now f.new }
        ensures lay { IfOk result (λ cargo. lying_state cargo ≡ state) }
        ensures stamped { IfOk result (λ cargo. stamp_of cargo
            ≡ (lane_at (feeder_sees f.old) place).serial) }
        ensures took { IfOk result (λ cargo. DidOnce (feeder_sees f.old) (feeder_sees f.new)
            (deed_back place (lane_at (feeder_sees f.old) place).serial cargo)) }
        ensures empty { OnOk result (lane_at (feeder_sees f.new) place
            ≡ lane (lane_at (feeder_sees f.old) place).serial true false) }
        ensures was_out { OnOk result ((lane_at (feeder_sees f.old) place).is_out ≡ true) }
        ensures refused { IfErr result (λ word. DidOnce (feeder_sees f.old) (feeder_sees f.new)
            (WasRead place word) × (word % 4 ≢ state)) }
    {
        let FeederSeat {
            seat,
            bell: _,
            lanes,
            order,
        } = f;
        let place = place as usize;
        let serial = lanes[place].serial;
        let word = self.try_take_back(seat, place, serial, state);
        if word != 4 * serial + state {
            return Err(word);
        }
        let cargo = self.open(seat, place);
        returned(lanes, order, place, serial);
        Ok(cargo)
    }
}

// The place is empty again, and its slot is with the feeder.
fn returned(lanes: &mut Vec<Lane>, order: &mut VecDeque<usize>, place: usize, serial: u64)
    requires place { place < vec_len lanes.old }
    requires room { deque_len order.old < deque_capacity order.old }
    ensures lanes { lanes.new.items ≡ slice_set lanes.old.items place (lane serial true false) }
    ensures wide { vec_len lanes.new ≡ vec_len lanes.old }
    ensures order { order.new.items ≡ place ∷ order.old.items }
    ensures room { deque_capacity order.new ≡ deque_capacity order.old }
{
    lanes[place] = Lane {
        serial,
        is_fetched: true,
        is_out: false,
    };
    order.push_front_reserved(place);
}
