ghost use Rattle.std.specs.Prelude.{◌≡◌, ◌≢◌, ℕ, ◌+◌, ◌%◌, ◌<◌, ◌≤◌, ◌^◌, false, ◌∷◌, None, IfOk};
ghost use Rattle.std.specs.Prelude.{IfErr, cond, ◌==◌};
ghost use Rattle.std.specs.VecDeque.{deque_capacity};
ghost use Rattle.claim_board.specs.Counts.{occurrences};
ghost use Rattle.claim_board.specs.Plays.{empty_slots};
ghost use Rattle.claim_board.specs.Seats.{IsWorkerOf, place_count, worker_sees};
ghost use Rattle.claim_board.specs.Steps.{MayStep, IsSameSeat};
ghost use Rattle.claim_board.specs.Views.{DidOnce, DidAtLast, Holds};
ghost use Rattle.claim_board.specs.declared.view.Deed.TheVariants.{WasRead, WasClaimed};
ghost use Rattle.claim_board.specs.declared.view.Deed.TheVariants.{WasCompleted};

use crate::board::Board;
use crate::seats::{Seat, WorkerSeat};
use crate::slots::bring;
use std::collections::VecDeque;
use vc_slice::{RunDone, RunLoad};

/// A place that a worker holds, and the serial of its round.
#[derive(Clone, Copy)]
pub struct HeldPlace {
    pub place: u32,
    pub serial: u64,
    pub ghost small: { serial ≤ 2 ^ 61 },
}

/// What a claim brings: the place, and the run that waited there.
#[derive(Drop)]
pub struct ClaimedRun {
    pub held: HeldPlace,
    pub load: RunLoad,
}

/// The word that was read, which isn't waiting.
#[derive(Clone, Copy, Debug, PartialEq, Eq)]
pub struct NotWaiting {
    pub word: u64,
}

// What a claim brings.
struct Claimed {
    serial: u64,
    load: RunLoad,
}

impl Board {
    /// Claims the run of a place that waits: the one that was put with the serial.
    pub fn claim(&self, s: &mut WorkerSeat, place: u32) -> Result<ClaimedRun, NotWaiting>
        requires seat { IsWorkerOf self.now s.old }
        requires place { place < place_count self.now }
        ensures seat { IsWorkerOf self.now s.new }
        ensures claimed { IfOk result (λ c. (c.held.place ≡ place)
            × DidAtLast place (worker_sees s.old) (worker_sees s.new)
            (WasClaimed place c.held.serial c.load.job)) }
        ensures mine { IfOk result
            (λ c. Holds (worker_sees s.new) place c.held.serial c.load.job) }
        ensures refused { IfErr result (λ e. DidAtLast place (worker_sees s.old)
            (worker_sees s.new) (WasRead place e.word) × (e.word % 4 ≢ 1)) }
    {
        let WorkerSeat {
            seat,
            bell: _,
            order,
        } = s;
        let Claimed { serial, load } = match self.claim_at(seat, place as usize) {
            Ok(claimed) => claimed,
            Err(word) => return Err(NotWaiting { word }),
        };
        order.push_front_reserved(place as usize);
        let held = HeldPlace { place, serial };
        Ok(ClaimedRun { held, load })
    }

    // Each turn of the loop finds a word of a greater serial.
    fn claim_at(&self, seat: &mut Seat, place: usize) -> Result<Claimed, u64>
        requires table { MayStep self.now seat.old place }
        ensures id { IsSameSeat seat.old seat.new }
        ensures claimed { IfOk result (λ c. DidAtLast place seat.old.me.0 seat.new.me.0
            (WasClaimed place c.serial c.load.job)) }
        ensures slot { IfOk result (λ c. seat.new.me.1 ≡ (place, None) ∷ seat.old.me.1) }
        ensures small { IfOk result (λ c. c.serial ≤ 2 ^ 61) }
        ensures refused { IfErr result (λ word. DidAtLast place seat.old.me.0 seat.new.me.0
            (WasRead place word) × (word % 4 ≢ 1) × (seat.new.me.1 ≡ seat.old.me.1)) }
    {
        let mut word = self.look(seat, place);
        while word % 4 == 1 {
            let found = self.try_claim(seat, place, word);
            if found == word {
                let serial = word / 4;
                let load = self.open_job(seat, place, serial);
                return Ok(Claimed { serial, load });
            }
            if found % 4 != 1 {
                return Err(found);
            }
            word = found;
        }
        Err(word)
    }

    /// Gives a claimed place back, done.
    pub fn complete(&self, s: &mut WorkerSeat, held: HeldPlace, done: RunDone)
        requires seat { IsWorkerOf self.now s.old }
        requires place { held.place < place_count self.now }
        requires held { Holds (worker_sees s.old) held.place held.serial done.job }
        ensures seat { IsWorkerOf self.now s.new }
        ensures did { DidOnce (worker_sees s.old) (worker_sees s.new)
            (WasCompleted held.place held.serial done) }
    {
        let WorkerSeat {
            seat,
            bell: _,
            order,
        } = s;
        self.complete_at(seat, order, held.place as usize, held.serial, done);
    }

    fn complete_at(
        &self,
        seat: &mut Seat,
        order: &mut VecDeque<usize>,
        place: usize,
        serial: u64,
        done: RunDone,
    )
        requires table { MayStep self.now seat.old place }
        requires holds { Holds seat.old.me.0 place serial done.job × (serial ≤ 2 ^ 61) }
        requires slots { (seat.old.me.1 ≡ empty_slots order.old.items)
            × (0 < occurrences place order.old.items) }
        ensures id { IsSameSeat seat.old seat.new }
        ensures did { DidOnce seat.old.me.0 seat.new.me.0 (WasCompleted place serial done) }
        ensures slots { seat.new.me.1 ≡ empty_slots order.new.items }
        ensures order { (q : ℕ)
            → occurrences q order.old.items
            ≡ cond (place == q) 1 0 + occurrences q order.new.items }
        ensures room { deque_capacity order.new ≡ deque_capacity order.old }
    {
        bring(seat, order, place);
        self.give_done(seat, place, serial, done);
        let _place = order.pop_front();
    }
}
