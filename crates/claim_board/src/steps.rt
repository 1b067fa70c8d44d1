ghost use Rattle.std.specs.Prelude.{◌≡◌, ◌≢◌, ◌+◌, ◌-◌, ◌*◌, ◌%◌, ◌/◌, ◌<◌, ◌≤◌, ◌^◌, true};
ghost use Rattle.std.specs.Prelude.{false, [], ◌∷◌, ◌⊎◌, Some, None};
ghost use Rattle.atomic_table.specs.Table.{rest};
ghost use Rattle.claim_board.specs.Views.{lane};
ghost use Rattle.vc_slice.specs.declared.run.RunLoad.{RunLoad};
ghost use Rattle.claim_board.specs.Plays.{StepsLeaving, HasClaimed, HasTakenBack};
ghost use Rattle.claim_board.specs.declared.cargo.Cargo.{Cargo};
ghost use Rattle.claim_board.specs.declared.cargo.Cargo.TheVariants.{Waiting, Finished};
ghost use Rattle.claim_board.specs.declared.view.Deed.TheVariants.{WasRead, WasFetched, WasPut};
ghost use Rattle.claim_board.specs.declared.view.Deed.TheVariants.{WasCompleted};
ghost use Rattle.claim_board.specs.Steps.{MayStep, IsSameSeat};
ghost use Rattle.claim_board.specs.Views.{Holds, lane_at, with_seat, worker_view};

use crate::board::Board;
use crate::cargo::Cargo;
use crate::plays::{Claim, Complete, Fetch, Hire, Load, Put, TakeBack};
use crate::seats::Seat;
use vc_slice::{RunDone, RunLoad};

// One step each, and one exchange of a slot each.
impl Board {
    pub(crate) fn look(&self, seat: &mut Seat, place: usize) -> u64
        requires { MayStep self.now seat.old place }
        ensures id { IsSameSeat seat.old seat.new }
        ensures view { StepsLeaving seat.old.me seat.new.me (WasRead place result) seat.old.me.1 }
    {
        self.table.shared.load::<Load>(seat, place)
    }

    pub(crate) fn try_claim(&self, seat: &mut Seat, place: usize, word: u64) -> u64
        requires table { MayStep self.now seat.old place }
        requires waiting { word % 4 ≡ 1 }
        ensures id { IsSameSeat seat.old seat.new }
        ensures won { result ≡ word → HasClaimed place (word / 4) seat.old.me seat.new.me }
        ensures lost { result ≢ word
            → StepsLeaving seat.old.me seat.new.me (WasRead place result) seat.old.me.1 }
    {
        self.table
            .shared
            .compare_exchange::<Claim>(seat, place, word, word + 1)
    }

    // Takes back what lies at a place in this state. The word that was found is this one then.
    pub(crate) fn try_take_back(
        &self,
        seat: &mut Seat,
        place: usize,
        serial: u64,
        state: u64,
    ) -> u64
        requires table { MayStep self.now seat.old place }
        requires feeder { (seat.old.me.0.number ≡ 0)
            × ((lane_at seat.old.me.0 place).serial ≡ serial) × (serial ≤ 2 ^ 61) }
        requires lies { (state ≡ 1) ⊎ (state ≡ 3) }
        ensures id { IsSameSeat seat.old seat.new }
        ensures won { result ≡ 4 * serial + state
            → HasTakenBack place serial state seat.old.me seat.new.me }
        ensures lost { result ≢ 4 * serial + state
            → StepsLeaving seat.old.me seat.new.me (WasRead place result) seat.old.me.1
            × (result % 4 ≢ state) }
    {
        self.table
            .shared
            .compare_exchange::<TakeBack>(seat, place, 4 * serial + state, 4 * serial)
    }

    // The slot taken last has a job.
    pub(crate) fn open_job(&self, seat: &mut Seat, place: usize, serial: u64) -> RunLoad
        requires table { seat.old.table_id ≡ self.now.table.shared.table_id }
        requires slot { (load : RunLoad)
            × (seat.old.me.1 ≡ (place, Some (Waiting serial load)) ∷ rest seat.old.me.1) }
        ensures id { IsSameSeat seat.old seat.new }
        ensures stamped { seat.old.me.1
            ≡ (place, Some (Waiting serial result)) ∷ rest seat.old.me.1 }
        ensures slot { seat.new.me ≡ (seat.old.me.0, (place, None) ∷ rest seat.old.me.1) }
    {
        match self.table.shared.exchange(seat, place, None) {
            Some(Cargo::Waiting(_, load)) => load,
            _ => unreachable!(),
        }
    }

    // What the slot taken last has.
    pub(crate) fn open(&self, seat: &mut Seat, place: usize) -> Cargo
        requires table { seat.old.table_id ≡ self.now.table.shared.table_id }
        requires slot { (cargo : Cargo)
            × (seat.old.me.1 ≡ (place, Some cargo) ∷ rest seat.old.me.1) }
        ensures id { IsSameSeat seat.old seat.new }
        ensures cargo { seat.old.me.1 ≡ (place, Some result) ∷ rest seat.old.me.1 }
        ensures slot { seat.new.me ≡ (seat.old.me.0, (place, None) ∷ rest seat.old.me.1) }
    {
        match self.table.shared.exchange(seat, place, None) {
            Some(cargo) => cargo,
            None => unreachable!(),
        }
    }

    // Puts a job into the slot in front, and gives the slot back.
    pub(crate) fn give_job(&self, seat: &mut Seat, place: usize, serial: u64, load: RunLoad)
        requires table { MayStep self.now seat.old place }
        requires feeder { seat.old.me.0.number ≡ 0 }
        requires idle { (lane_at seat.old.me.0 place ≡ lane (serial - 1) true false)
            × (0 < serial) × (serial ≤ 2 ^ 61) }
        requires slot { seat.old.me.1 ≡ (place, None) ∷ rest seat.old.me.1 }
        ensures id { IsSameSeat seat.old seat.new }
        ensures view { StepsLeaving seat.old.me seat.new.me (WasPut place load.job) (rest seat.old.me.1) }
    {
        let _none = self
            .table
            .shared
            .exchange(seat, place, Some(Cargo::Waiting(serial, load)));
        self.table.shared.store::<Put>(seat, place, 4 * serial + 1);
    }

    // Puts an answer into the slot in front, and gives the slot back.
    pub(crate) fn give_done(&self, seat: &mut Seat, place: usize, serial: u64, done: RunDone)
        requires table { MayStep self.now seat.old place }
        requires holds { Holds seat.old.me.0 place serial done.job × (serial ≤ 2 ^ 61) }
        requires slot { seat.old.me.1 ≡ (place, None) ∷ rest seat.old.me.1 }
        ensures id { IsSameSeat seat.old seat.new }
        ensures view { StepsLeaving seat.old.me seat.new.me (WasCompleted place serial done)
            (rest seat.old.me.1) }
    {
        let _none = self
            .table
            .shared
            .exchange(seat, place, Some(Cargo::Finished(serial, done)));
        self.table
            .shared
            .store::<Complete>(seat, place, 4 * serial + 3);
    }

    pub(crate) fn fetch(&self, seat: &mut Seat, place: usize)
        requires table { MayStep self.now seat.old place }
        requires feeder { (seat.old.me.0.number ≡ 0)
            × (lane_at seat.old.me.0 place ≡ lane 0 false false) }
        ensures id { IsSameSeat seat.old seat.new }
        ensures view { StepsLeaving seat.old.me seat.new.me (WasFetched place)
            ((place, None) ∷ seat.old.me.1) }
    {
        self.table.shared.load::<Fetch>(seat, place);
    }

    pub(crate) fn hire(&self, seat: &mut Seat) -> Seat
        requires table { seat.old.table_id ≡ self.now.table.shared.table_id }
        requires some_place { 0 < self.now.table.shared.table_id.words }
        requires feeder { seat.old.me.0.number ≡ 0 }
        ensures feeder { IsSameSeat seat.old seat.new }
        ensures view { seat.new.me ≡ (with_seat seat.old.me.0, seat.old.me.1) }
        ensures worker { (result.table_id ≡ seat.old.table_id)
            × (result.me ≡ (worker_view seat.old.me.0, [])) }
    {
        self.table.shared.split_seat::<Hire>(seat)
    }
}
