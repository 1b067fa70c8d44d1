ghost use Rattle.std.specs.Prelude.{◌≡◌, ◌<◌, ◌^◌, ℕ, IfOk, IfErr, IfSome, IfNone};
ghost use Rattle.std.specs.Prelude.{None, false, replicate};
ghost use Rattle.std.specs.Arc.{arc_value};
ghost use Rattle.claim_board.specs.Feeders.{feeder_bound, form_sees, left_in};
ghost use Rattle.claim_board.specs.Feeders.{IsLowestFree, HasNoFree, HasOffered, HasAsked};
ghost use Rattle.claim_board.specs.Feeders.{HasAskedIfLeft, HasAskedBelow, HasAskedBack, HasLeft};
ghost use Rattle.claim_board.specs.Seats.{IsFeederOf, feeder_sees, place_count};

use crate::board::Board;
use crate::feeder::BoardFeeder;
use crate::marks::Marks;
use crate::seats::FeederSeat;
use std::alloc::Global;
use std::sync::Arc;
use vc_slice::{Places, RunDone, RunLoad};
use vc_types::NoMemory;

// The serial of a place stays below it.
const LAST_SERIAL: u64 = 1 << 61;

impl BoardFeeder {
    /// The form of a board and its feeder's seat.
    pub fn new(alloc: Global, board: Arc<Board>, seat: FeederSeat) -> Result<BoardFeeder, NoMemory>
        requires seat { IsFeederOf (arc_value board) seat }
        ensures bound { IfOk result (λ f. feeder_bound f ≡ place_count (arc_value board)) }
        ensures sees { IfOk result (λ f. form_sees f ≡ feeder_sees seat) }
        ensures left { IfOk result (λ f. left_in f
            ≡ replicate (place_count (arc_value board)) false) }
    {
        let places = board.places() as usize;
        let left = Marks::new(alloc, places)?;
        Ok(BoardFeeder {
            board,
            seat,
            left,
            free_from: 0,
        })
    }

    // Asks each place that was left, and drops what is there.
    fn sweep(&mut self)
        ensures bound { feeder_bound self.new ≡ feeder_bound self.old }
        ensures asked { HasAskedBelow (feeder_bound self.old) self.old self.new }
    {
        if self.left.are_none() {
            return;
        }
        for place in 0..self.board.places() {
            self.ask_if_left(place);
        }
    }

    fn ask_if_left(&mut self, place: u32)
        requires place { place < feeder_bound self.old }
        ensures bound { feeder_bound self.new ≡ feeder_bound self.old }
        ensures asked { HasAskedIfLeft self.old self.new place }
    {
        if self.left.get(place as usize) {
            let _answer = self.take(place);
        }
    }

    // The lowest place that is empty, with a serial that may rise.
    fn free_place(&self) -> Option<u32>
        ensures lowest { IfSome result (IsLowestFree (feeder_bound self.now) (form_sees self.now)) }
        ensures none { IfNone result (HasNoFree (feeder_bound self.now) (form_sees self.now)) }
    {
        for place in self.free_from..self.board.places() {
            let lane = self.seat.lanes[place as usize];
            if !lane.is_out && lane.serial < LAST_SERIAL {
                return Some(place);
            }
        }
        None
    }
}

impl Places for BoardFeeder {
    ghost bound = { feeder_bound };

    ghost told = { λ _. None };

    fn put(&mut self, load: RunLoad) -> Result<u32, RunLoad>
        ensures bound { feeder_bound self.new ≡ feeder_bound self.old }
        ensures place { IfOk result (λ place. place < feeder_bound self.old) }
        ensures back { IfErr result (λ same. same ≡ load) }
        ensures board { HasOffered self.old self.new load.job result }
    {
        self.sweep();
        match self.free_place() {
            Some(place) => {
                self.board.put(&mut self.seat, place, load);
                self.free_from = place + 1;
                Ok(place)
            }
            None => Err(load),
        }
    }

    fn take(&mut self, place: u32) -> Option<RunDone>
        requires place { place < feeder_bound self.old }
        ensures bound { feeder_bound self.new ≡ feeder_bound self.old }
        ensures board { HasAsked self.old self.new place result }
    {
        let Ok(done) = self.board.take(&mut self.seat, place) else {
            return None;
        };
        self.left.set(place as usize, false);
        self.free_from = self.free_from.min(place);
        Some(done)
    }

    fn withdraw(&mut self, place: u32) -> Option<RunLoad>
        requires place { place < feeder_bound self.old }
        ensures bound { feeder_bound self.new ≡ feeder_bound self.old }
        ensures board { HasAskedBack self.old self.new place result }
    {
        let Ok(load) = self.board.withdraw(&mut self.seat, place) else {
            return None;
        };
        self.left.set(place as usize, false);
        self.free_from = self.free_from.min(place);
        Some(load)
    }

    fn leave(&mut self, place: u32)
        requires place { place < feeder_bound self.old }
        ensures bound { feeder_bound self.new ≡ feeder_bound self.old }
        ensures board { HasLeft self.old self.new place }
    {
        if self.seat.lanes[place as usize].is_out {
            self.left.set(place as usize, true);
        }
    }
}
