ghost use Rattle.std.specs.Prelude.{◌≡◌, ◌<◌, ◌≤◌, ◌^◌, ℕ, [], IfOk, All, true, false, vec_len};
ghost use Rattle.std.specs.VecDeque.{deque_capacity};
ghost use Rattle.claim_board.specs.Views.{lane};
ghost use Rattle.claim_board.specs.Calls.{AreEmpty, IsNewWorker};
ghost use Rattle.claim_board.specs.Counts.{idle_count, occurrences};
ghost use Rattle.claim_board.specs.Plays.{empty_slots};
ghost use Rattle.claim_board.specs.Seats.{IsBellSeatOf, IsFeederOf, feeder_sees, place_count};
ghost use Rattle.claim_board.specs.Views.{first_view, lane_at};

use crate::board::Board;
use crate::ring::Bell;
use crate::seats::{BellPass, BellSeat, FeederSeat, Seat, WorkerSeat};
use crate::view::Lane;
use atomic_table::Table;
use std::alloc::{AllocError, Global};
use std::collections::VecDeque;
use vc_types::NoMemory;

impl Board {
    /// A board whose places are all empty, the feeder's seat, one seat for each worker, and a seat
    /// at the bell.
    pub fn new(
        alloc: Global,
        places: u32,
        workers: u32,
    ) -> Result<(Board, FeederSeat, Vec<WorkerSeat>, BellSeat), NoMemory>
        requires some_place { 0 < places }
        ensures places { IfOk result (λ made. place_count made.0 ≡ places) }
        ensures feeder { IfOk result (λ made. IsFeederOf made.0 made.1) }
        ensures empty { IfOk result (λ made. AreEmpty places (feeder_sees made.1)) }
        ensures workers { IfOk result (λ made. (vec_len made.2 ≡ workers)
            × All (IsNewWorker made.0) made.2.items) }
        ensures bell { IfOk result (λ made. IsBellSeatOf made.0 made.3) }
    {
        let (board, seat, bell) = board_of(alloc, places as usize)?;
        let mut feeder = board.fetch_all(alloc, seat, bell)?;
        let team = board.hire_all(alloc, &mut feeder, workers)?;
        let bell = board.bell.another(&mut feeder.bell);
        Ok((board, feeder, team, BellSeat { bell }))
    }

    /// How many places there are.
    pub fn places(&self) -> u32
        ensures { result ≡ place_count self.now }
    {
        self.table.word_count() as u32
    }

    // Fetches the slot of each place, one after another.
    fn fetch_all(
        &self,
        alloc: Global,
        mut seat: Seat,
        bell: BellPass,
    ) -> Result<FeederSeat, AllocError>
        requires table { seat.table_id ≡ self.now.table.shared.table_id }
        requires bell { bell.table_id ≡ self.now.bell.table.shared.table_id }
        requires fresh { seat.me ≡ (first_view (place_count self.now), []) }
        ensures seat { IfOk result (IsFeederOf self.now) }
        ensures empty { IfOk result (λ f. AreEmpty (place_count self.now) (feeder_sees f)) }
    {
        let places = self.table.word_count();
        let fetched = Lane {
            serial: 0,
            is_fetched: true,
            is_out: false,
        };
        let mut lanes = vec![in alloc; Lane {
            is_fetched: false,
            ..fetched
        }; places]?;
        let mut order = VecDeque::with_capacity(alloc, places)?;
        for place in 0..places {
            self.fetch(&mut seat, place);
            order.push_front_reserved(place);
            lanes[place] = fetched;
        }
        Ok(seated(seat, bell, lanes, order))
    }

    // Seats for so many workers.
    fn hire_all(
        &self,
        alloc: Global,
        feeder: &mut FeederSeat,
        workers: u32,
    ) -> Result<Vec<WorkerSeat>, AllocError>
        requires some_place { 0 < place_count self.now }
        requires seat { IsFeederOf self.now feeder.old }
        requires empty { AreEmpty (place_count self.now) (feeder_sees feeder.old) }
        ensures seat { IsFeederOf self.now feeder.new }
        ensures empty { AreEmpty (place_count self.now) (feeder_sees feeder.new) }
        ensures workers { IfOk result (λ team. (vec_len team ≡ workers)
            × All (IsNewWorker self.now) team.items) }
    {
        let mut team = Vec::with_capacity(alloc, workers as usize)?;
        for _worker in 0..workers {
            let order = VecDeque::with_capacity(alloc, self.table.word_count())?;
            let worker = self.hire_one(feeder, order);
            team.push_reserved(worker);
        }
        Ok(team)
    }

    fn hire_one(&self, feeder: &mut FeederSeat, order: VecDeque<usize>) -> WorkerSeat
        requires some_place { 0 < place_count self.now }
        requires seat { IsFeederOf self.now feeder.old }
        requires none { order.items ≡ [] }
        requires room { place_count self.now ≤ deque_capacity order }
        ensures seat { IsFeederOf self.now feeder.new }
        ensures lanes { (feeder_sees feeder.new).lanes ≡ (feeder_sees feeder.old).lanes }
        ensures worker { IsNewWorker self.now result }
    {
        let bell = self.bell.another(&mut feeder.bell);
        let seat = self.hire(&mut feeder.seat);
        WorkerSeat { seat, bell, order }
    }
}

// A board, and the feeder's two seats; no slot was fetched yet.
fn board_of(alloc: Global, places: usize) -> Result<(Board, Seat, BellPass), AllocError>
    requires few { places < 2 ^ 32 }
    ensures places { IfOk result (λ made. place_count made.0 ≡ places) }
    ensures seat { IfOk result (λ made. (made.1.table_id ≡ made.0.table.shared.table_id)
        × (made.1.me ≡ (first_view places, []))) }
    ensures bell { IfOk result (λ made. made.2.table_id ≡ made.0.bell.table.shared.table_id) }
{
    let words = vec![in alloc; 0u64; places]?;
    let (table, seat) = Table::vacant(alloc, words.as_slice(), places, &places)?;
    let (bell, pass) = Bell::new(alloc)?;
    Ok((Board { table, bell }, seat, pass))
}

// The feeder's seat, once each place is fetched.
fn seated(seat: Seat, bell: BellPass, lanes: Vec<Lane>, order: VecDeque<usize>) -> FeederSeat
    requires view { (seat.me.0.number ≡ 0) × (seat.me.0.lanes ≡ lanes.items)
        × (vec_len lanes ≡ seat.table_id.words) }
    requires slots { seat.me.1 ≡ empty_slots order.items }
    requires idle { (place : ℕ)
        → occurrences place order.items ≡ idle_count (lane_at seat.me.0 place) }
    requires room { vec_len lanes ≤ deque_capacity order }
    requires fetched { (place : ℕ) → place < vec_len lanes
        → lane_at seat.me.0 place ≡ lane 0 true false }
    requires others { (place : ℕ) → vec_len lanes ≤ place
        → lane_at seat.me.0 place ≡ lane 0 false false }
    ensures { (result.seat ≡ seat) × (result.bell ≡ bell) }
{
    FeederSeat {
        seat,
        bell,
        lanes,
        order,
    }
}
