use std::collections::LinkedList;
use vc_slice::{RunDone, RunJob};

/// What the feeder knows of a place: its serial, whether its slot was fetched once, and whether it
/// is out, that is not empty.
#[derive(Clone, Copy)]
pub struct Lane {
    pub serial: u64,
    pub is_fetched: bool,
    pub is_out: bool,
}

/// What one step on the word of a place did: the place, and the serial and what was handed on,
/// where the step is an event of the machine.
pub enum Deed {
    /// The word was read, and is this.
    WasRead(usize, u64),
    /// The slot came to the feeder for the first time.
    WasFetched(usize),
    WasPut(usize, RunJob),
    WasClaimed(usize, u64, RunJob),
    WasCompleted(usize, u64, RunDone),
    WasTaken(usize, u64, RunDone),
    WasWithdrawn(usize, u64, RunJob),
}

/// A step, and the number of the seat that made it.
pub struct Entry {
    pub seat: usize,
    pub deed: Deed,
}

/// What a seat knows. It is there for definitions: no value of it is made.
pub struct View {
    /// How many places there are.
    pub places: usize,
    /// Its own number; 0 is the feeder's.
    pub number: usize,
    /// How many seats there are, for the feeder.
    pub seats: usize,
    /// By place, for the feeder.
    pub lanes: LinkedList<Lane>,
    /// Every step up to its own last one, the last first.
    pub history: LinkedList<Entry>,
}
