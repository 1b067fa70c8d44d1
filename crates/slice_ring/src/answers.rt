use machine_model::PlaceState;
use vc_slice::{SliceDone, SliceJob};

/// A job that was claimed: its place, the place's serial, and a copy of it.
#[derive(Drop)]
pub struct Claim {
    pub place: u32,
    pub serial: u64,
    pub job: SliceJob,
}

/// Why a job isn't put. It is handed back.
#[derive(Drop)]
pub enum PutRefusal {
    /// This place has a job of the same slice.
    Twice { job: SliceJob, place: u32 },
    /// No place is empty with a serial that may rise.
    Full { job: SliceJob },
}

/// Why a place isn't completed. What was decoded is handed back.
#[derive(Drop)]
pub enum CompleteRefusal {
    /// The place isn't held, or it has another serial than the given one.
    Stale {
        kept: u64,
        state: PlaceState,
        given: u64,
        done: SliceDone,
    },
    /// The place is held for another job.
    Other {
        done: SliceDone,
    },
}

/// The place isn't done, but in this state.
#[derive(Clone, Copy, Debug, PartialEq, Eq)]
pub struct NotYet {
    pub state: PlaceState,
}

/// The place isn't waiting, but in this state.
#[derive(Clone, Copy, Debug, PartialEq, Eq)]
pub struct NotWaiting {
    pub state: PlaceState,
}

/// The place isn't held, but in this state.
#[derive(Clone, Copy, Debug, PartialEq, Eq)]
pub struct NotHeld {
    pub state: PlaceState,
}
