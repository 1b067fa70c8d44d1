use vc_slice::{RunDone, RunLoad};

/// What lies in a slot, stamped with the serial of its place.
#[derive(Drop)]
pub(crate) enum Cargo {
    Waiting(u64, RunLoad),
    Finished(u64, RunDone),
}

/// The state of a place where a job lies.
pub(crate) const WAITING: u64 = 1;

/// Where an answer lies.
pub(crate) const DONE: u64 = 3;
