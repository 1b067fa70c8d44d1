//! What worked rows and tests share: bytes as pairs of digits, entries of a capture; jobs, places, a gate
//! and payloads.
#![tactic(auto)]

mod at_once;
mod digits;
mod doorkeeper;
mod entries;
mod jobs;
mod no_workers;
mod payloads;
mod plans;
mod range;
mod recorder;
mod runs;
mod two_places;

pub use at_once::AtOnce;
pub use digits::{Bad, NamedBytes, put};
pub use doorkeeper::Doorkeeper;
pub use entries::split_entry;
pub use jobs::job_of;
pub use no_workers::NoWorkers;
pub use payloads::{HEADER_PAYLOAD, params_payload, slice_payload};
pub use plans::{ONE_SLICE, THREE_SLICES, TWO_SLICES};
pub use range::range_of;
pub use recorder::Recorder;
pub use runs::run_of;
pub use two_places::{Given, TwoPlaces};
