//! The feeder and its workers as one machine over events, which runs in tests.
#![tactic(auto)]

mod answers;
mod datagram;
mod event;
mod feeder;
mod frames;
mod machine;
mod pictures;
mod session;
mod verdict;

pub use event::{Event, StepRefusal};
pub use machine::{Core, step};
