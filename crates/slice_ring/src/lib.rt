//! A ring of places where one feeder puts slices and workers claim them, as plain data: each call
//! is one step.
#![tactic(auto)]

mod answers;
mod place;
mod ring;

pub use answers::{Claim, CompleteRefusal, NotHeld, NotWaiting, NotYet, PutRefusal};
pub use machine_model::PlaceState;
pub use ring::Ring;
