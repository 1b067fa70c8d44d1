//! Low-delay pictures (ST 2042-1, low-delay slices): their parameters, their slices, and their planes.
#![tactic(auto)]

mod bands;
mod coefficient;
mod decoding;
mod finishing;
mod lowest;
mod narrow;
mod params;
mod plan;
mod refusal;
mod room;
mod slice;
mod wide;

pub use decoding::{decode_low, decode_low_kept};
pub use params::read_low_params;
pub use plan::LowPlan;
pub use refusal::LowRefusal;
pub use room::LowRoom;
pub use vc_types::ParamsRefusal;
