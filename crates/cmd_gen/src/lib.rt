//! `gen`: generated raw frames (this project's own: noise from a seed, the same on every machine), written,
//! or with `--check 1` sent, received and compared, datagram by datagram.
#![tactic(auto)]

mod checker;
mod checking;
mod comparing;
mod comparison;
mod count;
mod frame;
mod generating;
mod laws;
mod round_trip;
mod samples;
mod settings;
mod shape;
mod written;

pub use checking::check;
pub use comparison::Comparison;
pub use count::samples_of;
pub use frame::gen_frame;
pub use generating::generate;
pub use laws::{samples_have_their_bits, seed_0_begins_so, whole_frames_have_no_differences};
pub use samples::{next_state, sample_of};
pub use settings::default_settings;
pub use shape::frame_shape;
