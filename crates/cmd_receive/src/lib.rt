//! `decode`, `unpack`, `recv` and `loop`: datagrams of a capture or a wire to raw frames or to an
//! elementary stream.
#![tactic(auto)]

mod concluding;
mod count;
mod decoding;
mod frame_receiver;
mod looping;
mod options;
mod outlet;
mod playout;
mod receiving;
mod session_playout;
mod settings;
mod telling;
mod wire_inlet;

pub use count::SessionCount;
pub use decoding::{decode, unpack};
pub use looping::loop_back;
pub use options::{LoopOptions, ReceiveOptions};
pub use receiving::recv;
pub use settings::DecodeSettings;
