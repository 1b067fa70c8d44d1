//! `record` and `replay`: the datagrams of a wire to a capture, and the datagrams of a capture to a wire.
#![tactic(auto)]

mod options;
mod recorder;
mod recording;
mod replayer;
mod replaying;
mod sign;
mod watch;

pub use options::{RecordOptions, ReplayOptions};
pub use recording::record_wire;
pub use replaying::replay_capture;
