//! `encode` and `send`: raw frames sent as the datagrams that carry them, frame by frame, to wherever
//! datagrams go.
#![tactic(auto)]

mod frame_sender;
mod host;
mod into_capture;
mod options;
mod over_wire;
mod sending;
mod shape;
mod totals;
mod turns;

pub use frame_sender::refusal_ending;
pub use host::{Encoder, Host};
pub use into_capture::encode;
pub use options::{FrameOptions, SendOptions};
pub use over_wire::send;
pub use sending::send_frames;
pub use totals::Totals;
