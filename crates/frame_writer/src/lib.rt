//! Raw frames (this project's own), written and read: the samples of the planes Y, C1 and C2, one plane after
//! another, row by row.
#![tactic(auto)]

mod bytes;
mod fault;
mod frame;
mod laws;
mod memory;
mod pieces;
mod read_fault;
mod reading;
mod samples;
mod taking;
mod width;

pub use fault::FrameFault;
pub use frame::write_frame;
pub use laws::frames_are_their_bytes;
pub use read_fault::FrameReadFault;
pub use reading::{FrameRoom, read_frame};
pub use width::is_wide;
