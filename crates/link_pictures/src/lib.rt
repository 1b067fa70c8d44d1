//! The pictures of a receiver, from the answers for their slices to the bytes that are written once they are
//! released: frames (with field coding, woven from two fields), or the units of an elementary stream.
#![tactic(auto)]

mod answers;
mod completing;
mod fault;
mod filled;
mod frame_bytes;
mod header;
mod laws;
mod output;
mod pairing;
mod picture;
mod stream;
mod units;
mod written;

pub use answers::Answers;
pub use fault::StreamFault;
pub use filled::FilledFrames;
pub use frame_writer::FrameFault;
pub use laws::written_streams_follow_datagrams;
pub use output::{FrameOutput, Shown};
pub use stream::{ReleasedPicture, StreamOutput};
pub use written::Written;
