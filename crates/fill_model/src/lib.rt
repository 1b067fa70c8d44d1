//! Frames without gaps: in specs/ what is written of a list of datagrams where the frame before is
//! written once more for each that is missing, here the law that a receiver's steps keep to this.
//! There are definitions and laws here, and no algorithm.
#![tactic(auto)]

mod laws;

pub use laws::filled_frames_follow_datagrams;
