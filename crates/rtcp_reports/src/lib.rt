//! RTCP (RFC 3550, 6): what a receiver keeps of a source's sequence numbers, and the reports that are
//! written and read.
#![tactic(auto)]

mod block;
mod laws;
mod packet_types;
mod read;
mod refusal;
mod track;
mod write;

pub use block::{Block, CompoundView, SenderInfo};
pub use laws::{tracks_count_what_came, what_is_written_is_read};
pub use read::{block_at, read_compound};
pub use refusal::RtcpRefusal;
pub use track::Track;
pub use write::{write_rr, write_sr};
