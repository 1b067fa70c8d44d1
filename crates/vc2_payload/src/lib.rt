//! Payloads of VC-2 in RTP packets (RFC 8450, 4), read out of datagrams and written into them.
#![tactic(auto)]

mod payload;
mod read;
mod write;

pub use link_model::PayloadRefusal;
pub use payload::{FragmentHead, Payload};
pub use read::read_payload;
pub use write::write_payload;
