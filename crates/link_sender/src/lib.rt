//! Pictures in RTP datagrams (RFC 8450): frames sent as a sequence header, transform parameters and slices
//! each, and pictures of an elementary stream packed in their own bytes.
#![tactic(auto)]

mod datagram;
mod encoding;
mod fields;
mod laws;
mod outbox;
mod packer;
mod packing;
mod parts;
mod picture;
mod place;
mod refusal;
mod runs;
mod samples;
mod sender;
mod sending;
mod writing;

pub use datagram::Datagram;
pub use laws::frames_are_few_bytes;
pub use packer::Packer;
pub use picture_encode::Chooser;
pub use refusal::SendRefusal;
pub use sender::Sender;
