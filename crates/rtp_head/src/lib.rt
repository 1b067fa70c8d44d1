//! RTP headers (RFC 3550, 5.1), read out of datagrams and written in front of payloads.
#![tactic(auto)]

mod read;
mod view;
mod write;

pub use link_model::RtpRefusal;
pub use read::{has_padding, read_rtp, version};
pub use view::RtpView;
pub use write::write_rtp;
