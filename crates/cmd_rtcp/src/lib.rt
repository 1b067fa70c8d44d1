//! `rtcp` and `rtcp-show`: what is to be reported on the source of an input's datagrams (RFC 3550, 6.4), and
//! reports shown as text.
#![tactic(auto)]

mod command;
mod input;
mod piece;
mod reporter;
mod scribe;
mod settings;
mod shower;
mod source;
mod text;
mod writing;

pub use command::{rtcp, rtcp_show};
pub use input::take_input;
pub use piece::Piece;
pub use scribe::Scribe;
pub use settings::{InputPart, ReportSettings};
