use crate::Fragment;
use link_model::Outcome;
use vc_types::{Header, Presentation};

/// The session that a datagram opens: whose datagrams count, the header of its sequence, and how its frames are
/// meant to be shown.
#[derive(Clone, Copy)]
pub struct Opening {
    pub ssrc: u32,
    pub header: Header,
    pub presentation: Presentation,
}

/// What a datagram is to the session that stands.
#[derive(Drop)]
pub enum Heard {
    /// It opens the next session.
    Opens(Opening),
    /// It brings a part of a picture of the session.
    Brings(Fragment),
    /// It ends the session's sequence.
    Ends,
    /// It changes nothing but the counts.
    Nothing(Outcome),
}
