/// How many datagrams were judged, how many got each outcome, and what became of the pictures.
#[derive(Clone, Copy, Default)]
pub struct Tally {
    /// The sum of the counts of outcomes.
    pub datagrams: u64,
    pub rtp_short: u64,
    pub rtp_version: u64,
    pub rtp_shape: u64,
    pub payload_short: u64,
    pub payload_code: u64,
    pub payload_fragment: u64,
    pub foreign: u64,
    pub header_new: u64,
    pub header_same: u64,
    pub header_other: u64,
    pub header_bad: u64,
    pub end: u64,
    pub skipped: u64,
    pub late: u64,
    pub params_kept: u64,
    pub params_repeat: u64,
    pub params_conflict: u64,
    pub params_bad: u64,
    pub slices_kept: u64,
    pub slices_repeat: u64,
    pub slices_conflict: u64,
    pub slices_pending: u64,
    pub slices_full: u64,
    pub slices_form: u64,
    pub slices_place: u64,
    pub slices_cut: u64,
    /// Pictures that closed without being complete.
    pub incomplete: u64,
    /// Complete pictures that aren't sound.
    pub unsound: u64,
    /// Complete and sound fields whose partner isn't.
    pub unpaired: u64,
    /// Frames written.
    pub frames: u64,
}
