use link_window::{Opening, Outcome};
use vc_slice::SliceJob;

/// What became of a datagram: its outcome, the jobs of the slices that it brought, and the session
/// that it opens, if it opens one.
#[derive(Drop)]
pub(crate) struct Kept {
    pub(crate) outcome: Outcome,
    pub(crate) jobs: Vec<SliceJob>,
    pub(crate) opening: Option<Opening>,
}
