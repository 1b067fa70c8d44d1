use crate::coeffs::SliceCoeffs;
use crate::strip::Strip;
use vc_types::Unsound;

/// What a run decodes to: one strip, where all its slices are sound and narrow; or what each slice does, in
/// order.
#[derive(Drop)]
pub enum RunAnswer {
    Together(Strip),
    Apart(Vec<Result<SliceCoeffs, Unsound>>),
}
