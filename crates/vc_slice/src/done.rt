ghost use Rattle.std.specs.Prelude.{◌≡◌};
ghost use Rattle.vc_types.specs.OfPlan.{slice_coefficients};

use crate::coeffs::SliceCoeffs;
use crate::job::SliceJob;
use vc_types::Unsound;

/// A slice with its decoding: its coefficients, or why it has none.
#[derive(Drop)]
pub struct SliceDone {
    pub job: SliceJob,
    pub answer: Result<SliceCoeffs, Unsound>,
    pub ghost decoded: { answer ≡ slice_coefficients job.plan job.index job.bytes },
}
