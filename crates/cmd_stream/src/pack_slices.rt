ghost use Rattle.cmd_stream.specs.PackSteps.{EndsSlices};
ghost use Rattle.vc_types.specs.TransformParameters.{parameters_of};

use vc_slice::cut;
use vc_types::Plan;

/// How many bytes a picture's slices have, which begin the bytes; none where the bytes end before the last
/// slice.
pub(crate) fn slices_len(plan: &Plan, bytes: &[u8]) -> Option<usize>
    ensures { EndsSlices (parameters_of plan.now) bytes.now result }
{
    let mut rest = bytes;
    for _slice in 0..plan.slices_x * plan.slices_y {
        let Ok(len) = cut(plan.prefix, plan.scaler, rest) else {
            return None;
        };
        let (_, behind) = rest.split_at(len);
        rest = behind;
    }
    Some(bytes.len() - rest.len())
}
