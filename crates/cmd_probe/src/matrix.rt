ghost use Rattle.std.specs.Prelude.{◌≡◌};
ghost use Rattle.vc_types.specs.TransformParameters.{parameters_of};
ghost use Rattle.cmd_probe.specs.TransformLine.{has_default_matrix};

use vc_quant::default_matrix;
use vc_types::Plan;

/// Whether the quantisation matrix is the default one of the transform.
pub(crate) fn has_default_matrix(plan: &Plan) -> bool
    ensures { result ≡ has_default_matrix (parameters_of plan.now) }
{
    if plan.wavelet_ho != plan.wavelet || plan.depth_ho != 0 {
        return false;
    }
    match default_matrix(plan.wavelet, plan.depth) {
        Ok(matrix) => matrix == plan.matrix,
        Err(_) => false,
    }
}
