ghost use Rattle.std.specs.Prelude.{◌≡◌, ◌-◌, ◌^◌, ◌<◌, ◌≤◌, IfSome};
ghost use Rattle.vc_types.specs.Subbands.{plane_depth};
ghost use Rattle.vc_types.specs.TransformParameters.{parameters_of};
ghost use Rattle.vc_wave.specs.ForwardBounds.{doubled_bound, parted_rows_bound, parted_level_bound};
ghost use Rattle.vc_wave.specs.ForwardBounds.{forward_fits_narrow};
ghost use Rattle.vc_wave.specs.NarrowBounds.{bound_over};

use crate::analysis::sample_depth;
use crate::narrow_analysis::half_range;
use crate::shift::is_shifted;
use vc_lift::narrow_analysis_bound;
use vc_types::{Component, Plan};

// A bound on samples that are doubled, if the wavelet wants that.
fn doubled_bound(wavelet: u8, most: u64) -> Option<u64>
    requires wavelet { wavelet ≤ 6 }
    requires most { most < 2 ^ 31 }
    ensures value { result ≡ doubled_bound wavelet most }
    ensures small { IfSome result (λ bound. bound < 2 ^ 31) }
{
    if !is_shifted(wavelet) {
        Some(most)
    } else if 2 * most < 1 << 31 {
        Some(2 * most)
    } else {
        None
    }
}

// A bound on all cells after rows are doubled and analysed in 32 bits.
fn parted_rows_bound(wavelet: u8, most: u64) -> Option<u64>
    requires wavelet { wavelet ≤ 6 }
    requires most { most < 2 ^ 31 }
    ensures value { result ≡ parted_rows_bound wavelet most }
    ensures small { IfSome result (λ bound. bound < 2 ^ 31) }
{
    let twice = doubled_bound(wavelet, most)?;
    narrow_analysis_bound(wavelet, twice)
}

// A bound on all cells after a level.
fn parted_level_bound(wavelet: u8, most: u64) -> Option<u64>
    requires wavelet { wavelet ≤ 6 }
    requires most { most < 2 ^ 31 }
    ensures value { result ≡ parted_level_bound wavelet most }
    ensures small { IfSome result (λ bound. bound < 2 ^ 31) }
{
    let made = parted_rows_bound(wavelet, most)?;
    narrow_analysis_bound(wavelet, made)
}

/// A bound on all cells after so many levels.
pub(crate) fn parted_bound(wavelet: u8, levels: u8, most: u64) -> Option<u64>
    requires wavelet { wavelet ≤ 6 }
    requires most { most < 2 ^ 31 }
    ensures value { result ≡ bound_over (parted_level_bound wavelet) levels most }
{
    let mut bound = most;
    for level in 0..levels {
        bound = parted_level_bound(wavelet, bound)?;
    }
    Some(bound)
}

/// Whether a component's planes can be transformed by `forward_narrow`: a bound on their samples, less half
/// of the range, is carried through each step of each level.
pub fn forward_fits_narrow(plan: &Plan, c: Component) -> bool
    ensures { result ≡ forward_fits_narrow (parameters_of plan.now)
        (2 ^ (plane_depth plan.now.shape c - 1)) }
{
    let most = half_range(sample_depth(plan, c));
    parted_bound(plan.wavelet, plan.depth, u64::from(most)).is_some()
}
