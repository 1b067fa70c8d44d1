ghost use Rattle.std.specs.Prelude.{◌≡◌, ◌+◌, ◌≤◌};
ghost use Rattle.vc_lift.specs.Reach.{reach_back, reach_ahead};

use crate::order::{step_at, step_count, synthesis};

/// How many pairs of samples before and behind a sample's own have a part in it when a line is synthesised.
#[derive(Clone, Copy)]
pub struct Reach {
    pub back: usize,
    pub ahead: usize,
}

/// The reach of synthesis by a wavelet, as far as its steps reach one after another.
pub fn reach_of(wavelet: u8) -> Reach
    requires { wavelet ≤ 6 }
    ensures back { result.back ≡ reach_back wavelet }
    ensures ahead { result.ahead ≡ reach_ahead wavelet }
    ensures small { result.back + result.ahead ≤ 16 }
{
    let steps = synthesis(wavelet);
    let mut back = 0usize;
    let mut ahead = 0usize;
    for i in 0..step_count(&steps) {
        let step = step_at(&steps, i);
        back += step.back;
        ahead += step.taps.len().saturating_sub(step.back).saturating_sub(1);
    }
    Reach { back, ahead }
}
