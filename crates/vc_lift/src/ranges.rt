ghost use Rattle.std.specs.Prelude.{◌≡◌, ◌+◌, ◌*◌, ◌^◌, ◌<◌, ◌≤◌, ◌∷◌, List, IfSome, unsigned_abs};
ghost use Rattle.std.specs.Option.{option_and_then};
ghost use Rattle.vc_lift.specs.CountedSteps.{CountedStep};
ghost use Rattle.vc_lift.specs.Growth.{weight};
ghost use Rattle.vc_lift.specs.Ranges.{stretched_below, bound_after, narrow_bound, narrow_analysis_bound};
ghost use Rattle.vc_lift.specs.Steps.{counted_of};
ghost use Rattle.vc_lift.specs.StepLists.{steps_of};

use crate::order::{analysis, step_at, step_count, synthesis};
use crate::step::Step;
use crate::steps::Steps;

// The taps' magnitudes in sum.
fn weight(step: &Step) -> u64
    ensures { result ≡ weight (counted_of step.now) }
{
    let mut sum = 0;
    for j in 0..step.taps.len() {
        sum += u64::from(step.taps[j].unsigned_abs());
    }
    sum
}

// A bound on the samples that a step changes, after it, where all that it reckons fits 32 bits.
fn stretched(step: &Step, own: u64, other: u64) -> Option<u64>
    requires own { own < 2 ^ 32 }
    requires other { other < 2 ^ 32 }
    ensures { result ≡ stretched_below (2 ^ 31) (counted_of step.now) own other }
{
    let half = (1u64 << step.shift) / 2;
    let sum = weight(step) * other + half;
    let bound = own + (sum >> step.shift) + 1;
    if sum < 1 << 31 && bound < 1 << 31 {
        Some(bound)
    } else {
        None
    }
}

// Bounds on the even and on the odd samples after a step, from those before it.
fn next(step: &Step, even: u64, odd: u64) -> Option<(u64, u64)>
    requires even { even < 2 ^ 31 }
    requires odd { odd < 2 ^ 31 }
    ensures value { (steps : List CountedStep)
        → bound_after (2 ^ 31) (counted_of step.now ∷ steps) even odd
        ≡ option_and_then (λ b. bound_after (2 ^ 31) steps b.0 b.1) result }
    ensures small { IfSome result (λ b. (b.0 < 2 ^ 31) × (b.1 < 2 ^ 31)) }
{
    if step.parity == 0 {
        Some((stretched(step, even, odd)?, odd))
    } else {
        Some((even, stretched(step, odd, even)?))
    }
}

// A bound on the samples of lines after steps in 32 bits, from a bound before them.
fn bound_after(steps: &Steps, most: u64) -> Option<u64>
    requires most { most < 2 ^ 31 }
    ensures value { result ≡ bound_after (2 ^ 31) (steps_of steps.now) most most }
    ensures small { IfSome result (λ bound. bound < 2 ^ 31) }
{
    let mut bounds = (most, most);
    for i in 0..step_count(steps) {
        let step = step_at(steps, i);
        bounds = next(&step, bounds.0, bounds.1)?;
    }
    Some(bounds.0.max(bounds.1))
}

/// A bound on the samples of lines that are synthesised in 32 bits, from a bound before that; none where a
/// step could leave 32 bits.
pub fn narrow_bound(wavelet: u8, most: u64) -> Option<u64>
    requires wavelet { wavelet ≤ 6 }
    requires most { most < 2 ^ 31 }
    ensures value { result ≡ narrow_bound wavelet most }
    ensures small { IfSome result (λ bound. bound < 2 ^ 31) }
{
    bound_after(&synthesis(wavelet), most)
}

/// The same of lines that are analysed.
pub fn narrow_analysis_bound(wavelet: u8, most: u64) -> Option<u64>
    requires wavelet { wavelet ≤ 6 }
    requires most { most < 2 ^ 31 }
    ensures value { result ≡ narrow_analysis_bound wavelet most }
    ensures small { IfSome result (λ bound. bound < 2 ^ 31) }
{
    bound_after(&analysis(wavelet), most)
}
