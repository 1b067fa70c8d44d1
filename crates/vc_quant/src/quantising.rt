ghost use Rattle.std.specs.Prelude.{◌≡◌, ◌+◌, ◌*◌, ◌/◌, ◌^◌, ◌<◌, ◌≤◌, ℕ, All, length, unsigned_abs};
ghost use Rattle.vc_types.specs.Lifting.{line_of};
ghost use Rattle.vc_types.specs.Quantisation.{quant_factor, quantised};
ghost use Rattle.vc_quant.specs.Reciprocal.{IsNarrowReciprocal};

use crate::quantiser::factor;
use crate::reciprocal::factor_reciprocal;

/// Magnitudes below this are quantised in 32 bits.
pub(crate) const NARROW: u32 = 1 << 14;

/// An index, with a product and a shift that stand for the division of magnitudes below NARROW by its
/// factor.
#[derive(Clone, Copy)]
pub(crate) struct NarrowReciprocal {
    pub(crate) index: u8,
    times: u32,
    shift: u32,
    ghost times_fit: { times ≤ 2 ^ 17 + 1 },
    ghost shift_fits: { shift ≤ 30 },
    ghost is_exact: { IsNarrowReciprocal (quant_factor index) times shift },
}

impl NarrowReciprocal {
    pub(crate) fn new(index: u8) -> NarrowReciprocal
        requires { index ≤ 127 }
        ensures { result.index ≡ index }
    {
        // The reciprocal, rounded up to its first 17 digits: quotients are neither too small nor too large.
        let log = factor(index).ilog2().min(15);
        NarrowReciprocal {
            index,
            times: (factor_reciprocal(index) >> (15 - log)) as u32 + 1,
            shift: 15 + log,
        }
    }

    /// Writes the numbers that coefficients of small magnitudes are quantised to.
    pub(crate) fn quantise(&self, coefficients: &[i32], numbers: &mut [i32])
        requires small { All (λ z. unsigned_abs z < 2 ^ 14) coefficients.now }
        requires length { length numbers.old ≡ length coefficients.now }
        ensures { (k : ℕ) → k < length coefficients.now
            → line_of numbers.new k ≡ quantised (line_of coefficients.now k) self.now.index }
    {
        for k in 0..coefficients.len() {
            numbers[k] = self.number(coefficients[k]);
        }
    }

    #[inline(always)]
    fn number(&self, coefficient: i32) -> i32
        requires { unsigned_abs coefficient < 2 ^ 14 }
        ensures { result ≡ quantised coefficient self.now.index }
    {
        let size = self.quotient(coefficient.unsigned_abs()) as i32;
        if coefficient < 0 { -size } else { size }
    }

    #[inline(always)]
    fn quotient(&self, magnitude: u32) -> u32
        requires { magnitude < 2 ^ 14 }
        ensures value { result ≡ 4 * magnitude / quant_factor self.now.index }
        ensures range { result < 2 ^ 31 }
    {
        (magnitude * self.times) >> self.shift
    }
}
