ghost use Rattle.std.specs.Prelude.{◌≡◌, ◌++◌, ◌∷◌, ◌+◌, ◌*◌, ◌^◌, ◌<◌, ◌≤◌, ℤ};
ghost use Rattle.std.specs.Prelude.{List, unsigned_abs, length, false};
ghost use Rattle.std.specs.List.{list_any};
ghost use Rattle.vc_types.specs.Codes.{sint_bits};
ghost use Rattle.vc_types.specs.Slices.{is_large};
ghost use Rattle.vc_slice.specs.Inside.{subband_numbers, codes_behind};
ghost use Rattle.vc_slice.specs.Listed.{listed};
ghost use Rattle.vc_slice.specs.Bands.{AreCoefficients, component_codes};

use crate::bands::SliceBands;
use crate::coeffs::{CoefficientList, SliceCoeffs};
use crate::narrow::greatest;
use crate::thresholds::{more_bits, used};
use vc_geometry::bands as band_count;
use vc_quant::{Quantiser, factor};
use vc_types::Component;

// Runs of fewer coefficients are counted one by one, which is faster for them.
const LONG: usize = 16;

// The codes of a block's numbers, counted: the bits up to the last number that isn't 0, and the zeros
// behind it.
#[derive(Clone, Copy)]
struct Counted {
    bits: u64,
    zeros: u64,
}

impl Counted {
    fn add(&mut self, number: i64)
        requires size { unsigned_abs number < 2 ^ 60 }
        requires room { self.old.bits + self.old.zeros < 2 ^ 62 }
        ensures bits { (more : List ℤ)
            → self.new.bits + length (codes_behind self.new.zeros more)
            ≡ self.old.bits + length (codes_behind self.old.zeros (number ∷ more)) }
        ensures room { self.new.bits + self.new.zeros ≤ self.old.bits + self.old.zeros + 128 }
    {
        if number == 0 {
            self.zeros += 1;
        } else {
            self.bits += self.zeros + code_len(number);
            self.zeros = 0;
        }
    }
}

// The length of a number's code in bits, its sign included.
fn code_len(number: i64) -> u64
    requires size { unsigned_abs number < 2 ^ 60 }
    requires other { 0 < unsigned_abs number }
    ensures value { result ≡ length (sint_bits number) }
    ensures range { result ≤ 128 }
{
    2 * u64::from((number.unsigned_abs() + 1).ilog2()) + 2
}

// How many bits the codes of a component's numbers have, up to the last that isn't 0.
pub(crate) fn block_len(bands: &SliceBands, c: Component, coeffs: &SliceCoeffs) -> u64
    requires coefficients { AreCoefficients bands.now.parts.now coeffs.now }
    ensures value { result ≡ length (component_codes bands.now coeffs.now c) }
    ensures range { result < 2 ^ 40 }
{
    let mut counted = Counted { bits: 0, zeros: 0 };
    let mut rest = coeffs.component(c);
    for b in 0..band_count(&bands.parts.plan) {
        let (subband, behind) = rest.split_at(bands.parts.area(c, b) as usize);
        count_subband(&mut counted, &subband, &bands.quantiser(b));
        rest = behind;
    }
    counted.bits
}

// Counts the next numbers of a block.
fn count_subband(counted: &mut Counted, coefficients: &CoefficientList<'_>, quantiser: &Quantiser)
    requires small { list_any is_large (listed coefficients.now) ≡ false }
    requires few { length (listed coefficients.now) ≤ 2 ^ 26 }
    requires index { quantiser.now.index ≤ 127 }
    requires room { counted.old.bits + counted.old.zeros
        + 128 * length (listed coefficients.now) < 2 ^ 61 }
    ensures bits { (more : List ℤ)
        → counted.new.bits + length (codes_behind counted.new.zeros more)
        ≡ counted.old.bits + length (codes_behind counted.old.zeros
        (subband_numbers quantiser.now.index (listed coefficients.now) ++ more)) }
    ensures room { counted.new.bits + counted.new.zeros
        ≤ counted.old.bits + counted.old.zeros + 128 * length (listed coefficients.now) }
{
    match coefficients {
        CoefficientList::Narrow(numbers) if numbers.len() >= LONG => {
            count_run(counted, numbers, quantiser.index);
        }
        _ => count_each(counted, coefficients, quantiser),
    }
}

// The same of coefficients in 32 bits, all at once.
fn count_run(counted: &mut Counted, coefficients: &[i32], index: u8)
    requires small { list_any is_large coefficients.now ≡ false }
    requires few { length coefficients.now ≤ 2 ^ 26 }
    requires index { index ≤ 127 }
    requires room { counted.old.bits + counted.old.zeros + 128 * length coefficients.now < 2 ^ 61 }
    ensures bits { (more : List ℤ)
        → counted.new.bits + length (codes_behind counted.new.zeros more)
        ≡ counted.old.bits + length (codes_behind counted.old.zeros
        (subband_numbers index coefficients.now ++ more)) }
    ensures room { counted.new.bits + counted.new.zeros
        ≤ counted.old.bits + counted.old.zeros + 128 * length coefficients.now }
{
    let factor = factor(index);
    let most = greatest(coefficients);
    let used = used(coefficients, most, factor);
    if used == 0 {
        counted.zeros += coefficients.len() as u64;
    } else {
        counted.bits += counted.zeros + used as u64 + more_bits(coefficients, most, factor);
        counted.zeros = (coefficients.len() - used) as u64;
    }
}

// The same of any coefficients, one after another.
fn count_each(counted: &mut Counted, coefficients: &CoefficientList<'_>, quantiser: &Quantiser)
    requires small { list_any is_large (listed coefficients.now) ≡ false }
    requires room { counted.old.bits + counted.old.zeros
        + 128 * length (listed coefficients.now) < 2 ^ 61 }
    ensures bits { (more : List ℤ)
        → counted.new.bits + length (codes_behind counted.new.zeros more)
        ≡ counted.old.bits + length (codes_behind counted.old.zeros
        (subband_numbers quantiser.now.index (listed coefficients.now) ++ more)) }
    ensures room { counted.new.bits + counted.new.zeros
        ≤ counted.old.bits + counted.old.zeros + 128 * length (listed coefficients.now) }
{
    for place in 0..coefficients.len() {
        counted.add(quantiser.quant(coefficients.get(place)));
    }
}
