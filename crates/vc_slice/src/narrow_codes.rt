ghost use Rattle.std.specs.Prelude.{◌≡◌, ◌+◌, ◌<◌, ◌≤◌, ◌↔◌, ℕ, IfOk, length};
ghost use Rattle.std.specs.Prelude.{slice_index_or, take, true};
ghost use Rattle.vc_types.specs.Bits.{bits_of};
ghost use Rattle.vc_types.specs.Encoding.{without_last_zeros};
ghost use Rattle.vc_types.specs.Lifting.{line_of};
ghost use Rattle.vc_types.specs.OfPlan.{band_count};
ghost use Rattle.vc_types.specs.Quantisation.{quantised};
ghost use Rattle.vc_slice.specs.Inside.{up_to_bytes};
ghost use Rattle.vc_slice.specs.Bands.{block_codes, coefficient_count, quantisers_of};

use crate::bands::SliceBands;
use crate::narrow::greatest;
use vc_geometry::bands as band_count;
use vc_golomb::sint_codes;
use vc_types::{Component, NoMemory};

/// The codes of the numbers of a component's coefficients, up to the last that isn't 0, and ones up to
/// whole bytes: in the memory of bytes that are done with. The numbers take the place of others.
pub(crate) fn narrow_codes(
    numbers: &mut Vec<i32>,
    used: Vec<u8>,
    bands: &SliceBands,
    c: Component,
    coefficients: &[i32],
) -> Result<Vec<u8>, NoMemory>
    requires { length coefficients.now ≡ coefficient_count bands.now.parts.now c }
    ensures { IfOk result (λ bytes. bits_of bytes.items
        ≡ up_to_bytes (block_codes bands.now c coefficients.now)) }
{
    let count = coefficients.len();
    if numbers.len() < count {
        numbers.resize(count, 0)?;
    }
    codes_by(&mut numbers[..count], used, bands, c, coefficients)
}

// The same by as many numbers.
fn codes_by(
    numbers: &mut [i32],
    used: Vec<u8>,
    bands: &SliceBands,
    c: Component,
    coefficients: &[i32],
) -> Result<Vec<u8>, NoMemory>
    requires count { length coefficients.now ≡ coefficient_count bands.now.parts.now c }
    requires length { length numbers.old ≡ length coefficients.now }
    ensures { IfOk result (λ bytes. bits_of bytes.items
        ≡ up_to_bytes (block_codes bands.now c coefficients.now)) }
{
    quantise(bands, c, coefficients, numbers);
    let count = used_count(numbers);
    sint_codes(used, &numbers[..count])
}

// Writes the numbers that a component's coefficients are quantised to: at once those of subbands one behind
// the other that have the same index.
fn quantise(bands: &SliceBands, c: Component, coefficients: &[i32], numbers: &mut [i32])
    requires count { length coefficients.now ≡ coefficient_count bands.now.parts.now c }
    requires length { length numbers.old ≡ length coefficients.now }
    ensures { (i : ℕ) → i < length coefficients.now → line_of numbers.new i
        ≡ quantised (line_of coefficients.now i) (slice_index_or (quantisers_of bands.now c) i 0) }
{
    let greatest = greatest(coefficients);
    let mut from = 0usize;
    let mut to = 0usize;
    for b in 0..band_count(&bands.parts.plan) {
        to += bands.parts.area(c, b) as usize;
        if is_next_alike(bands, b) {
            continue;
        }
        let quantiser = bands.quantiser(b);
        quantiser.quant_to(&coefficients[from..to], &mut numbers[from..to], greatest);
        from = to;
    }
}

// Whether there is a subband behind subband number `b`, of the same index.
#[inline(always)]
fn is_next_alike(bands: &SliceBands, b: u32) -> bool
    requires { b < band_count bands.now.parts.now.plan }
    ensures { (result ≡ true) ↔ ((b + 1 < band_count bands.now.parts.now.plan)
        × (slice_index_or bands.now.parts.now.plan.matrix (b + 1) 0
        ≡ slice_index_or bands.now.parts.now.plan.matrix b 0)) }
{
    let parts = bands.parts;
    b + 1 < band_count(&parts.plan) && parts.matrix_entry(b + 1) == parts.matrix_entry(b)
}

// How many numbers there are up to the last that isn't 0.
fn used_count(numbers: &[i32]) -> usize
    ensures value { take result numbers.now ≡ without_last_zeros numbers.now }
    ensures range { result ≤ length numbers.now }
{
    let mut count = numbers.len();
    'zeros: while count > 0 && numbers[count - 1] == 0 {
        count -= 1;
    }
    count
}
