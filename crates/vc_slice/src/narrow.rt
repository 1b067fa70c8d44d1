ghost use Rattle.std.specs.Prelude.{◌≡◌, ◌+◌, ◌^◌, ◌<◌, ◌≤◌, ◌⊎◌, ℕ, All, IfOk, OnOk, length};
ghost use Rattle.std.specs.Prelude.{slice_index_or, unsigned_abs, true, false};
ghost use Rattle.std.specs.List.{list_any};
ghost use Rattle.vc_types.specs.Lifting.{line_of};
ghost use Rattle.vc_types.specs.Quantisation.{dequantised};
ghost use Rattle.vc_types.specs.Slices.{is_large};
ghost use Rattle.vc_slice.specs.Bands.{coefficient_count, coefficients_of_block, quantisers_of};
ghost use Rattle.vc_slice.specs.Numbers.{AreBlockNumbers, AreUpTo};

use crate::bands::SliceBands;
use crate::component::bits_of;
use vc_geometry::bands as band_count;
use vc_golomb::read_sints;
use vc_quant::Quantiser;
use vc_types::Component;

// From here on factors have more than 20 binary digits.
const LARGE_INDEX: u8 = 80;

/// A coefficient may be too wide for 32 bits.
#[derive(Clone, Copy, Debug, PartialEq, Eq)]
pub struct TooWide;

/// Reads the coefficients of a component's block (ST 2042-1, high-quality slice) to the front of `out`,
/// which has room for eight more. What is behind them isn't said. TooWide says nothing of the block but
/// that it is to be read in 64 bits.
pub(crate) fn read_narrow(
    bands: &SliceBands,
    c: Component,
    block: &[u8],
    out: &mut [i32],
) -> Result<(), TooWide>
    requires room { coefficient_count bands.now.parts.now c + 8 ≤ length out.old }
    ensures value { OnOk result ((i : ℕ) → i < coefficient_count bands.now.parts.now c
        → line_of out.new i ≡ line_of (coefficients_of_block bands.now c block.now) i) }
    ensures sound { OnOk result
        (list_any is_large (coefficients_of_block bands.now c block.now) ≡ false) }
{
    let greatest = read_numbers(bands, c, block, out)?;
    if dequantise(bands, c, greatest, out) {
        Ok(())
    } else {
        Err(TooWide)
    }
}

/// Reads the numbers that a component's block has for its coefficients (ST 2042-1, high-quality slice) to
/// the front of `out`, which has room for eight more: a bound of their magnitudes. TooWide where one of
/// them doesn't fit 32 bits.
pub fn read_numbers(
    bands: &SliceBands,
    c: Component,
    block: &[u8],
    out: &mut [i32],
) -> Result<u32, TooWide>
    requires room { coefficient_count bands.now.parts.now c + 8 ≤ length out.old }
    ensures numbers { OnOk result
        (AreBlockNumbers (coefficient_count bands.now.parts.now c) block.now out.new) }
    ensures most { IfOk result (λ most. AreUpTo most (coefficient_count bands.now.parts.now c) out.new) }
{
    let count = bands.parts.count(c) as usize;
    let Ok(most) = read_sints(&bits_of(block), count, out) else {
        return Err(TooWide);
    };
    // Where factors are large, a closer bound may let the numbers stay narrow.
    if bands.index < LARGE_INDEX {
        Ok(most)
    } else {
        Ok(greatest(&out[..count]))
    }
}

/// At least the magnitude of each number.
pub(crate) fn greatest(numbers: &[i32]) -> u32
    ensures { All (λ z. unsigned_abs z ≤ result) numbers.now }
{
    let mut seen = 0u32;
    for number in numbers {
        seen = seen.max(number.unsigned_abs());
    }
    seen
}

// Puts in the place of a block's numbers, whose magnitudes are at most the greatest, the coefficients that
// they stand for; false where one may not fit 32 bits.
fn dequantise(bands: &SliceBands, c: Component, greatest: u32, numbers: &mut [i32]) -> bool
    requires count { coefficient_count bands.now.parts.now c ≤ length numbers.old }
    requires greatest { (i : ℕ) → i < coefficient_count bands.now.parts.now c
        → unsigned_abs (line_of numbers.old i) ≤ greatest }
    ensures value { result ≡ true → (i : ℕ) → i < coefficient_count bands.now.parts.now c
        → line_of numbers.new i ≡ dequantised (line_of numbers.old i)
        (slice_index_or (quantisers_of bands.now c) i 0) }
    ensures narrow { result ≡ true → (i : ℕ) → i < coefficient_count bands.now.parts.now c
        → unsigned_abs (line_of numbers.new i) < 2 ^ 29 }
{
    let mut from = 0usize;
    for b in 0..band_count(&bands.parts.plan) {
        let to = from + bands.parts.area(c, b) as usize;
        if !dequantise_run(&bands.quantiser(b), numbers, from, to, greatest) {
            return false;
        }
        from = to;
    }
    true
}

// The same for the numbers of one subband, which stand from one place to another.
#[inline(always)]
fn dequantise_run(
    quantiser: &Quantiser,
    numbers: &mut [i32],
    from: usize,
    to: usize,
    greatest: u32,
) -> bool
    requires run { (from ≤ to) × (to ≤ length numbers.old) }
    requires greatest { (i : ℕ) → from ≤ i → i < to
        → unsigned_abs (line_of numbers.old i) ≤ greatest }
    ensures on { result ≡ true → (i : ℕ) → from ≤ i → i < to
        → line_of numbers.new i ≡ dequantised (line_of numbers.old i) quantiser.now.index }
    ensures narrow { result ≡ true → (i : ℕ) → from ≤ i → i < to
        → unsigned_abs (line_of numbers.new i) < 2 ^ 29 }
    ensures off { result ≡ true → (i : ℕ) → (i < from) ⊎ (to ≤ i)
        → line_of numbers.new i ≡ line_of numbers.old i }
{
    quantiser.dequant_all(&mut numbers[from..to], greatest)
}
