ghost use Rattle.std.specs.Prelude.{◌≡◌, ◌≢◌, ◌+◌, ◌*◌, ◌^◌, ◌<◌, ◌≤◌, ℕ, OnOk, length, pos, unsigned_abs, true};
ghost use Rattle.vc_types.specs.Lifting.{line_of};
ghost use Rattle.vc_types.specs.Quantisation.{dequantised};
ghost use Rattle.vc_types.specs.Subbands.{area};
ghost use Rattle.vc_slice.specs.Bands.{coefficient_count, numbered_in};
ghost use Rattle.vc_slice.specs.Numbers.{AreUpTo};
ghost use Rattle.vc_geometry.specs.CellRects.{ChangesRect, ChangesRow, HasRow, LiesIn, cell_in};
ghost use Rattle.picture_build.specs.PartsKept.{AreCells, ChangesPart, PutsSound, place_kept};

use crate::cells::CoefficientCells;
use vc_geometry::{CellRect, bands as band_count, padded};
use vc_quant::Quantiser;
use vc_slice::{SliceBands, SliceParts, TooWide};
use vc_types::Component;

// Numbers up to a magnitude, and the quantiser by which they stand for coefficients below 2^60.
#[derive(Clone, Copy)]
struct WideNumbers<'a> {
    numbers: &'a [i32],
    greatest: u32,
    quantiser: &'a Quantiser,
    ghost is_small: { unsigned_abs (dequantised (pos greatest) quantiser.now.index) < 2 ^ 60 },
}

/// Puts the coefficients that a component's numbers stand for (ST 2042-1, inverse quantisation) at their
/// places, though they may need more than 32 bits: `greatest` is at least each number's magnitude. TooWide
/// where a coefficient may have a magnitude of 2^60 or more; cells of the slice hold anything then.
pub(crate) fn put_wide_numbers(
    bands: &SliceBands,
    c: Component,
    numbers: &[i32],
    greatest: u32,
    cells: &mut CoefficientCells,
) -> Result<(), TooWide>
    requires count { coefficient_count bands.now.parts.now c ≤ length numbers.now }
    requires small { AreUpTo greatest (coefficient_count bands.now.parts.now c) numbers.now }
    requires cells { AreCells bands.now.parts.now c cells.old }
    ensures only { ChangesPart bands.now.parts.now c cells.old cells.new }
    ensures all { OnOk result (PutsSound bands.now c (numbered_in bands.now c numbers.now)
        cells.old cells.new) }
{
    let (width, _) = padded(&bands.parts.plan, c);
    let mut from = 0;
    for b in 0..band_count(&bands.parts.plan) {
        let rect = bands.parts.rect(c, b);
        let quantiser = bands.quantiser(b);
        if !is_small(&quantiser, greatest) {
            return Err(TooWide);
        }
        let to = CellRect {
            rect,
            stride: width as usize,
        };
        let quantised = WideNumbers {
            numbers,
            greatest,
            quantiser: &quantiser,
        };
        put_wide_rect(cells, &to, quantised, from);
        from += rect.width as usize * rect.height as usize;
    }
    Ok(())
}

// Whether numbers up to a magnitude stand for coefficients below 2^60.
fn is_small(quantiser: &Quantiser, greatest: u32) -> bool
    ensures { result ≡ true
        → unsigned_abs (dequantised (pos greatest) quantiser.now.index) < 2 ^ 60 }
{
    quantiser.dequant(i64::from(greatest)).unsigned_abs() < 1 << 60
}

// Puts the coefficients that numbers stand for, from one number on, into a rectangle of cells, row by row.
fn put_wide_rect(
    cells: &mut CoefficientCells,
    to: &CellRect,
    quantised: WideNumbers<'_>,
    from: usize,
)
    requires cells { LiesIn to.now cells.old }
    requires from { from + area to.now.rect ≤ length quantised.numbers.now }
    requires small { (j : ℕ) → j < area to.now.rect
        → unsigned_abs (line_of quantised.numbers.now (from + j)) ≤ quantised.greatest }
    ensures on { (j : ℕ) → j < area to.now.rect → line_of cells.new (cell_in to.now j)
        ≡ dequantised (line_of quantised.entry.numbers.now (from + j))
        quantised.entry.quantiser.now.index }
    ensures off { ChangesRect to.now cells.old cells.new }
    ensures length { length cells.new ≡ length cells.old }
{
    let width = to.rect.width as usize;
    for row in 0..to.rect.height as usize {
        let at = (to.rect.y as usize + row) * to.stride + to.rect.x as usize;
        put_dequantised_row(cells, at, quantised, from + row * width, width);
    }
}

fn put_dequantised_row(
    cells: &mut CoefficientCells,
    at: usize,
    quantised: WideNumbers<'_>,
    from: usize,
    width: usize,
)
    requires at { at + width ≤ length cells.old }
    requires range { at + width < 2 ^ 64 }
    requires from { from + width ≤ length quantised.numbers.now }
    requires small { (x : ℕ) → x < width
        → unsigned_abs (line_of quantised.numbers.now (from + x)) ≤ quantised.greatest }
    ensures on { (x : ℕ) → x < width → line_of cells.new (at + x)
        ≡ dequantised (line_of quantised.entry.numbers.now (from + x))
        quantised.entry.quantiser.now.index }
    ensures off { ChangesRow width at cells.old cells.new }
    ensures length { length cells.new ≡ length cells.old }
{
    for x in 0..width {
        cells.put(at + x, coefficient(quantised, from + x));
    }
}

// The coefficient that one of the numbers stands for.
#[inline(always)]
fn coefficient(quantised: WideNumbers<'_>, place: usize) -> i64
    requires place { place < length quantised.numbers.now }
    requires small { unsigned_abs (line_of quantised.numbers.now place) ≤ quantised.greatest }
    ensures value { result
        ≡ dequantised (line_of quantised.entry.numbers.now place)
        quantised.entry.quantiser.now.index }
    ensures range { unsigned_abs result < 2 ^ 60 }
{
    let number = quantised.numbers[place];
    quantised.quantiser.dequant(i64::from(number)) as i64
}

/// Puts a component's coefficients at their places, however wide they are.
pub(crate) fn place_wide(
    parts: &SliceParts,
    c: Component,
    coeffs: &[i64],
    cells: &mut CoefficientCells,
)
    requires count { length coeffs.now ≡ coefficient_count parts.now c }
    requires small { (i : ℕ) → i < length coeffs.now
        → unsigned_abs (line_of coeffs.now i) < 2 ^ 60 }
    requires cells { AreCells parts.now c cells.old }
    ensures on { (i : ℕ) → i < coefficient_count parts.now c
        → line_of cells.new (place_kept parts.now c i) ≡ line_of coeffs.now i }
    ensures off { (k : ℕ) → ((i : ℕ) → i < coefficient_count parts.now c
        → k ≢ place_kept parts.now c i) → line_of cells.new k ≡ line_of cells.old k }
    ensures length { length cells.new ≡ length cells.old }
{
    let (width, _) = padded(&parts.plan, c);
    let mut from = 0;
    for b in 0..band_count(&parts.plan) {
        let rect = parts.rect(c, b);
        let to = CellRect {
            rect,
            stride: width as usize,
        };
        place_wide_rect(&to, coeffs, from, cells);
        from += rect.width as usize * rect.height as usize;
    }
}

// Puts wide coefficients, from one of them on, into a rectangle of cells, row by row.
fn place_wide_rect(to: &CellRect, coeffs: &[i64], from: usize, cells: &mut CoefficientCells)
    requires cells { LiesIn to.now cells.old }
    requires from { from + area to.now.rect ≤ length coeffs.now }
    requires small { (i : ℕ) → i < length coeffs.now
        → unsigned_abs (line_of coeffs.now i) < 2 ^ 60 }
    ensures on { (j : ℕ) → j < area to.now.rect
        → line_of cells.new (cell_in to.now j) ≡ line_of coeffs.now (from + j) }
    ensures off { ChangesRect to.now cells.old cells.new }
    ensures length { length cells.new ≡ length cells.old }
{
    let width = to.rect.width as usize;
    for row in 0..to.rect.height as usize {
        let at = (to.rect.y as usize + row) * to.stride + to.rect.x as usize;
        put_wide_row(cells, at, coeffs, from + row * width, width);
    }
}

// Puts so many wide coefficients, from one of them on, into cells from one of them on.
fn put_wide_row(cells: &mut CoefficientCells, at: usize, coeffs: &[i64], from: usize, width: usize)
    requires at { at + width ≤ length cells.old }
    requires range { at + width < 2 ^ 64 }
    requires from { from + width ≤ length coeffs.now }
    requires small { (i : ℕ) → i < length coeffs.now
        → unsigned_abs (line_of coeffs.now i) < 2 ^ 60 }
    ensures on { HasRow width at cells.new from coeffs.now }
    ensures off { ChangesRow width at cells.old cells.new }
    ensures length { length cells.new ≡ length cells.old }
{
    for x in 0..width {
        cells.put(at + x, coeffs[from + x]);
    }
}
