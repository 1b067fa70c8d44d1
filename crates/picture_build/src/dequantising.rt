ghost use Rattle.std.specs.Prelude.{◌≤◌, OnOk, length};
ghost use Rattle.vc_slice.specs.Bands.{coefficient_count, numbered_in};
ghost use Rattle.vc_slice.specs.Numbers.{AreUpTo};
ghost use Rattle.picture_build.specs.PartsKept.{AreCells, ChangesPart, PutsCoefficients};

use vc_geometry::{CellRect, bands as band_count, padded};
use vc_slice::{QuantisedNumbers, SliceBands, TooWide, dequantise_rect};
use vc_types::Component;

/// Puts the coefficients that a component's numbers stand for (ST 2042-1, inverse quantisation) at their
/// places in its cells, which stand row by row in nested subbands of the padded size: `greatest` is at least
/// each number's magnitude. TooWide where a coefficient may not fit 32 bits; cells of the slice hold anything
/// then.
#[inline]
pub fn put_dequantised(
    bands: &SliceBands,
    c: Component,
    numbers: &[i32],
    greatest: u32,
    cells: &mut [i32],
) -> Result<(), TooWide>
    requires count { coefficient_count bands.now.parts.now c ≤ length numbers.now }
    requires small { AreUpTo greatest (coefficient_count bands.now.parts.now c) numbers.now }
    requires cells { AreCells bands.now.parts.now c cells.old }
    ensures only { ChangesPart bands.now.parts.now c cells.old cells.new }
    ensures all { OnOk result (PutsCoefficients bands.now c (numbered_in bands.now c numbers.now)
        cells.old cells.new) }
{
    let Some(narrow) = bands.narrow(greatest) else {
        return Err(TooWide);
    };
    let (width, _) = padded(&bands.parts.plan, c);
    let mut from = 0;
    for b in 0..band_count(&bands.parts.plan) {
        let rect = bands.parts.rect(c, b);
        let quantiser = narrow.lowered(bands.parts.matrix_entry(b));
        let to = CellRect {
            rect,
            stride: width as usize,
        };
        let quantised = QuantisedNumbers {
            numbers,
            quantiser: &quantiser,
        };
        dequantise_rect(cells, &to, quantised, from);
        from += rect.width as usize * rect.height as usize;
    }
    Ok(())
}
