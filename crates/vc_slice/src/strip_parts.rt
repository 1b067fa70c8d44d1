ghost use Rattle.std.specs.Prelude.{◌≡◌, ◌≢◌, ◌+◌, ◌<◌, ◌≤◌, ℕ, OnOk, length, unsigned_abs};
ghost use Rattle.vc_types.specs.Lifting.{line_of};
ghost use Rattle.vc_types.specs.Subbands.{area, place_in};
ghost use Rattle.vc_geometry.specs.Runs.{cell_of};
ghost use Rattle.vc_slice.specs.Bands.{coefficient_count, numbered_in};
ghost use Rattle.vc_slice.specs.Numbers.{AreUpTo, coefficient_of};
ghost use Rattle.vc_slice.specs.RunSlices.{ArePartsOfRun, ChangesStrip, PutsStrip, strip_length};

use crate::bands::SliceBands;
use crate::narrow::TooWide;
use crate::rect_numbers::{QuantisedNumbers, dequantise_rect};
use crate::run_parts::RunParts;
use vc_geometry::{CellRect, bands as band_count};
use vc_types::{Component, Rect};

// Puts the coefficients that a block's numbers stand for at their places in the strip of a run, subband by
// subband. Where one may be too wide, only places of this slice were changed.
pub(crate) fn strip_numbers(
    run: &RunParts,
    bands: &SliceBands,
    c: Component,
    numbers: &[i32],
    greatest: u32,
    strip: &mut [i32],
) -> Result<(), TooWide>
    requires own { ArePartsOfRun run.now bands.now.parts.now }
    requires count { coefficient_count bands.now.parts.now c ≤ length numbers.now }
    requires small { AreUpTo greatest (coefficient_count bands.now.parts.now c) numbers.now }
    requires strip { length strip.old ≡ strip_length run.now c }
    ensures only { ChangesStrip run.now bands.now.parts.now c strip.old strip.new }
    ensures all { OnOk result (PutsStrip run.now bands.now c (numbered_in bands.now c numbers.now)
        strip.old strip.new) }
{
    let Some(narrow) = bands.narrow(greatest) else {
        return Err(TooWide);
    };
    let mut from = 0;
    let mut base = 0;
    for b in 0..band_count(&run.plan) {
        let part = bands.parts.rect(c, b);
        let whole = run.rect(c, b);
        let quantiser = narrow.lowered(bands.parts.matrix_entry(b));
        let quantised = QuantisedNumbers {
            numbers,
            quantiser: &quantiser,
        };
        put_part(&part, &whole, quantised, from, base, strip);
        from += part.width as usize * part.height as usize;
        base += whole.width as usize * whole.height as usize;
    }
    Ok(())
}

// Puts the coefficients that numbers stand for, from one number on, into the part of a rectangle, which
// stands row by row in the strip, from one place on.
#[inline(always)]
fn put_part(
    part: &Rect,
    whole: &Rect,
    quantised: QuantisedNumbers<'_>,
    from: usize,
    base: usize,
    strip: &mut [i32],
)
    requires across { (whole.now.x ≤ part.now.x)
        × (part.now.x + part.now.width ≤ whole.now.x + whole.now.width) }
    requires down { (whole.now.y ≤ part.now.y)
        × (part.now.y + part.now.height ≤ whole.now.y + whole.now.height) }
    requires sides { (whole.now.x + whole.now.width ≤ 8192)
        × (whole.now.y + whole.now.height ≤ 8192) }
    requires base { base + area whole.now ≤ length strip.old }
    requires from { from + area part.now ≤ length quantised.numbers.now }
    requires small { (j : ℕ) → j < area part.now
        → unsigned_abs (line_of quantised.numbers.now (from + j)) ≤ quantised.quantiser.now.greatest }
    ensures on { (j : ℕ) → j < area part.now
        → line_of strip.new (base + cell_of whole.now (place_in part.now j))
        ≡ coefficient_of quantised.entry (from + j) }
    ensures off { (k : ℕ)
        → ((j : ℕ) → j < area part.now → k ≢ base + cell_of whole.now (place_in part.now j))
        → line_of strip.new k ≡ line_of strip.old k }
    ensures length { length strip.new ≡ length strip.old }
{
    let rect = Rect {
        x: part.x - whole.x,
        y: part.y - whole.y,
        width: part.width,
        height: part.height,
    };
    let to = CellRect {
        rect,
        stride: whole.width as usize,
    };
    dequantise_rect(&mut strip[base..], &to, quantised, from);
}
