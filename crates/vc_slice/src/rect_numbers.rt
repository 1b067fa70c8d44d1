ghost use Rattle.std.specs.Prelude.{◌≡◌, ◌+◌, ◌<◌, ◌≤◌, ℕ, length, unsigned_abs};
ghost use Rattle.vc_types.specs.Lifting.{line_of};
ghost use Rattle.vc_types.specs.Subbands.{area};
ghost use Rattle.vc_geometry.specs.CellRects.{ChangesRect, ChangesRow, LiesIn, cell_in};
ghost use Rattle.vc_slice.specs.Numbers.{coefficient_of};

use vc_geometry::CellRect;
use vc_quant::NarrowQuantiser;

/// Numbers, and the quantiser by which they stand for coefficients.
#[derive(Clone, Copy)]
pub struct QuantisedNumbers<'a> {
    pub numbers: &'a [i32],
    pub quantiser: &'a NarrowQuantiser,
}

/// Puts the coefficients that numbers stand for, from one number on, into a rectangle of cells, row by row.
#[inline(always)]
pub fn dequantise_rect(
    cells: &mut [i32],
    to: &CellRect,
    quantised: QuantisedNumbers<'_>,
    from: usize,
)
    requires cells { LiesIn to.now cells.old }
    requires from { from + area to.now.rect ≤ length quantised.numbers.now }
    requires small { (j : ℕ) → j < area to.now.rect
        → unsigned_abs (line_of quantised.numbers.now (from + j)) ≤ quantised.quantiser.now.greatest }
    ensures on { (j : ℕ) → j < area to.now.rect
        → line_of cells.new (cell_in to.now j) ≡ coefficient_of quantised.entry (from + j) }
    ensures off { ChangesRect to.now cells.old cells.new }
    ensures length { length cells.new ≡ length cells.old }
{
    // Rows of these widths go over at once.
    match to.rect.width {
        0 => {}
        1 => put_rows(cells, to, quantised, from, 1),
        2 => put_rows(cells, to, quantised, from, 2),
        4 => put_rows(cells, to, quantised, from, 4),
        8 => put_rows(cells, to, quantised, from, 8),
        16 => put_rows(cells, to, quantised, from, 16),
        width => put_rows(cells, to, quantised, from, width as usize),
    }
}

#[inline(always)]
fn put_rows(
    cells: &mut [i32],
    to: &CellRect,
    quantised: QuantisedNumbers<'_>,
    from: usize,
    width: usize,
)
    requires width { width ≡ to.now.rect.width }
    requires cells { LiesIn to.now cells.old }
    requires from { from + area to.now.rect ≤ length quantised.numbers.now }
    requires small { (j : ℕ) → j < area to.now.rect
        → unsigned_abs (line_of quantised.numbers.now (from + j)) ≤ quantised.quantiser.now.greatest }
    ensures on { (j : ℕ) → j < area to.now.rect
        → line_of cells.new (cell_in to.now j) ≡ coefficient_of quantised.entry (from + j) }
    ensures off { ChangesRect to.now cells.old cells.new }
    ensures length { length cells.new ≡ length cells.old }
{
    for row in 0..to.rect.height as usize {
        let at = (to.rect.y as usize + row) * to.stride + to.rect.x as usize;
        put_row(cells, at, quantised, from + row * width, width);
    }
}

#[inline(always)]
fn put_row(cells: &mut [i32], at: usize, quantised: QuantisedNumbers<'_>, from: usize, width: usize)
    requires at { at + width ≤ length cells.old }
    requires from { from + width ≤ length quantised.numbers.now }
    requires small { (x : ℕ) → x < width
        → unsigned_abs (line_of quantised.numbers.now (from + x)) ≤ quantised.quantiser.now.greatest }
    ensures on { (x : ℕ) → x < width
        → line_of cells.new (at + x) ≡ coefficient_of quantised.entry (from + x) }
    ensures off { ChangesRow width at cells.old cells.new }
    ensures length { length cells.new ≡ length cells.old }
{
    let numbers = quantised.numbers;
    let quantiser = quantised.quantiser;
    if width <= 16 {
        // All numbers are read before a coefficient is written, so that they go over at once.
        let mut few = [0; 16];
        for x in 0..width {
            few[x] = quantiser.dequant(numbers[from + x]);
        }
        for x in 0..width {
            cells[at + x] = few[x];
        }
    } else {
        for x in 0..width {
            cells[at + x] = quantiser.dequant(numbers[from + x]);
        }
    }
}
