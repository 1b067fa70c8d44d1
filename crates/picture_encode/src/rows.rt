ghost use Rattle.std.specs.Prelude.{◌≡◌, ◌+◌, ◌-◌, ◌*◌, ◌^◌, ◌<◌, ◌≤◌, ℕ, length};
ghost use Rattle.picture_encode.specs.Rows.{band_row, level_below};
ghost use Rattle.vc_types.specs.Quantisation.{subband_count};
ghost use Rattle.vc_types.specs.Transforms.{source_of};

use vc_types::Rect;
use vc_wave::Nesting;

/// Rows of cells, each so many behind the one before.
#[derive(Clone, Copy)]
pub(crate) struct SteppedRows {
    pub(crate) first: usize,
    pub(crate) step: usize,
}

/// A rectangle whose rows stand among rows of cells in steps.
#[derive(Clone, Copy)]
pub(crate) struct SteppedRect<'a> {
    pub(crate) cells: &'a [i32],
    pub(crate) stride: usize,
    pub(crate) rows: SteppedRows,
    pub(crate) rect: Rect,
    pub(crate) ghost some: { 1 ≤ stride },
    pub(crate) ghost across: { rect.x + rect.width ≤ stride },
    pub(crate) ghost down: { (row : ℕ) → row < rect.height
        → (rows.first + row * rows.step) * stride + stride ≤ length cells.now },
}

/// The rows of cells that hold the rows of subband number `b` from one of them on, in nested subbands that
/// have no levels across alone.
#[inline(always)]
pub(crate) fn rows_from(nesting: Nesting, b: u32, y: usize) -> SteppedRows
    requires levels { nesting.levels ≤ 5 }
    requires number { b < subband_count 0 nesting.levels }
    requires some { 1 ≤ nesting.levels }
    requires small { nesting.h * 2 ^ nesting.levels < 2 ^ 60 }
    requires y { y ≤ 8192 }
    ensures first { result.first ≡ band_row nesting.levels (level_below b) nesting.h y }
    ensures step { result.step ≡ 2 ^ (nesting.levels - level_below b) }
{
    let level = b.saturating_sub(1) / 3;
    let above = u32::from(nesting.levels) - (level + 1);
    let row = row_of_level(doubled(nesting.h, level), y);
    SteppedRows {
        first: doubled(row, above),
        step: doubled(2, above),
    }
}

// The row that a level takes row y of its subbands to, where they have so many rows.
#[inline(always)]
fn row_of_level(rows: usize, y: usize) -> usize
    requires y { y ≤ 8192 }
    ensures value { result ≡ source_of rows y }
    ensures small { result ≤ 2 * y + 1 }
{
    if y < rows { 2 * y } else { 2 * (y - rows) + 1 }
}

// A number so many times doubled.
#[inline(always)]
fn doubled(n: usize, times: u32) -> usize
    requires times { times ≤ 5 }
    requires fits { n * 2 ^ times < 2 ^ 64 }
    ensures { result ≡ n * 2 ^ times }
{
    n << times
}
