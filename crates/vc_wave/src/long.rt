ghost use Rattle.std.specs.Prelude.{◌≡◌, ◌+◌, ◌*◌, ◌^◌, ◌<◌, ◌≤◌, ◌⊎◌, ℕ, IfOk, length, true, false};
ghost use Rattle.std.specs.Prelude.{unsigned_abs};
ghost use Rattle.vc_types.specs.Lifting.{line_of};
ghost use Rattle.vc_types.specs.Subbands.{padded_width, padded_height};
ghost use Rattle.vc_types.specs.TransformParameters.{parameters_of};
ghost use Rattle.vc_types.specs.Transforms.{inverse_level, inverse_levels, inverse_transform, levels_across};
ghost use Rattle.vc_types.specs.Transforms.{on_columns, on_rows};
ghost use Rattle.vc_types.specs.Wavelets.{is_shifted};
ghost use Rattle.vc_lift.specs.Columns.{column_of};
ghost use Rattle.vc_wave.specs.declared.pass.Direction.TheVariants.{Synthesis};
ghost use Rattle.vc_wave.specs.Lines.{IsApart, IsInside, IsMade, line_at};
ghost use Rattle.vc_wave.specs.Planes.{HasRoom, plane_of};
ghost use Rattle.vc_wave.specs.Remade.{half_place, remade};

use crate::extents::{Level, Levels, Rows, levels_of};
use crate::level::BLOCK;
use crate::lines::{Lines, sample_place};
use crate::shift::{halve, is_shifted};
use crate::sides::{lowest, side_at};
use std::alloc::Global;
use vc_geometry::padded;
use vc_types::{Component, NoMemory, Plan};

// Copies cells to a place in a block, where they have 128 bits each.
#[inline(always)]
fn copy_in(block: &mut [i128], at: usize, cells: &[i64], start: usize, width: usize)
    requires at { at + width ≤ length block.old }
    requires start { start + width ≤ length cells.now }
    ensures on { (x : ℕ) → x < width → line_of block.new (at + x) ≡ line_of cells.now (start + x) }
    ensures small { (x : ℕ) → x < width → unsigned_abs (line_of cells.now (start + x)) < 2 ^ 64 }
    ensures off { (i : ℕ) → (i < at) ⊎ (at + width ≤ i) → line_of block.new i ≡ line_of block.old i }
{
    for x in 0..width {
        block[at + x] = i128::from(cells[start + x]);
    }
}

// Copies cells of a block back to a place, as long as they fit 64 bits; whether they all did.
#[inline(always)]
fn copy_out(cells: &mut [i64], at: usize, block: &[i128], start: usize, width: usize) -> bool
    requires at { at + width ≤ length cells.old }
    requires start { start + width ≤ length block.now }
    ensures on { result ≡ true → (x : ℕ) → x < width
        → line_of cells.new (at + x) ≡ line_of block.now (start + x) }
    ensures off { (i : ℕ) → (i < at) ⊎ (at + width ≤ i) → line_of cells.new i ≡ line_of cells.old i }
{
    for x in 0..width {
        let Ok(cell) = i64::try_from(block[start + x]) else {
            return false;
        };
        cells[at + x] = cell;
    }
    true
}

// Copies lines, whose even and odd samples stand in two halves, to columns of a block.
#[inline(always)]
#[tactic(auto, using(crate::proofs::Copies::half_small))]
fn gather(cells: &[i64], lines: &Lines, block: &mut [i128])
    requires inside { IsInside lines.now (length cells.now) }
    requires block { length block.old ≡ 2 * lines.now.half * lines.now.width }
    ensures value { (x k : ℕ) → x < lines.now.width → k < 2 * lines.now.half
        → column_of lines.now.width block.new x k
        ≡ line_at cells.now lines.now x (half_place lines.now.half k) }
    ensures small { (x k : ℕ) → x < lines.now.width → k < 2 * lines.now.half
        → unsigned_abs (line_at cells.now lines.now x (half_place lines.now.half k)) < 2 ^ 64 }
{
    for k in 0..2 * lines.half {
        let start = lines.start + sample_place(true, lines.half, k) * lines.step;
        copy_in(block, k * lines.width, cells, start, lines.width);
    }
}

// Copies columns of a block to lines, as long as they fit 64 bits; whether they all did.
#[inline(always)]
fn scatter(cells: &mut [i64], lines: &Lines, block: &[i128]) -> bool
    requires inside { IsInside lines.now (length cells.old) }
    requires block { length block.now ≡ 2 * lines.now.half * lines.now.width }
    ensures on { result ≡ true → (x k : ℕ) → x < lines.now.width → k < 2 * lines.now.half
        → line_at cells.new lines.now x k ≡ column_of lines.now.width block.now x k }
    ensures off { result ≡ true → (i : ℕ) → IsApart lines.now i
        → line_of cells.new i ≡ line_of cells.old i }
{
    for k in 0..2 * lines.half {
        let at = lines.start + k * lines.step;
        if !copy_out(cells, at, block, k * lines.width, lines.width) {
            return false;
        }
    }
    true
}

// Puts the two halves of each line together (ST 2042-1, synthesis), and halves the samples if that is wanted.
// It answers whether they all fit 64 bits.
#[inline(always)]
fn merge(wavelet: u8, shifted: bool, cells: &mut [i64], lines: &Lines, block: &mut [i128]) -> bool
    requires wavelet { wavelet ≤ 6 }
    requires inside { IsInside lines.now (length cells.old) }
    requires block { length block.old ≡ 2 * lines.now.half * lines.now.width }
    ensures { result ≡ true → IsMade (remade Synthesis wavelet shifted lines.now.half)
        lines.now cells.old cells.new }
{
    gather(cells, lines, block);
    vc_lift::synth_columns(wavelet, block, lines.width, lines.half);
    halve(block, shifted);
    scatter(cells, lines, block)
}

// Puts a level's columns together.
fn merge_columns(level: Level, cells: &mut [i64], scratch: &mut [i128]) -> bool
    requires room { HasRoom (2 * level.w) (2 * level.h) level.pitch (length cells.old) BLOCK
        (length scratch.old) }
    ensures { result ≡ true → plane_of level.pitch cells.new
        ≡ on_columns (remade Synthesis level.wavelets.down false level.h) (2 * level.w)
        (plane_of level.pitch cells.old) }
{
    let mut start = 0;
    while start < 2 * level.w {
        let width = BLOCK.min(2 * level.w - start);
        let lines = Lines {
            start,
            step: level.pitch,
            width,
            half: level.h,
        };
        let block = &mut scratch[..2 * level.h * width];
        if !merge(level.wavelets.down, false, cells, &lines, block) {
            return false;
        }
        start += width;
    }
    true
}

// Puts rows together.
fn merge_rows(rows: Rows, cells: &mut [i64], scratch: &mut [i128]) -> bool
    requires room { HasRoom (2 * rows.half) rows.count rows.pitch (length cells.old) BLOCK
        (length scratch.old) }
    ensures { result ≡ true → plane_of rows.pitch cells.new
        ≡ on_rows (remade Synthesis rows.wavelet (is_shifted rows.wavelet) rows.half) rows.count
        (plane_of rows.pitch cells.old) }
{
    let shifted = is_shifted(rows.wavelet);
    for y in 0..rows.count {
        let lines = Lines {
            start: y * rows.pitch,
            step: 1,
            width: 1,
            half: rows.half,
        };
        let block = &mut scratch[..2 * rows.half];
        if !merge(rows.wavelet, shifted, cells, &lines, block) {
            return false;
        }
    }
    true
}

// The inverse of one level both ways: it goes over columns and then rows.
fn merge_level(level: Level, cells: &mut [i64], scratch: &mut [i128]) -> bool
    requires room { HasRoom (2 * level.w) (2 * level.h) level.pitch (length cells.old) BLOCK
        (length scratch.old) }
    ensures { result ≡ true → plane_of level.pitch cells.new
        ≡ inverse_level level.wavelets.down level.wavelets.across level.w level.h
        (plane_of level.pitch cells.old) }
{
    if !merge_columns(level, cells, scratch) {
        return false;
    }
    let rows = Rows {
        wavelet: level.wavelets.across,
        pitch: level.pitch,
        count: 2 * level.h,
        half: level.w,
    };
    merge_rows(rows, cells, scratch)
}

// The inverse of so many levels across alone, the lowest of which has these rows.
#[tactic(auto, using(crate::proofs::Levels::level_fits, crate::proofs::Levels::level_some))]
fn merge_across(rows: Rows, levels: u8, cells: &mut [i64], scratch: &mut [i128]) -> bool
    requires levels { levels ≤ 5 }
    requires narrow { rows.half * 2 ^ levels < 2 ^ 60 }
    requires room { HasRoom (rows.half * 2 ^ levels) rows.count rows.pitch (length cells.old) BLOCK
        (length scratch.old) }
    ensures { result ≡ true → plane_of rows.pitch cells.new
        ≡ levels_across rows.wavelet levels rows.half rows.count (plane_of rows.pitch cells.old) }
{
    for level in 0..levels {
        let half = side_at(rows.half, level);
        let here = Rows {
            wavelet: rows.wavelet,
            pitch: rows.pitch,
            count: rows.count,
            half,
        };
        if !merge_rows(here, cells, scratch) {
            return false;
        }
    }
    true
}

// The inverse of levels both ways.
#[tactic(auto, using(crate::proofs::Levels::level_fits, crate::proofs::Levels::level_some))]
fn merge_levels(levels: Levels, cells: &mut [i64], scratch: &mut [i128]) -> bool
    requires room { HasRoom (levels.nesting.w * 2 ^ levels.nesting.levels)
        (levels.nesting.h * 2 ^ levels.nesting.levels) levels.pitch (length cells.old) BLOCK
        (length scratch.old) }
    ensures { result ≡ true → plane_of levels.pitch cells.new
        ≡ inverse_levels levels.wavelets.down levels.wavelets.across levels.nesting.levels
        levels.nesting.w levels.nesting.h (plane_of levels.pitch cells.old) }
{
    for n in 0..levels.nesting.levels {
        if !merge_level(levels.level(n, levels.pitch), cells, scratch) {
            return false;
        }
    }
    true
}

// The inverse transform of a component's cells, which are kept row by row.
fn merge_component(
    plan: &Plan,
    c: Component,
    cells: &mut [i64],
    stride: usize,
    scratch: &mut [i128],
) -> bool
    requires room { HasRoom (padded_width (parameters_of plan.now) c)
        (padded_height (parameters_of plan.now) c) stride (length cells.old) BLOCK
        (length scratch.old) }
    ensures { result ≡ true → plane_of stride cells.new
        ≡ inverse_transform (parameters_of plan.now) c (plane_of stride cells.old) }
{
    let (w, h) = lowest(plan, c);
    let rows = Rows {
        wavelet: plan.wavelet_ho,
        pitch: stride,
        count: h,
        half: w,
    };
    if !merge_across(rows, plan.depth_ho, cells, scratch) {
        return false;
    }
    merge_levels(levels_of(plan, c, stride), cells, scratch)
}

/// Makes of a component's coefficients its samples, in place, both row by row in the padded size (ST 2042-1,
/// inverse wavelet transform). It answers whether all numbers that a pass over columns or rows leaves fit 64
/// bits; where they don't, the cells are of no use. It fails only where memory runs out.
pub fn inverse_long(
    alloc: Global,
    plan: &Plan,
    c: Component,
    cells: &mut [i64],
) -> Result<bool, NoMemory>
    requires { length cells.old ≡ padded_height (parameters_of plan.now) c
        * padded_width (parameters_of plan.now) c }
    ensures { IfOk result (λ fits. fits ≡ true
        → plane_of (padded_width (parameters_of plan.now) c) cells.new
        ≡ inverse_transform (parameters_of plan.now) c
        (plane_of (padded_width (parameters_of plan.now) c) cells.old)) }
{
    let (width, height) = padded(plan, c);
    let (columns, rows) = (width as usize, height as usize);
    let mut scratch = vec![in alloc; 0i128; columns.max(rows * BLOCK)]?;
    Ok(merge_component(plan, c, cells, columns, &mut scratch))
}
