ghost use Rattle.std.specs.Prelude.{◌≡◌, ◌+◌, ◌-◌, ◌*◌, ◌^◌, ◌<◌, ◌≤◌, ℕ, true, if◌then◌else◌, length};
ghost use Rattle.std.specs.Prelude.{unsigned_abs};
ghost use Rattle.vc_types.specs.Lifting.{line_of};
ghost use Rattle.vc_types.specs.Transforms.{doubled, on_columns, on_rows, forward_levels};
ghost use Rattle.vc_types.specs.Wavelets.{is_shifted, analysed};
ghost use Rattle.vc_lift.specs.Ranges.{narrow_analysis_bound};
ghost use Rattle.vc_wave.specs.declared.pass.Direction.TheVariants.{Analysis};
ghost use Rattle.vc_wave.specs.ForwardBounds.{parted_rows_bound, parted_level_bound};
ghost use Rattle.vc_wave.specs.Layout.{laid_out};
ghost use Rattle.vc_wave.specs.Lines.{IsRowMade};
ghost use Rattle.vc_wave.specs.NarrowBounds.{HasBound, RowHasBound, bound_over};
ghost use Rattle.vc_wave.specs.Planes.{HasRoom, plane_of};
ghost use Rattle.vc_wave.specs.Remade.{halves_apart, on_samples, remade, parted_in_turn};

use crate::extents::{Level, Levels, Rows};
use crate::narrow::copy_row;
use crate::shift::is_shifted;
use crate::sides::side_at;
use vc_lift::{Halves, analyse_narrow};

/// A sample doubled, if that is wanted.
#[inline(always)]
pub(crate) fn readied(sample: i32, shifted: bool) -> i32
    requires { shifted ≡ true → 2 * unsigned_abs sample < 2 ^ 31 }
    ensures { result ≡ (if shifted then doubled sample else sample) }
{
    if shifted { 2 * sample } else { sample }
}

// Takes the even and the odd samples of a row apart into two halves, and doubles them if that is wanted. The
// line is room to work in.
#[inline(always)]
fn unweave(cells: &mut [i32], start: usize, half: usize, shifted: bool, line: &mut [i32])
    requires half { half < 2 ^ 60 }
    requires inside { start + 2 * half ≤ length cells.old }
    requires line { 2 * half ≤ length line.old }
    requires small { shifted ≡ true → (k : ℕ) → k < 2 * half
        → 2 * unsigned_abs (line_of cells.old (start + k)) < 2 ^ 31 }
    ensures { IsRowMade (λ l. halves_apart half (on_samples doubled shifted (2 * half) l))
        start (2 * half) cells.old cells.new }
{
    copy_row(line, cells, start, 2 * half);
    for k in 0..half {
        cells[start + k] = readied(line[2 * k], shifted);
        cells[start + half + k] = readied(line[2 * k + 1], shifted);
    }
}

// Doubles the samples of a row if the wavelet wants that, and takes it apart into two halves, in place.
#[inline(always)]
fn part_row(wavelet: u8, cells: &mut [i32], start: usize, half: usize, line: &mut [i32])
    requires wavelet { wavelet ≤ 6 }
    requires some { (0 < half) × (half < 2 ^ 60) }
    requires inside { start + 2 * half ≤ length cells.old }
    requires line { 2 * half ≤ length line.old }
    requires bound { RowHasBound (parted_rows_bound wavelet) cells.old start (2 * half) }
    ensures { IsRowMade (remade Analysis wavelet (is_shifted wavelet) half)
        start (2 * half) cells.old cells.new }
{
    let halves = Halves {
        even: start,
        odd: start + half,
        pitch: 1,
        half,
    };
    unweave(cells, start, half, is_shifted(wavelet), line);
    analyse_narrow(wavelet, cells, &halves, 1);
}

// Takes rows apart into halves.
fn part_rows(rows: Rows, cells: &mut [i32], line: &mut [i32])
    requires across { 2 * rows.half ≤ rows.pitch }
    requires down { rows.count * rows.pitch ≤ length cells.old }
    requires line { 2 * rows.half ≤ length line.old }
    requires bound { HasBound (parted_rows_bound rows.wavelet) cells.old }
    ensures { plane_of rows.pitch cells.new
        ≡ on_rows (remade Analysis rows.wavelet (is_shifted rows.wavelet) rows.half) rows.count
        (plane_of rows.pitch cells.old) }
{
    for y in 0..rows.count {
        part_row(rows.wavelet, cells, y * rows.pitch, rows.half, line);
    }
}

/// Analyses a level's columns, whose samples stay where they stand.
pub(crate) fn part_columns(level: Level, cells: &mut [i32])
    requires across { 2 * level.w ≤ level.pitch }
    requires down { 2 * level.h * level.pitch ≤ length cells.old }
    requires bound { HasBound (narrow_analysis_bound level.wavelets.down) cells.old }
    ensures { plane_of level.pitch cells.new
        ≡ on_columns (analysed level.wavelets.down (2 * level.h)) (2 * level.w)
        (plane_of level.pitch cells.old) }
{
    let halves = Halves {
        even: 0,
        odd: level.pitch,
        pitch: 2 * level.pitch,
        half: level.h,
    };
    analyse_narrow(level.wavelets.down, cells, &halves, 2 * level.w);
}

// Takes a level of a symmetric transform apart: first rows and then columns. Its low and high rows then stand
// in turn.
fn part_level(level: Level, cells: &mut [i32], line: &mut [i32])
    requires room { HasRoom (2 * level.w) (2 * level.h) level.pitch (length cells.old) 0
        (length line.old) }
    requires bound { HasBound (parted_level_bound level.wavelets.down) cells.old }
    ensures { plane_of level.pitch cells.new
        ≡ parted_in_turn level.wavelets.down level.w level.h (plane_of level.pitch cells.old) }
{
    let rows = Rows {
        wavelet: level.wavelets.down,
        pitch: level.pitch,
        count: 2 * level.h,
        half: level.w,
    };
    part_rows(rows, cells, line);
    part_columns(level, cells);
}

/// Takes the levels of a symmetric transform below the highest apart, from the top down. The rows of each
/// then are in turn, as those of the highest are before.
#[tactic(auto, using(crate::proofs::Levels::level_fits, crate::proofs::Levels::level_some))]
pub(crate) fn part_levels(levels: Levels, cells: &mut [i32], line: &mut [i32])
    requires some { 1 ≤ levels.nesting.levels }
    requires room { HasRoom (levels.nesting.w * 2 ^ levels.nesting.levels)
        (levels.nesting.h * 2 ^ levels.nesting.levels) levels.pitch (length cells.old) 0
        (length line.old) }
    requires bound { HasBound (bound_over (parted_level_bound levels.wavelets.down)
        (levels.nesting.levels - 1)) cells.old }
    ensures { laid_out levels.nesting.levels levels.nesting.w levels.nesting.h
        (plane_of levels.pitch cells.new)
        ≡ forward_levels levels.wavelets.down (levels.nesting.levels - 1) levels.nesting.w
        levels.nesting.h (laid_out 1 (levels.nesting.w * 2 ^ (levels.nesting.levels - 1))
        (levels.nesting.h * 2 ^ (levels.nesting.levels - 1)) (plane_of levels.pitch cells.old)) }
{
    for n in 1..levels.nesting.levels {
        let left = levels.nesting.levels - 1 - n;
        let pitch = side_at(levels.pitch, n);
        part_level(levels.level(left, pitch), cells, line);
    }
}

/// Half of the range of so many bits.
pub(crate) fn half_range(depth: u8) -> u16
    requires { (1 ≤ depth) × (depth ≤ 16) }
    ensures { result ≡ 2 ^ (depth - 1) }
{
    1 << (depth - 1)
}
