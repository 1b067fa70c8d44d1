ghost use Rattle.std.specs.Prelude.{◌≡◌, ◌+◌, ◌*◌, ◌^◌, ◌<◌, ◌≤◌, ℕ, IfSome, true, if◌then◌else◌};
ghost use Rattle.std.specs.Prelude.{length, unsigned_abs};
ghost use Rattle.vc_types.specs.Lifting.{line_of};
ghost use Rattle.vc_types.specs.Transforms.{halved, on_columns, on_rows, levels_across};
ghost use Rattle.vc_types.specs.Wavelets.{is_shifted, synthesised};
ghost use Rattle.vc_lift.specs.Ranges.{narrow_bound};
ghost use Rattle.vc_wave.specs.declared.pass.Direction.TheVariants.{Synthesis};
ghost use Rattle.vc_wave.specs.Lines.{IsRowMade};
ghost use Rattle.vc_wave.specs.NarrowBounds.{AreWithin, HasBound, RowHasBound, rows_bound};
ghost use Rattle.vc_wave.specs.Planes.{HasRoom, plane_of};
ghost use Rattle.vc_wave.specs.Remade.{halves_together, on_samples, remade};

use crate::bounds::rows_reach;
use crate::extents::{Level, Rows};
use crate::shift::is_shifted;
use crate::sides::side_at;
use vc_lift::{Halves, synth_narrow};

/// A sample shifted down by one bit, rounded, if that is wanted.
#[inline(always)]
pub(crate) fn shifted_down(sample: i32, shifted: bool) -> i32
    requires { shifted ≡ true → unsigned_abs sample + 1 < 2 ^ 31 }
    ensures { result ≡ (if shifted then halved sample else sample) }
{
    if shifted { (sample + 1) >> 1 } else { sample }
}

/// Copies so many cells from one of them on to the front of a line.
#[inline(always)]
pub(crate) fn copy_row(line: &mut [i32], cells: &[i32], start: usize, width: usize)
    requires line { width ≤ length line.old }
    requires inside { start + width ≤ length cells.now }
    ensures { (k : ℕ) → k < width → line_of line.new k ≡ line_of cells.now (start + k) }
{
    for k in 0..width {
        line[k] = cells[start + k];
    }
}

// Puts two halves of a row in turn, and shifts the samples if that is wanted. The line is room to work in.
#[inline(always)]
fn weave(cells: &mut [i32], start: usize, half: usize, shifted: bool, line: &mut [i32])
    requires half { half < 2 ^ 60 }
    requires inside { start + 2 * half ≤ length cells.old }
    requires line { 2 * half ≤ length line.old }
    requires small { shifted ≡ true → (k : ℕ) → k < 2 * half
        → unsigned_abs (line_of cells.old (start + k)) + 1 < 2 ^ 31 }
    ensures { IsRowMade (λ l. on_samples halved shifted (2 * half) (halves_together half l))
        start (2 * half) cells.old cells.new }
{
    copy_row(line, cells, start, 2 * half);
    for k in 0..half {
        cells[start + 2 * k] = shifted_down(line[k], shifted);
        cells[start + 2 * k + 1] = shifted_down(line[half + k], shifted);
    }
}

// Puts the two halves of a row together, in place (ST 2042-1, horizontal synthesis), and shifts its samples
// if the wavelet wants that.
#[inline(always)]
fn merge_row(wavelet: u8, cells: &mut [i32], start: usize, half: usize, line: &mut [i32])
    requires wavelet { wavelet ≤ 6 }
    requires some { (0 < half) × (half < 2 ^ 60) }
    requires inside { start + 2 * half ≤ length cells.old }
    requires line { 2 * half ≤ length line.old }
    requires bound { RowHasBound (rows_bound wavelet) cells.old start (2 * half) }
    ensures { IsRowMade (remade Synthesis wavelet (is_shifted wavelet) half)
        start (2 * half) cells.old cells.new }
{
    let halves = Halves {
        even: start,
        odd: start + half,
        pitch: 1,
        half,
    };
    synth_narrow(wavelet, cells, &halves, 1);
    weave(cells, start, half, is_shifted(wavelet), line);
}

// Puts the halves of rows together.
fn merge_rows(rows: Rows, cells: &mut [i32], line: &mut [i32])
    requires across { 2 * rows.half ≤ rows.pitch }
    requires down { rows.count * rows.pitch ≤ length cells.old }
    requires line { 2 * rows.half ≤ length line.old }
    requires bound { HasBound (rows_bound rows.wavelet) cells.old }
    ensures { plane_of rows.pitch cells.new
        ≡ on_rows (remade Synthesis rows.wavelet (is_shifted rows.wavelet) rows.half) rows.count
        (plane_of rows.pitch cells.old) }
{
    for y in 0..rows.count {
        merge_row(rows.wavelet, cells, y * rows.pitch, rows.half, line);
    }
}

/// Synthesises a level's columns, whose low and high samples stand in turn (ST 2042-1, vertical synthesis).
pub(crate) fn merge_columns(level: Level, cells: &mut [i32])
    requires across { 2 * level.w ≤ level.pitch }
    requires down { 2 * level.h * level.pitch ≤ length cells.old }
    requires bound { HasBound (narrow_bound level.wavelets.down) cells.old }
    ensures { plane_of level.pitch cells.new
        ≡ on_columns (synthesised level.wavelets.down (2 * level.h)) (2 * level.w)
        (plane_of level.pitch cells.old) }
{
    let halves = Halves {
        even: 0,
        odd: level.pitch,
        pitch: 2 * level.pitch,
        half: level.h,
    };
    synth_narrow(level.wavelets.down, cells, &halves, 2 * level.w);
}

/// Puts so many levels across alone together, the lowest of which has these rows. From a bound on all cells
/// it tells one on them after it; none where 32 bits may not be enough.
#[tactic(auto, using(crate::proofs::Levels::level_fits, crate::proofs::Levels::level_some))]
pub(crate) fn merge_across(
    rows: Rows,
    levels: u8,
    cells: &mut [i32],
    line: &mut [i32],
    most: u64,
) -> Option<u64>
    requires levels { levels ≤ 5 }
    requires narrow { rows.half * 2 ^ levels < 2 ^ 60 }
    requires room { HasRoom (rows.half * 2 ^ levels) rows.count rows.pitch (length cells.old) 0
        (length line.old) }
    requires most { most < 2 ^ 31 }
    requires within { AreWithin most cells.old }
    ensures made { IfSome result (λ after. plane_of rows.pitch cells.new
        ≡ levels_across rows.wavelet levels rows.half rows.count (plane_of rows.pitch cells.old)) }
    ensures within { IfSome result (λ after. AreWithin after cells.new) }
    ensures small { IfSome result (λ after. after < 2 ^ 31) }
{
    let mut bound = most;
    for level in 0..levels {
        let half = side_at(rows.half, level);
        let here = Rows {
            wavelet: rows.wavelet,
            pitch: rows.pitch,
            count: rows.count,
            half,
        };
        bound = rows_reach(rows.wavelet, cells, bound)?;
        merge_rows(here, cells, line);
    }
    Some(bound)
}
