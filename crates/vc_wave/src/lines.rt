ghost use Rattle.std.specs.Prelude.{◌≡◌, ◌≢◌, ◌+◌, ◌*◌, ◌^◌, ◌<◌, ◌≤◌, ℕ, length, unsigned_abs};
ghost use Rattle.std.specs.Prelude.{slice_index_or, ◌⊎◌};
ghost use Rattle.vc_types.specs.Lifting.{line_of};
ghost use Rattle.vc_lift.specs.Columns.{column_of};
ghost use Rattle.vc_wave.specs.declared.pass.Direction.TheVariants.{Synthesis, Analysis};
ghost use Rattle.vc_wave.specs.Remade.{remade, sample_place};
ghost use Rattle.vc_wave.specs.Lines.{line_at, IsInside, IsApart, AreSmall, IsMade};

use crate::pass::{Direction, Pass};
use crate::shift::{double, halve};

/// Lines of a grid that stand side by side: the place of the first one's first cell, how far each cell is
/// from the next in its line, how many lines there are, and half of the cells that each has.
#[derive(Clone, Copy)]
pub(crate) struct Lines {
    pub start: usize,
    pub step: usize,
    pub width: usize,
    pub half: usize,
}

/// Where a line has sample k: at k or, while its even and odd samples stand in two halves, in the half of its
/// parity.
#[inline(always)]
pub(crate) fn sample_place(apart: bool, half: usize, k: usize) -> usize
    requires place { k < 2 * half }
    requires half { half < 2 ^ 60 }
    ensures { result ≡ sample_place apart half k }
{
    if apart { k / 2 + k % 2 * half } else { k }
}

// Copies cells to a place from another.
#[inline(always)]
fn copy(to: &mut [i128], at: usize, from: &[i128], start: usize, width: usize)
    requires at { at + width ≤ length to.old }
    requires start { start + width ≤ length from.now }
    ensures on { (x : ℕ) → x < width → line_of to.new (at + x) ≡ line_of from.now (start + x) }
    ensures off { (i : ℕ) → (i < at) ⊎ (at + width ≤ i) → line_of to.new i ≡ line_of to.old i }
{
    for x in 0..width {
        to[at + x] = from[start + x];
    }
}

// Copies lines of a grid to columns of a block.
#[inline(always)]
#[tactic(auto, using(crate::proofs::Copies::half_small))]
fn gather(cells: &[i128], lines: &Lines, apart: bool, block: &mut [i128])
    requires inside { IsInside lines.now (length cells.now) }
    requires block { length block.old ≡ 2 * lines.now.half * lines.now.width }
    ensures { (x k : ℕ) → x < lines.now.width → k < 2 * lines.now.half
        → column_of lines.now.width block.new x k
        ≡ line_at cells.now lines.now x (sample_place apart lines.now.half k) }
{
    for k in 0..2 * lines.half {
        let start = lines.start + sample_place(apart, lines.half, k) * lines.step;
        copy(block, k * lines.width, cells, start, lines.width);
    }
}

// Copies columns of a block to lines of a grid.
#[inline(always)]
#[tactic(auto, using(crate::proofs::Copies::half_small))]
fn scatter(cells: &mut [i128], lines: &Lines, apart: bool, block: &[i128])
    requires inside { IsInside lines.now (length cells.old) }
    requires block { length block.now ≡ 2 * lines.now.half * lines.now.width }
    ensures on { (x k : ℕ) → x < lines.now.width → k < 2 * lines.now.half
        → line_at cells.new lines.now x (sample_place apart lines.now.half k)
        ≡ column_of lines.now.width block.now x k }
    ensures off { (i : ℕ) → IsApart lines.now i → line_of cells.new i ≡ line_of cells.old i }
{
    for k in 0..2 * lines.half {
        let at = lines.start + sample_place(apart, lines.half, k) * lines.step;
        copy(cells, at, block, k * lines.width, lines.width);
    }
}

// Puts the two halves of each line together (ST 2042-1, synthesis), and halves the samples if that is wanted.
#[inline(always)]
fn merge(pass: Pass, cells: &mut [i128], lines: &Lines, block: &mut [i128])
    requires wavelet { pass.wavelet ≤ 6 }
    requires inside { IsInside lines.now (length cells.old) }
    requires block { length block.old ≡ 2 * lines.now.half * lines.now.width }
    requires small { AreSmall lines.now cells.old }
    ensures { IsMade (remade Synthesis pass.wavelet pass.shifted lines.now.half)
        lines.now cells.old cells.new }
{
    gather(cells, lines, true, block);
    vc_lift::synth_columns(pass.wavelet, block, lines.width, lines.half);
    halve(block, pass.shifted);
    scatter(cells, lines, false, block);
}

// Doubles the samples of each line if that is wanted, and takes it apart into two halves.
#[inline(always)]
fn part(pass: Pass, cells: &mut [i128], lines: &Lines, block: &mut [i128])
    requires wavelet { pass.wavelet ≤ 6 }
    requires inside { IsInside lines.now (length cells.old) }
    requires block { length block.old ≡ 2 * lines.now.half * lines.now.width }
    requires small { AreSmall lines.now cells.old }
    ensures { IsMade (remade Analysis pass.wavelet pass.shifted lines.now.half)
        lines.now cells.old cells.new }
{
    gather(cells, lines, false, block);
    double(block, pass.shifted);
    vc_lift::analyse_columns(pass.wavelet, block, lines.width, lines.half);
    scatter(cells, lines, true, block);
}

/// Puts lines together or takes them apart. The block is room to work in.
#[inline(always)]
pub(crate) fn remake(pass: Pass, cells: &mut [i128], lines: &Lines, block: &mut [i128])
    requires wavelet { pass.wavelet ≤ 6 }
    requires inside { IsInside lines.now (length cells.old) }
    requires block { length block.old ≡ 2 * lines.now.half * lines.now.width }
    requires small { AreSmall lines.now cells.old }
    ensures { IsMade (remade pass.direction pass.wavelet pass.shifted lines.now.half)
        lines.now cells.old cells.new }
{
    match pass.direction {
        Direction::Synthesis => merge(pass, cells, lines, block),
        Direction::Analysis => part(pass, cells, lines, block),
    }
}
