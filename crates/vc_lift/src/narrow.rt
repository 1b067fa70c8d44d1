ghost use Rattle.std.specs.Prelude.{◌≡◌, ◌+◌, ◌-◌, ◌*◌, ◌/◌, ◌^◌, ◌<◌, ◌≤◌, ℕ, length, unsigned_abs};
ghost use Rattle.vc_types.specs.Lifting.{line_of, half_of, changed_by};
ghost use Rattle.vc_types.specs.Wavelets.{synthesised, analysed};
ghost use Rattle.vc_lift.specs.CountedSteps.{sum_met, change_at, lift, lift_all, lift_between};
ghost use Rattle.vc_lift.specs.Ranges.{HasRange, StaysNarrow, counted_synthesis};
ghost use Rattle.vc_lift.specs.Ranges.{counted_analysis};
ghost use Rattle.vc_lift.specs.Steps.{counted_of};
ghost use Rattle.vc_lift.specs.StepLists.{steps_of};
ghost use Rattle.vc_lift.specs.Halves.{line_in, AreLines, IsBeside, AreMade};
ghost use Rattle.vc_lift.specs.Runs.{CanWeigh, CanChange, CanChangeEach, IsChanged};

use crate::halves::{Halves, place};
use crate::order::{analysis, step_at, step_count, synthesis};
use crate::step::Step;
use crate::steps::Steps;

// The sum of the taps, each times the sample that it meets beside sample number n of line x. What is the same
// for all lines is reckoned once by the compiler.
#[inline(always)]
fn weigh(cells: &[i32], halves: &Halves, step: &Step, n: usize, x: usize) -> i32
    requires { CanWeigh (counted_of step.now) halves.now n x cells.now }
    ensures value { result ≡ sum_met (counted_of step.now) halves.now.half
        (line_in halves.now cells.now x) n }
    ensures bound { unsigned_abs result + half_of step.now.shift < 2 ^ 31 }
{
    let other = 1 - step.parity;
    let mut sum: i32 = 0;
    for j in 0..step.taps.len() {
        let met = (n + j).saturating_sub(step.back).min(halves.half - 1);
        sum += step.taps[j] * cells[place(halves, other, met) + x];
    }
    sum
}

// By how much the step changes sample number n of line x.
#[inline(always)]
fn change_at(cells: &[i32], halves: &Halves, step: &Step, n: usize, x: usize) -> i32
    requires { CanWeigh (counted_of step.now) halves.now n x cells.now }
    ensures value { result ≡ change_at (counted_of step.now) halves.now.half
        (line_in halves.now cells.now x) n }
    ensures bound { unsigned_abs
        (line_in halves.now cells.now x (2 * n + step.now.parity)) + unsigned_abs result < 2 ^ 31 }
{
    let rounding = (1u32 << step.shift) / 2;
    (weigh(cells, halves, step, n, x) + rounding as i32) >> step.shift
}

#[inline(always)]
fn changed_by(adds: bool, sample: i32, change: i32) -> i32
    requires { unsigned_abs sample + unsigned_abs change < 2 ^ 31 }
    ensures { result ≡ changed_by adds sample change }
{
    if adds {
        sample + change
    } else {
        sample - change
    }
}

// Makes the step on so many cells that stand side by side, from sample number n of the first line on.
#[inline(always)]
fn change_cells(cells: &mut [i32], halves: &Halves, step: &Step, n: usize, width: usize)
    requires { CanChange (counted_of step.now) halves.now n width cells.old }
    ensures { IsChanged (counted_of step.now) halves.now n width cells.old cells.new }
{
    let at = place(halves, step.parity, n);
    for x in 0..width {
        let change = change_at(cells, halves, step, n, x);
        cells[at + x] = changed_by(step.adds, cells[at + x], change);
    }
}

/// The step with taps whose numbers the compiler sees, if they are these.
#[inline(always)]
pub(crate) fn with_taps<'a>(step: &Step, taps: &'a [i32]) -> Step<'a>
    requires { step.now.taps.now ≡ taps.now }
    ensures { counted_of result ≡ counted_of step.now }
{
    Step {
        parity: step.parity,
        adds: step.adds,
        taps,
        back: step.back,
        shift: step.shift,
    }
}

// The step with its sign as the compiler sees it.
#[inline(always)]
fn with_sign<'a>(step: &Step<'a>, adds: bool) -> Step<'a>
    requires { step.now.adds ≡ adds }
    ensures { counted_of result ≡ counted_of step.now }
{
    Step {
        parity: step.parity,
        adds,
        taps: step.taps,
        back: step.back,
        shift: step.shift,
    }
}

// Makes the step on so many cells, by a loop for its sign.
#[inline(always)]
fn change_signed(cells: &mut [i32], halves: &Halves, step: &Step, n: usize, width: usize)
    requires { CanChange (counted_of step.now) halves.now n width cells.old }
    ensures { IsChanged (counted_of step.now) halves.now n width cells.old cells.new }
{
    if step.adds {
        change_cells(cells, halves, &with_sign(step, true), n, width);
    } else {
        change_cells(cells, halves, &with_sign(step, false), n, width);
    }
}

// The same, with a loop of its own for the taps of the wavelets 5 and 6: eight of them, or one weight for two
// samples.
#[inline(always)]
fn change_weighted(cells: &mut [i32], halves: &Halves, step: &Step, n: usize, width: usize)
    requires { CanChange (counted_of step.now) halves.now n width cells.old }
    ensures { IsChanged (counted_of step.now) halves.now n width cells.old cells.new }
{
    let first = if step.taps.is_empty() {
        0
    } else {
        step.taps[0]
    };
    let twice: &[i32] = &[first, first];
    let odd: &[i32] = &[-2, 10, -25, 81, 81, -25, 10, -2];
    let even: &[i32] = &[-8, 21, -46, 161, 161, -46, 21, -8];
    if step.taps == twice {
        change_signed(cells, halves, &with_taps(step, twice), n, width);
    } else if step.taps == odd {
        change_signed(cells, halves, &with_taps(step, odd), n, width);
    } else if step.taps == even {
        change_signed(cells, halves, &with_taps(step, even), n, width);
    } else {
        change_signed(cells, halves, step, n, width);
    }
}

// The same, with a loop of its own for taps that are small enough for 32 bits to serve. It is no part of a
// loop over rows: in one, the compiler would ask whether any row lies over another.
#[inline(never)]
fn change_run(cells: &mut [i32], halves: &Halves, step: &Step, n: usize, width: usize)
    requires { CanChange (counted_of step.now) halves.now n width cells.old }
    ensures { IsChanged (counted_of step.now) halves.now n width cells.old cells.new }
{
    // No cell lies over these numbers, so they stay in registers.
    let halves = &Halves {
        even: halves.even,
        odd: halves.odd,
        pitch: halves.pitch,
        half: halves.half,
    };
    let one: &[i32] = &[1];
    let two: &[i32] = &[1, 1];
    let four: &[i32] = &[-1, 9, 9, -1];
    if step.taps == two {
        change_signed(cells, halves, &with_taps(step, two), n, width);
    } else if step.taps == four {
        change_signed(cells, halves, &with_taps(step, four), n, width);
    } else if step.taps == one {
        change_signed(cells, halves, &with_taps(step, one), n, width);
    } else {
        change_weighted(cells, halves, step, n, width);
    }
}

// Makes the step on samples number lo to hi - 1 of each line, one number after another.
#[inline(always)]
fn change_each(cells: &mut [i32], halves: &Halves, step: &Step, lo: usize, hi: usize, width: usize)
    requires { CanChangeEach (counted_of step.now) halves.now lo hi width cells.old }
    ensures { AreMade (lift_between (counted_of step.now) halves.now.half lo hi)
        halves.now width cells.old cells.new }
{
    for n in lo..hi {
        change_run(cells, halves, step, n, width);
    }
}

// Makes the step on samples number lo to hi - 1 of a line whose halves are whole, if there are any. All of
// them have all their taps inside the line.
#[inline(always)]
fn change_inside(cells: &mut [i32], halves: &Halves, step: &Step, lo: usize, hi: usize)
    requires each { CanChangeEach (counted_of step.now) halves.now lo hi 1 cells.old }
    requires whole { halves.now.pitch ≡ 1 }
    requires left { lo < hi → step.now.back ≤ lo }
    requires right { lo < hi → hi + length step.now.taps.now ≤ halves.now.half + step.now.back + 1 }
    ensures { AreMade (lift_between (counted_of step.now) halves.now.half lo hi)
        halves.now 1 cells.old cells.new }
{
    if lo < hi {
        change_run(cells, halves, step, lo, hi - lo);
    }
}

// Makes the step on a line whose halves are whole: on the samples at its ends one by one, and on those
// between them at once.
#[inline(always)]
fn change_line(cells: &mut [i32], halves: &Halves, step: &Step)
    requires lines { AreLines halves.now 1 (length cells.old) }
    requires whole { halves.now.pitch ≡ 1 }
    requires range { (x : ℕ) → x < 1
        → HasRange (2 ^ 31) (counted_of step.now) halves.now.half (line_in halves.now cells.old x) }
    ensures { AreMade (lift (counted_of step.now) halves.now.half) halves.now 1 cells.old cells.new }
{
    let half = halves.half;
    let first = step.back.min(half);
    let ahead = step.taps.len().saturating_sub(step.back).saturating_sub(1);
    let last = half.saturating_sub(ahead).max(first);
    change_each(cells, halves, step, 0, first, 1);
    change_inside(cells, halves, step, first, last);
    change_each(cells, halves, step, last, half, 1);
}

// Makes the step on each line: along it where its halves are whole, and else on the same sample of all lines
// at once.
fn lift(cells: &mut [i32], halves: &Halves, step: &Step, width: usize)
    requires lines { AreLines halves.now width (length cells.old) }
    requires range { (x : ℕ) → x < width
        → HasRange (2 ^ 31) (counted_of step.now) halves.now.half (line_in halves.now cells.old x) }
    ensures { AreMade (lift (counted_of step.now) halves.now.half)
        halves.now width cells.old cells.new }
{
    if halves.pitch == 1 && width == 1 {
        change_line(cells, halves, step);
    } else {
        change_each(cells, halves, step, 0, halves.half, width);
    }
}

// Makes steps on each line, one after another.
fn run(cells: &mut [i32], halves: &Halves, width: usize, steps: &Steps)
    requires lines { AreLines halves.now width (length cells.old) }
    requires narrow { (x : ℕ) → x < width
        → StaysNarrow (steps_of steps.now) halves.now.half (line_in halves.now cells.old x) }
    ensures { AreMade (lift_all (steps_of steps.now) halves.now.half)
        halves.now width cells.old cells.new }
{
    for i in 0..step_count(steps) {
        let step = step_at(steps, i);
        lift(cells, halves, &step, width);
    }
}

/// Synthesises lines that stand side by side, in 32 bits (ST 2042-1, one-dimensional synthesis). Magnitudes
/// are such that no step leaves 32 bits, as `narrow_bound` tells.
pub fn synth_narrow(wavelet: u8, cells: &mut [i32], halves: &Halves, width: usize)
    requires wavelet { wavelet ≤ 6 }
    requires lines { AreLines halves.now width (length cells.old) }
    requires narrow { (x : ℕ) → x < width
        → StaysNarrow (counted_synthesis wavelet) halves.now.half (line_in halves.now cells.old x) }
    ensures on { (x k : ℕ) → x < width → k < 2 * halves.now.half
        → line_in halves.now cells.new x k
        ≡ synthesised wavelet (2 * halves.now.half) (line_in halves.now cells.old x) k }
    ensures off { (i : ℕ) → IsBeside halves.now width i
        → line_of cells.new i ≡ line_of cells.old i }
{
    run(cells, halves, width, &synthesis(wavelet))
}

/// Analyses lines that stand side by side, in 32 bits. Magnitudes are such that no step leaves 32 bits, as
/// `narrow_analysis_bound` tells.
pub fn analyse_narrow(wavelet: u8, cells: &mut [i32], halves: &Halves, width: usize)
    requires wavelet { wavelet ≤ 6 }
    requires lines { AreLines halves.now width (length cells.old) }
    requires narrow { (x : ℕ) → x < width
        → StaysNarrow (counted_analysis wavelet) halves.now.half (line_in halves.now cells.old x) }
    ensures on { (x k : ℕ) → x < width → k < 2 * halves.now.half
        → line_in halves.now cells.new x k
        ≡ analysed wavelet (2 * halves.now.half) (line_in halves.now cells.old x) k }
    ensures off { (i : ℕ) → IsBeside halves.now width i
        → line_of cells.new i ≡ line_of cells.old i }
{
    run(cells, halves, width, &analysis(wavelet))
}
