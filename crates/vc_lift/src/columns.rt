ghost use Rattle.std.specs.Prelude.{◌≡◌, ◌+◌, ◌-◌, ◌*◌, ◌/◌, ◌%◌, ◌^◌, ◌<◌, ◌≤◌, ℕ, All, length};
ghost use Rattle.std.specs.Prelude.{unsigned_abs};
ghost use Rattle.vc_types.specs.Lifting.{changed_by};
ghost use Rattle.vc_types.specs.Wavelets.{synthesised, analysed};
ghost use Rattle.vc_lift.specs.CountedSteps.{sum_met, change_at, lift, lift_all};
ghost use Rattle.vc_lift.specs.Growth.{IsWithin, IsLittle};
ghost use Rattle.vc_lift.specs.Steps.{counted_of};
ghost use Rattle.vc_lift.specs.StepLists.{steps_of};
ghost use Rattle.vc_lift.specs.Columns.{column_of, one_changed};
ghost use Rattle.vc_lift.specs.ColumnSums.{CanSum};

use crate::narrow::with_taps;
use crate::order::{analysis, step_at, step_count, synthesis};
use crate::step::Step;
use crate::steps::Steps;

/// Columns that stand side by side, row by row: how many, and half of the samples that each has.
#[derive(Clone, Copy)]
pub(crate) struct Columns {
    pub width: usize,
    pub half: usize,
}

// The sum of the taps, each times the sample that it meets beside sample number n of a column, where none
// reaches past the column's ends.
#[inline(always)]
fn weigh_inside(cells: &[i128], columns: Columns, step: &Step, n: usize, x: usize) -> i128
    requires can { CanSum (counted_of step.now) columns n x cells.now }
    requires left { step.now.back ≤ n }
    requires right { n + length step.now.taps.now ≤ columns.half + step.now.back }
    ensures value { result ≡ sum_met (counted_of step.now) columns.half
        (column_of columns.width cells.now x) n }
    ensures bound { unsigned_abs result < 2 ^ 126 }
{
    let first = (2 * (n - step.back) + (1 - step.parity)) * columns.width + x;
    let mut sum: i128 = 0;
    for j in 0..step.taps.len() {
        sum += i128::from(step.taps[j]) * cells[first + 2 * j * columns.width];
    }
    sum
}

// The same sum where taps may reach past the column's ends.
#[inline(never)]
fn weigh_edge(cells: &[i128], columns: Columns, step: &Step, n: usize, x: usize) -> i128
    requires { CanSum (counted_of step.now) columns n x cells.now }
    ensures value { result ≡ sum_met (counted_of step.now) columns.half
        (column_of columns.width cells.now x) n }
    ensures bound { unsigned_abs result < 2 ^ 126 }
{
    let mut sum: i128 = 0;
    for j in 0..step.taps.len() {
        let met = (n + j).saturating_sub(step.back).min(columns.half - 1);
        sum += i128::from(step.taps[j]) * cells[(2 * met + (1 - step.parity)) * columns.width + x];
    }
    sum
}

#[inline(always)]
fn weigh(cells: &[i128], columns: Columns, step: &Step, n: usize, x: usize) -> i128
    requires { CanSum (counted_of step.now) columns n x cells.now }
    ensures value { result ≡ sum_met (counted_of step.now) columns.half
        (column_of columns.width cells.now x) n }
    ensures bound { unsigned_abs result < 2 ^ 126 }
{
    if step.back <= n && n + step.taps.len() <= columns.half + step.back {
        weigh_inside(cells, columns, step, n, x)
    } else {
        weigh_edge(cells, columns, step, n, x)
    }
}

// By how much the step changes sample number n of a column.
#[inline(always)]
fn change_at(cells: &[i128], columns: Columns, step: &Step, n: usize, x: usize) -> i128
    requires { CanSum (counted_of step.now) columns n x cells.now }
    ensures value { result ≡ change_at (counted_of step.now) columns.half
        (column_of columns.width cells.now x) n }
    ensures bound { unsigned_abs result ≤ 2 ^ 126 + 2 ^ 12 }
{
    let rounding = (1u32 << step.shift) / 2;
    (weigh(cells, columns, step, n, x) + i128::from(rounding)) >> step.shift
}

#[inline(always)]
fn changed_by(adds: bool, sample: i128, change: i128) -> i128
    requires sample { unsigned_abs sample ≤ 2 ^ 112 }
    requires change { unsigned_abs change ≤ 2 ^ 126 + 2 ^ 12 }
    ensures { result ≡ changed_by adds sample change }
{
    if adds {
        sample + change
    } else {
        sample - change
    }
}

// Changes sample number n of each column.
#[inline(always)]
fn change_row(cells: &mut [i128], columns: Columns, step: &Step, n: usize)
    requires whole { length cells.old ≡ 2 * columns.half * columns.width }
    requires at { n < columns.half }
    requires met { (x : ℕ) → x < columns.width
        → IsWithin (column_of columns.width cells.old x) columns.half
        (1 - step.now.parity) (2 ^ 112) }
    requires changed { (x : ℕ) → x < columns.width
        → unsigned_abs (column_of columns.width cells.old x (2 * n + step.now.parity)) ≤ 2 ^ 112 }
    ensures { (x : ℕ) → x < columns.width
        → column_of columns.width cells.new x
        ≡ one_changed (counted_of step.now) columns.half n
        (column_of columns.width cells.old x) }
{
    for x in 0..columns.width {
        let change = change_at(cells, columns, step, n, x);
        let k = (2 * n + step.parity) * columns.width + x;
        cells[k] = changed_by(step.adds, cells[k], change);
    }
}

// Makes the step on each column.
#[inline(always)]
fn sweep(cells: &mut [i128], columns: Columns, step: &Step)
    requires whole { length cells.old ≡ 2 * columns.half * columns.width }
    requires little { (x : ℕ) → x < columns.width
        → IsLittle (column_of columns.width cells.old x) columns.half (2 ^ 112) }
    ensures { (x : ℕ) → x < columns.width
        → column_of columns.width cells.new x
        ≡ lift (counted_of step.now) columns.half (column_of columns.width cells.old x) }
{
    for n in 0..columns.half {
        change_row(cells, columns, step, n);
    }
}

// The step with a slice of its taps whose length the compiler sees, if they are so many.
#[inline(always)]
fn with_count<'a>(step: &Step<'a>, count: usize) -> Step<'a>
    requires { length step.now.taps.now ≡ count }
    ensures { counted_of result ≡ counted_of step.now }
{
    Step {
        parity: step.parity,
        adds: step.adds,
        taps: &step.taps[..count],
        back: step.back,
        shift: step.shift,
    }
}

// Makes the step on each column, with a loop over the taps for each number of them that the table has, so
// that it can be unrolled.
#[inline(always)]
fn lift_counted(cells: &mut [i128], columns: Columns, step: &Step)
    requires whole { length cells.old ≡ 2 * columns.half * columns.width }
    requires little { (x : ℕ) → x < columns.width
        → IsLittle (column_of columns.width cells.old x) columns.half (2 ^ 112) }
    ensures { (x : ℕ) → x < columns.width
        → column_of columns.width cells.new x
        ≡ lift (counted_of step.now) columns.half (column_of columns.width cells.old x) }
{
    match step.taps.len() {
        2 => sweep(cells, columns, &with_count(step, 2)),
        8 => sweep(cells, columns, &with_count(step, 8)),
        _ => sweep(cells, columns, step),
    }
}

// The same, with a loop of its own for the taps of the wavelets 0 to 4, for which nothing is multiplied.
#[inline(always)]
fn lift(cells: &mut [i128], columns: Columns, step: &Step)
    requires whole { length cells.old ≡ 2 * columns.half * columns.width }
    requires little { (x : ℕ) → x < columns.width
        → IsLittle (column_of columns.width cells.old x) columns.half (2 ^ 112) }
    ensures { (x : ℕ) → x < columns.width
        → column_of columns.width cells.new x
        ≡ lift (counted_of step.now) columns.half (column_of columns.width cells.old x) }
{
    let one: &[i32] = &[1];
    let two: &[i32] = &[1, 1];
    let four: &[i32] = &[-1, 9, 9, -1];
    if step.taps == two {
        sweep(cells, columns, &with_taps(step, two));
    } else if step.taps == four {
        sweep(cells, columns, &with_taps(step, four));
    } else if step.taps == one {
        sweep(cells, columns, &with_taps(step, one));
    } else {
        lift_counted(cells, columns, step);
    }
}

// Makes steps on each column, one after another.
#[inline(always)]
pub(crate) fn run(cells: &mut [i128], columns: Columns, steps: &Steps)
    requires whole { length cells.old ≡ 2 * columns.half * columns.width }
    requires some { 0 < columns.half }
    requires small { All (λ z. unsigned_abs z < 2 ^ 108) cells.old }
    ensures { (x : ℕ) → x < columns.width
        → column_of columns.width cells.new x
        ≡ lift_all (steps_of steps.now) columns.half (column_of columns.width cells.old x) }
{
    for i in 0..step_count(steps) {
        let step = step_at(steps, i);
        lift(cells, columns, &step);
    }
}

/// Synthesises columns of 2 * half samples that stand side by side, row by row, `width` in a row (ST 2042-1,
/// vertical synthesis). Samples have magnitudes below 2 ^ 108.
pub fn synth_columns(wavelet: u8, cells: &mut [i128], width: usize, half: usize)
    requires wavelet { wavelet ≤ 6 }
    requires some { 0 < half }
    requires whole { length cells.old ≡ 2 * half * width }
    requires small { All (λ z. unsigned_abs z < 2 ^ 108) cells.old }
    ensures value { (x : ℕ) → x < width
        → column_of width cells.new x
        ≡ synthesised wavelet (2 * half) (column_of width cells.old x) }
{
    // The compiler makes a loop of its own for one column.
    if width == 1 {
        run(cells, Columns { width: 1, half }, &synthesis(wavelet))
    } else {
        run(cells, Columns { width, half }, &synthesis(wavelet))
    }
}

/// Analyses columns of 2 * half samples that stand side by side, row by row, `width` in a row. Samples have
/// magnitudes below 2 ^ 108.
pub fn analyse_columns(wavelet: u8, cells: &mut [i128], width: usize, half: usize)
    requires wavelet { wavelet ≤ 6 }
    requires some { 0 < half }
    requires whole { length cells.old ≡ 2 * half * width }
    requires small { All (λ z. unsigned_abs z < 2 ^ 108) cells.old }
    ensures value { (x : ℕ) → x < width
        → column_of width cells.new x ≡ analysed wavelet (2 * half) (column_of width cells.old x) }
{
    run(cells, Columns { width, half }, &analysis(wavelet))
}
