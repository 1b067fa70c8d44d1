ghost use Rattle.std.specs.Prelude.{◌≡◌, ◌≢◌, ◌+◌, ◌*◌, ◌<◌, ◌≤◌, ℕ, length};
ghost use Rattle.vc_types.specs.Lifting.{line_of};
ghost use Rattle.vc_types.specs.OfPlan.{padded_height, padded_width};
ghost use Rattle.vc_types.specs.Slices.{coefficients_of};
ghost use Rattle.vc_types.specs.Subbands.{area};
ghost use Rattle.vc_types.specs.TransformParameters.{parameters_of};
ghost use Rattle.vc_geometry.specs.CellRects.{cell_in};
ghost use Rattle.vc_geometry.specs.OfPlan.{run_coefficient_count};
ghost use Rattle.picture_build.specs.Halves.{FillsRunIn, FillsRunsIn};
ghost use Rattle.picture_build.specs.Waiting.{AreWaitingRuns, FillsRuns};

use crate::cells::copy_row;
use crate::run_rects::RunRects;
use crate::waiting::WaitingRun;
use std::thread::{Threads, join_mut};
use vc_geometry::{CellRect, bands as band_count, padded};
use vc_types::{Component, Plan};

// So many rows of cells, from one of them on.
#[derive(Clone, Copy)]
struct CellRows {
    top: u32,
    count: u32,
    ghost few: { top + count ≤ 8192 },
}

/// Puts runs at their places in the cells of a component: in those of the upper half and in those of the
/// lower one side by side, by join.
pub(crate) fn place_halves<H: Threads>(
    rt: &H,
    plan: &Plan,
    c: Component,
    runs: &[WaitingRun],
    cells: &mut [i32],
)
    requires runs { AreWaitingRuns (parameters_of plan.now) runs.now }
    requires cells { length cells.old ≡ padded_height plan.now c * padded_width plan.now c }
    ensures { FillsRuns (parameters_of plan.now) c runs.now cells.old cells.new }
{
    let (width, height) = padded(plan, c);
    let half = height / 2;
    let upper_rows = CellRows {
        top: 0,
        count: half,
    };
    let lower_rows = CellRows {
        top: half,
        count: height - half,
    };
    let (upper, lower) = cells.split_at_mut(half as usize * width as usize);
    join_mut(
        rt,
        &mut || place_runs_in(plan, c, runs, upper_rows, upper),
        &mut || place_runs_in(plan, c, runs, lower_rows, lower),
    );
}

// Puts what lies in some rows of runs at its places there, one run after another.
fn place_runs_in(plan: &Plan, c: Component, runs: &[WaitingRun], rows: CellRows, cells: &mut [i32])
    requires runs { AreWaitingRuns (parameters_of plan.now) runs.now }
    requires cells { length cells.old ≡ rows.count * padded_width plan.now c }
    ensures { FillsRunsIn (parameters_of plan.now) c (rows.top * padded_width plan.now c) runs.now
        cells.old cells.new }
{
    for waiting in runs {
        let run = RunRects::new(plan, c, waiting.first, waiting.count);
        place_run_in(&run, waiting.strip.component(c), rows, cells);
    }
}

// The same of one run: of each subband's rectangle the rows that lie there.
fn place_run_in(run: &RunRects, strip: &[i32], rows: CellRows, cells: &mut [i32])
    requires strip { length strip.now
        ≡ run_coefficient_count run.now.plan run.now.component run.now.first run.now.count }
    requires cells { length cells.old ≡ rows.count * padded_width run.now.plan run.now.component }
    ensures { FillsRunIn (parameters_of run.now.plan) run.now.component run.now.first run.now.count
        (rows.top * padded_width run.now.plan run.now.component) strip.now cells.old cells.new }
{
    let (width, _) = padded(&run.plan, run.component);
    let mut from = 0;
    for b in 0..band_count(&run.plan) {
        let rect = run.rect(b);
        let to = CellRect {
            rect,
            stride: width as usize,
        };
        place_rows(&to, rows, strip, from, cells);
        from += rect.width as usize * rect.height as usize;
    }
}

// Puts numbers, from one of them on, into those rows of a rectangle that lie there.
fn place_rows(to: &CellRect, rows: CellRows, numbers: &[i32], from: usize, cells: &mut [i32])
    requires cells { length cells.old ≡ rows.count * to.now.stride }
    requires from { from + area to.now.rect ≤ length numbers.now }
    ensures on { (j m : ℕ) → j < area to.now.rect → m < length cells.old
        → rows.top * to.now.stride + m ≡ cell_in to.now j
        → line_of cells.new m ≡ line_of numbers.now (from + j) }
    ensures off { (m : ℕ) → ((j : ℕ) → j < area to.now.rect
        → rows.top * to.now.stride + m ≢ cell_in to.now j)
        → line_of cells.new m ≡ line_of cells.old m }
    ensures length { length cells.new ≡ length cells.old }
{
    let width = to.rect.width as usize;
    let bottom = (to.rect.y + to.rect.height).min(rows.top + rows.count);
    for y in to.rect.y.max(rows.top)..bottom {
        let at = (y - rows.top) as usize * to.stride + to.rect.x as usize;
        let row = (y - to.rect.y) as usize;
        copy_row(cells, at, numbers, from + row * width, width);
    }
}
