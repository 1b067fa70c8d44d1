ghost use Rattle.std.specs.Prelude.{◌≡◌, ◌≢◌, ◌+◌, ◌*◌, ◌<◌, ◌≤◌, ℕ, length, true, false};
ghost use Rattle.std.specs.Prelude.{Some, Ok, OnOk};
ghost use Rattle.std.specs.List.{list_any};
ghost use Rattle.vc_types.specs.declared.video.Component.{Component};
ghost use Rattle.vc_types.specs.declared.video.Component.TheVariants.{Y, C1, C2};
ghost use Rattle.vc_types.specs.Lifting.{line_of};
ghost use Rattle.vc_types.specs.Slices.{coefficients_of, decoded_slice, in_range, is_large, slice_length};
ghost use Rattle.vc_types.specs.Subbands.{area};
ghost use Rattle.vc_types.specs.TransformParameters.{parameters_of};
ghost use Rattle.vc_slice.specs.Bands.{coefficient_count, coefficients_of_block};
ghost use Rattle.vc_geometry.specs.OfPlan.{run_coefficient_count};
ghost use Rattle.vc_slice.specs.Coded.{coded_of};
ghost use Rattle.vc_geometry.specs.CellRects.{ChangesRect, LiesIn, cell_in};
ghost use Rattle.picture_build.specs.Kept.{ChangesOnly, FillsRun, FillsSlice};
ghost use Rattle.picture_build.specs.Waiting.{AreWaitingRuns, FillsRuns};
ghost use Rattle.picture_build.specs.PartsKept.{place_kept, AreCells, ChangesPart, FillsPart};
ghost use Rattle.vc_types.specs.OfPlan.{AreSliceCoefficients, all_coefficients, padded_height, padded_width};
ghost use Rattle.vc_types.specs.OfPlan.{slice_coefficient_count, slice_coefficients, slice_count};

use crate::cells::CoefficientCells;
use crate::run_rects::RunRects;
use crate::waiting::WaitingRun;
use crate::wide::{place_wide, put_wide_numbers};
use std::thread::{Threads, join_mut};
use vc_geometry::{CellRect, bands as band_count, padded};
use vc_slice::{
    CodedSlice, CoefficientList, SliceBands, SliceCoeffs, SliceParts, TooWide, read_numbers,
};
use vc_types::{Component, Plan};

/// Puts a slice's coefficients at their places in the cells of the three components.
pub(crate) fn fill_slice(
    plan: &Plan,
    slice: u32,
    coeffs: &SliceCoeffs,
    numbers: &mut [i32],
    y: &mut CoefficientCells,
    c1: &mut CoefficientCells,
    c2: &mut CoefficientCells,
)
    requires slice { slice < slice_count plan.now }
    requires whole { AreSliceCoefficients plan.now slice coeffs.now }
    requires room { (c : Component)
        → slice_coefficient_count plan.now c slice ≤ length numbers.old }
    requires y { length y.old
        ≡ padded_height plan.now Y * padded_width plan.now Y }
    requires c1 { length c1.old
        ≡ padded_height plan.now C1 * padded_width plan.now C1 }
    requires c2 { length c2.old
        ≡ padded_height plan.now C2 * padded_width plan.now C2 }
    ensures y { FillsSlice (parameters_of plan.now) Y slice coeffs.now.y y.old y.new }
    ensures c1 { FillsSlice (parameters_of plan.now) C1 slice coeffs.now.c1 c1.old c1.new }
    ensures c2 { FillsSlice (parameters_of plan.now) C2 slice coeffs.now.c2 c2.old c2.new }
{
    let parts = SliceParts::new(plan, slice);
    fill_component(&parts, Component::Y, coeffs, numbers, y);
    fill_component(&parts, Component::C1, coeffs, numbers, c1);
    fill_component(&parts, Component::C2, coeffs, numbers, c2);
}

fn fill_component(
    parts: &SliceParts,
    c: Component,
    coeffs: &SliceCoeffs,
    numbers: &mut [i32],
    cells: &mut CoefficientCells,
)
    requires whole { AreSliceCoefficients parts.now.plan parts.now.slice coeffs.now }
    requires room { coefficient_count parts.now c ≤ length numbers.old }
    requires cells { AreCells parts.now c cells.old }
    ensures cells { FillsPart parts.now c (coefficients_of coeffs.now c) cells.old cells.new }
{
    match coeffs.component(c) {
        CoefficientList::Narrow(coeffs) => place_numbers(parts, c, coeffs, cells),
        CoefficientList::Wide(coeffs) => fill_wide(parts, c, coeffs, numbers, cells),
    }
}

// The same of coefficients that have 64 bits each, though they may all fit 32.
fn fill_wide(
    parts: &SliceParts,
    c: Component,
    coeffs: &[i64],
    numbers: &mut [i32],
    cells: &mut CoefficientCells,
)
    requires count { length coeffs.now ≡ coefficient_count parts.now c }
    requires small { list_any is_large coeffs.now ≡ false }
    requires room { coefficient_count parts.now c ≤ length numbers.old }
    requires cells { AreCells parts.now c cells.old }
    ensures { FillsPart parts.now c coeffs.now cells.old cells.new }
{
    if narrowed(coeffs, numbers) {
        place_numbers(parts, c, numbers, cells);
    } else {
        place_wide(parts, c, coeffs, cells);
    }
}

/// Reads the blocks of a slice to their coefficients' places in the cells of the three components. Where a
/// coefficient may be too wide, only cells of this slice were changed.
pub(crate) fn put_blocks(
    plan: &Plan,
    slice: u32,
    coded: &CodedSlice<'_>,
    numbers: &mut [i32],
    y: &mut CoefficientCells,
    c1: &mut CoefficientCells,
    c2: &mut CoefficientCells,
) -> Result<(), TooWide>
    requires slice { slice < slice_count plan.now }
    requires index { coded.now.index ≤ 127 }
    requires room { (c : Component)
        → slice_coefficient_count plan.now c slice + 8 ≤ length numbers.old }
    requires y { length y.old
        ≡ padded_height plan.now Y * padded_width plan.now Y }
    requires c1 { length c1.old
        ≡ padded_height plan.now C1 * padded_width plan.now C1 }
    requires c2 { length c2.old
        ≡ padded_height plan.now C2 * padded_width plan.now C2 }
    ensures y { ChangesOnly (parameters_of plan.now) Y slice y.old y.new }
    ensures c1 { ChangesOnly (parameters_of plan.now) C1 slice c1.old c1.new }
    ensures c2 { ChangesOnly (parameters_of plan.now) C2 slice c2.old c2.new }
    ensures filled { OnOk result (
        FillsSlice (parameters_of plan.now) Y slice
        (all_coefficients plan.now slice (coded_of coded.now)).y y.old y.new
        × FillsSlice (parameters_of plan.now) C1 slice
        (all_coefficients plan.now slice (coded_of coded.now)).c1 c1.old c1.new
        × FillsSlice (parameters_of plan.now) C2 slice
        (all_coefficients plan.now slice (coded_of coded.now)).c2 c2.old c2.new) }
    ensures sound { OnOk result
        (in_range (all_coefficients plan.now slice (coded_of coded.now))
        ≡ Ok (all_coefficients plan.now slice (coded_of coded.now))) }
{
    let parts = SliceParts::new(plan, slice);
    let bands = SliceBands::new(&parts, coded.index);
    put_block(&bands, Component::Y, coded.y, numbers, y)?;
    put_block(&bands, Component::C1, coded.c1, numbers, c1)?;
    put_block(&bands, Component::C2, coded.c2, numbers, c2)
}

fn put_block(
    bands: &SliceBands,
    c: Component,
    block: &[u8],
    numbers: &mut [i32],
    cells: &mut CoefficientCells,
) -> Result<(), TooWide>
    requires room { coefficient_count bands.now.parts.now c + 8 ≤ length numbers.old }
    requires cells { AreCells bands.now.parts.now c cells.old }
    ensures only { ChangesPart bands.now.parts.now c cells.old cells.new }
    ensures filled { OnOk result (FillsPart bands.now.parts.now c
        (coefficients_of_block bands.now c block.now) cells.old cells.new) }
    ensures sound { OnOk result
        (list_any is_large (coefficients_of_block bands.now c block.now) ≡ false) }
{
    let greatest = read_numbers(bands, c, block, numbers)?;
    match cells.put_numbers(bands, c, numbers, greatest) {
        Ok(()) => Ok(()),
        Err(TooWide) => put_wide_numbers(bands, c, numbers, greatest, cells),
    }
}

// Copies coefficients to 32 bits each, as long as they fit.
fn narrowed(coeffs: &[i64], numbers: &mut [i32]) -> bool
    requires { length coeffs.now ≤ length numbers.old }
    ensures value { result ≡ true → (i : ℕ) → i < length coeffs.now
        → line_of numbers.new i ≡ line_of coeffs.now i }
    ensures length { length numbers.new ≡ length numbers.old }
{
    for i in 0..coeffs.len() {
        let Ok(number) = i32::try_from(coeffs[i]) else {
            return false;
        };
        numbers[i] = number;
    }
    true
}

// Puts a component's coefficients at their places, where they have 32 bits each.
fn place_numbers(parts: &SliceParts, c: Component, numbers: &[i32], cells: &mut CoefficientCells)
    requires count { coefficient_count parts.now c ≤ length numbers.now }
    requires cells { AreCells parts.now c cells.old }
    ensures on { (i : ℕ) → i < coefficient_count parts.now c
        → line_of cells.new (place_kept parts.now c i) ≡ line_of numbers.now i }
    ensures off { (k : ℕ) → ((i : ℕ) → i < coefficient_count parts.now c
        → k ≢ place_kept parts.now c i) → line_of cells.new k ≡ line_of cells.old k }
    ensures length { length cells.new ≡ length cells.old }
{
    let (width, _) = padded(&parts.plan, c);
    let mut from = 0;
    for b in 0..band_count(&parts.plan) {
        let rect = parts.rect(c, b);
        let to = CellRect {
            rect,
            stride: width as usize,
        };
        place_rect(&to, numbers, from, cells);
        from += rect.width as usize * rect.height as usize;
    }
}

// Puts numbers, from one of them on, into a rectangle of cells, row by row.
fn place_rect(to: &CellRect, numbers: &[i32], from: usize, cells: &mut CoefficientCells)
    requires cells { LiesIn to.now cells.old }
    requires from { from + area to.now.rect ≤ length numbers.now }
    ensures on { (j : ℕ) → j < area to.now.rect
        → line_of cells.new (cell_in to.now j) ≡ line_of numbers.now (from + j) }
    ensures off { ChangesRect to.now cells.old cells.new }
    ensures length { length cells.new ≡ length cells.old }
{
    let width = to.rect.width as usize;
    for row in 0..to.rect.height as usize {
        let at = (to.rect.y as usize + row) * to.stride + to.rect.x as usize;
        cells.put_row(at, numbers, from + row * width, width);
    }
}

/// Puts runs at their places in the cells of a component, one after another.
pub(crate) fn place_runs(
    plan: &Plan,
    c: Component,
    runs: &[WaitingRun],
    cells: &mut CoefficientCells,
)
    requires runs { AreWaitingRuns (parameters_of plan.now) runs.now }
    requires cells { length cells.old ≡ padded_height plan.now c * padded_width plan.now c }
    ensures { FillsRuns (parameters_of plan.now) c runs.now cells.old cells.new }
{
    for waiting in runs {
        let run = RunRects::new(plan, c, waiting.first, waiting.count);
        place_run(&run, waiting.strip.component(c), cells);
    }
}

/// The same of the three components, side by side, by join: luma's in two halves.
pub(crate) fn place_runs_joined<H: Threads>(
    rt: &H,
    plan: &Plan,
    runs: &[WaitingRun],
    y: &mut CoefficientCells,
    c1: &mut CoefficientCells,
    c2: &mut CoefficientCells,
)
    requires runs { AreWaitingRuns (parameters_of plan.now) runs.now }
    requires y { length y.old ≡ padded_height plan.now Y * padded_width plan.now Y }
    requires c1 { length c1.old ≡ padded_height plan.now C1 * padded_width plan.now C1 }
    requires c2 { length c2.old ≡ padded_height plan.now C2 * padded_width plan.now C2 }
    ensures y { FillsRuns (parameters_of plan.now) Y runs.now y.old y.new }
    ensures c1 { FillsRuns (parameters_of plan.now) C1 runs.now c1.old c1.new }
    ensures c2 { FillsRuns (parameters_of plan.now) C2 runs.now c2.old c2.new }
{
    join_mut(
        rt,
        &mut || place_runs(plan, Component::C1, runs, c1),
        &mut || place_beside(rt, plan, runs, c2, y),
    );
}

// Those of C2 and luma, side by side.
fn place_beside<H: Threads>(
    rt: &H,
    plan: &Plan,
    runs: &[WaitingRun],
    c2: &mut CoefficientCells,
    y: &mut CoefficientCells,
)
    requires runs { AreWaitingRuns (parameters_of plan.now) runs.now }
    requires c2 { length c2.old ≡ padded_height plan.now C2 * padded_width plan.now C2 }
    requires y { length y.old ≡ padded_height plan.now Y * padded_width plan.now Y }
    ensures c2 { FillsRuns (parameters_of plan.now) C2 runs.now c2.old c2.new }
    ensures y { FillsRuns (parameters_of plan.now) Y runs.now y.old y.new }
{
    join_mut(
        rt,
        &mut || place_runs(plan, Component::C2, runs, c2),
        &mut || y.place_halves(rt, plan, Component::Y, runs),
    );
}

// Puts a component of a run at its places: each subband's rectangle of the run, row by row.
fn place_run(run: &RunRects, strip: &[i32], cells: &mut CoefficientCells)
    requires strip { length strip.now
        ≡ run_coefficient_count run.now.plan run.now.component run.now.first run.now.count }
    requires cells { length cells.old
        ≡ padded_height run.now.plan run.now.component
        * padded_width run.now.plan run.now.component }
    ensures { FillsRun (parameters_of run.now.plan) run.now.component run.now.first
        run.now.count strip.now cells.old cells.new }
{
    let (width, _) = padded(&run.plan, run.component);
    let mut from = 0;
    for b in 0..band_count(&run.plan) {
        let rect = run.rect(b);
        let to = CellRect {
            rect,
            stride: width as usize,
        };
        place_rect(&to, strip, from, cells);
        from += rect.width as usize * rect.height as usize;
    }
}
