ghost use Rattle.std.specs.Prelude.{◌≡◌, ◌≢◌, ◌+◌, ◌*◌, ◌^◌, ◌<◌, ◌≤◌, ℕ, ℤ, pos};
ghost use Rattle.std.specs.Prelude.{IfOk, IfSome, OnOk, length, replicate, unsigned_abs, vec_capacity};
ghost use Rattle.vc_types.specs.Lifting.{line_of};
ghost use Rattle.vc_types.specs.Subbands.{area};
ghost use Rattle.picture_build.specs.Cells.{whole_number};
ghost use Rattle.vc_slice.specs.Bands.{coefficient_count, numbered_in};
ghost use Rattle.vc_slice.specs.Numbers.{AreUpTo};
ghost use Rattle.vc_geometry.specs.CellRects.{ChangesRect, ChangesRow, HasRow, LiesIn, cell_in};
ghost use Rattle.picture_build.specs.PartsKept.{AreCells, ChangesPart, PutsCoefficients, place_kept};
ghost use Rattle.picture_build.specs.Waiting.{AreWaitingRuns, FillsRuns};
ghost use Rattle.vc_types.specs.OfPlan.{padded_height, padded_width};
ghost use Rattle.vc_types.specs.TransformParameters.{parameters_of};

use crate::dequantising::put_dequantised;
use crate::filling::place_runs;
use crate::halves::place_halves;
use crate::touching::touch_rect;
use crate::waiting::WaitingRun;
use std::alloc::Global;
use std::marker::Model;
use std::thread::Threads;
use vc_geometry::{CellRect, bands as band_count, padded};
use vc_slice::{SliceBands, SliceParts, TooWide};
use vc_types::{Component, NoMemory, Plan};

// What one in the high part of a cell counts.
const HIGH: i64 = 1 << 30;

/// The coefficients of a component, at their places. Contracts see the list of them.
#[derive(Drop)]
pub(crate) struct CoefficientCells {
    low: Vec<i32>,
    // Has room for as many, which stays untouched until some coefficient is too wide for the low part alone.
    high: Vec<i32>,
    is_wide: bool,
}

impl Model for CoefficientCells {
    ghost use Rattle.std.specs.Prelude.{List, ℤ, vec_capacity};
    ghost use Rattle.picture_build.specs.Cells.{AreParts, cells_in};

    ghost Value = { List ℤ };

    ghost view = { λ s. cells_in s.is_wide s.high.items s.low.items };

    ghost invariant = { λ s. AreParts s.is_wide (vec_capacity s.high) s.high.items s.low.items };
}

impl CoefficientCells {
    /// So many cells, which hold anything.
    pub(crate) fn new(alloc: Global, len: usize) -> Result<CoefficientCells, NoMemory>
        ensures length { IfOk result (λ cells. length cells ≡ len) }
    {
        Ok(CoefficientCells {
            low: vec![in alloc; 0; len]?,
            high: Vec::with_capacity(alloc, len)?,
            is_wide: false,
        })
    }

    /// The same cells for other coefficients. They hold anything then.
    pub(crate) fn restart(&mut self)
        ensures length { length self.new ≡ length self.old }
    {
        self.is_wide = false;
    }

    /// The numbers in the cells, where the low parts alone have them.
    pub(crate) fn narrow(&self) -> Option<&[i32]>
        ensures { IfSome result (λ numbers. numbers.now ≡ self.now) }
    {
        if self.is_wide {
            None
        } else {
            Some(self.low.as_slice())
        }
    }

    /// Reads cells of a rectangle, so that it is in the cache when coefficients come to it. What is read is
    /// of no use.
    pub(crate) fn touch(&self, to: &CellRect) -> i32
        requires { LiesIn to.now self.now }
    {
        touch_rect(&self.low, to)
    }

    /// Copies so many numbers, from one of them on, to cells from one of them on.
    pub(crate) fn put_row(&mut self, at: usize, numbers: &[i32], from: usize, width: usize)
        requires at { at + width ≤ length self.old }
        requires from { from + width ≤ length numbers.now }
        ensures on { HasRow width at self.new from numbers.now }
        ensures off { ChangesRow width at self.old self.new }
        ensures length { length self.new ≡ length self.old }
    {
        copy_row(&mut self.low, at, numbers, from, width);
        if self.is_wide {
            clear_row(&mut self.high, at, width);
        }
    }

    /// Puts runs at their places, in the upper half and in the lower one side by side, by join; one after
    /// another where some coefficient is wide.
    pub(crate) fn place_halves<H: Threads>(
        &mut self,
        rt: &H,
        plan: &Plan,
        c: Component,
        runs: &[WaitingRun],
    )
        requires runs { AreWaitingRuns (parameters_of plan.now) runs.now }
        requires cells { length self.old
            ≡ padded_height plan.now c * padded_width plan.now c }
        ensures { FillsRuns (parameters_of plan.now) c runs.now self.old self.new }
    {
        if self.is_wide {
            place_runs(plan, c, runs, self);
        } else {
            place_halves(rt, plan, c, runs, &mut self.low);
        }
    }

    /// Puts the coefficients that a component's numbers stand for at their places: `greatest` is at least
    /// each number's magnitude. TooWide where a coefficient may not fit 32 bits; cells of the slice hold
    /// anything then.
    pub(crate) fn put_numbers(
        &mut self,
        bands: &SliceBands,
        c: Component,
        numbers: &[i32],
        greatest: u32,
    ) -> Result<(), TooWide>
        requires count { coefficient_count bands.now.parts.now c ≤ length numbers.now }
        requires small { AreUpTo greatest (coefficient_count bands.now.parts.now c) numbers.now }
        requires cells { AreCells bands.now.parts.now c self.old }
        ensures only { ChangesPart bands.now.parts.now c self.old self.new }
        ensures all { OnOk result (PutsCoefficients bands.now c (numbered_in bands.now c numbers.now)
            self.old self.new) }
    {
        let done = put_dequantised(bands, c, numbers, greatest, &mut self.low);
        if self.is_wide {
            clear_part(&mut self.high, bands.parts, c);
        }
        done
    }

    /// The number in a cell.
    pub(crate) fn get(&self, at: usize) -> i64
        requires at { at < length self.now }
        ensures value { result ≡ line_of self.now at }
    {
        if self.is_wide {
            whole(self.high[at], self.low[at])
        } else {
            i64::from(self.low[at])
        }
    }

    /// Puts a coefficient into a cell, however wide it is.
    pub(crate) fn put(&mut self, at: usize, coefficient: i64)
        requires at { at < length self.old }
        requires coefficient { unsigned_abs coefficient < 2 ^ 60 }
        ensures on { line_of self.new at ≡ coefficient }
        ensures off { (k : ℕ) → k ≢ at → line_of self.new k ≡ line_of self.old k }
        ensures length { length self.new ≡ length self.old }
    {
        let (high, low) = parts(coefficient);
        if self.is_wide {
            self.high[at] = high;
            self.low[at] = low;
        } else {
            clear_all(&mut self.high, self.low.len());
            self.high[at] = high;
            self.low[at] = low;
            self.is_wide = true;
        }
    }
}

// The number of two parts.
fn whole(high: i32, low: i32) -> i64
    ensures { result ≡ whole_number high low }
{
    i64::from(high) * HIGH + i64::from(low)
}

fn parts(number: i64) -> (i32, i32)
    requires { unsigned_abs number < 2 ^ 60 }
    ensures { whole_number result.0 result.1 ≡ number }
{
    ((number / HIGH) as i32, (number % HIGH) as i32)
}

/// Copies so many numbers, from one of them on, to cells from one of them on.
#[inline(always)]
pub(crate) fn copy_row(cells: &mut [i32], at: usize, numbers: &[i32], from: usize, width: usize)
    requires at { at + width ≤ length cells.old }
    requires from { from + width ≤ length numbers.now }
    ensures on { HasRow width at cells.new from numbers.now }
    ensures off { ChangesRow width at cells.old cells.new }
    ensures length { length cells.new ≡ length cells.old }
{
    match width {
        1 => copy_few(cells, at, numbers, from, 1),
        2 => copy_few(cells, at, numbers, from, 2),
        4 => copy_few(cells, at, numbers, from, 4),
        8 => copy_few(cells, at, numbers, from, 8),
        _ => copy_many(cells, at, numbers, from, width),
    }
}

// The same for a few cells: all numbers are read before one is written, so that they go over at once.
#[inline(always)]
fn copy_few(cells: &mut [i32], at: usize, numbers: &[i32], from: usize, width: usize)
    requires few { width ≤ 8 }
    requires at { at + width ≤ length cells.old }
    requires from { from + width ≤ length numbers.now }
    ensures on { HasRow width at cells.new from numbers.now }
    ensures off { ChangesRow width at cells.old cells.new }
    ensures length { length cells.new ≡ length cells.old }
{
    let mut few = [0; 8];
    for x in 0..width {
        few[x] = numbers[from + x];
    }
    for x in 0..width {
        cells[at + x] = few[x];
    }
}

fn copy_many(cells: &mut [i32], at: usize, numbers: &[i32], from: usize, width: usize)
    requires at { at + width ≤ length cells.old }
    requires from { from + width ≤ length numbers.now }
    ensures on { HasRow width at cells.new from numbers.now }
    ensures off { ChangesRow width at cells.old cells.new }
    ensures length { length cells.new ≡ length cells.old }
{
    cells[at..at + width].copy_from_slice(&numbers[from..from + width]);
}

// So many cells of 0, in the memory that is there.
fn clear_all(cells: &mut Vec<i32>, len: usize)
    requires { len ≤ vec_capacity cells.old }
    ensures items { cells.new.items ≡ replicate len (pos 0) }
    ensures room { len ≤ vec_capacity cells.new }
{
    cells.clear();
    cells.resize(len, 0).unwrap();
}

fn clear_row(cells: &mut [i32], at: usize, width: usize)
    requires at { at + width ≤ length cells.old }
    ensures on { (x : ℕ) → x < width → line_of cells.new (at + x) ≡ pos 0 }
    ensures off { ChangesRow width at cells.old cells.new }
    ensures length { length cells.new ≡ length cells.old }
{
    for x in 0..width {
        cells[at + x] = 0;
    }
}

fn clear_rect(cells: &mut [i32], to: &CellRect)
    requires { LiesIn to.now cells.old }
    ensures on { (j : ℕ) → j < area to.now.rect → line_of cells.new (cell_in to.now j) ≡ pos 0 }
    ensures off { ChangesRect to.now cells.old cells.new }
    ensures length { length cells.new ≡ length cells.old }
{
    for row in 0..to.rect.height as usize {
        let at = (to.rect.y as usize + row) * to.stride + to.rect.x as usize;
        clear_row(cells, at, to.rect.width as usize);
    }
}

// Clears the cells of a slice.
fn clear_part(cells: &mut [i32], parts: &SliceParts, c: Component)
    requires { AreCells parts.now c cells.old }
    ensures on { (i : ℕ) → i < coefficient_count parts.now c
        → line_of cells.new (place_kept parts.now c i) ≡ pos 0 }
    ensures only { ChangesPart parts.now c cells.old cells.new }
{
    let (width, _) = padded(&parts.plan, c);
    for b in 0..band_count(&parts.plan) {
        let rect = parts.rect(c, b);
        let to = CellRect {
            rect,
            stride: width as usize,
        };
        clear_rect(cells, &to);
    }
}
