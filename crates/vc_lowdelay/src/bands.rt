ghost use Rattle.std.specs.Prelude.{◌≡◌, ◌≢◌, ◌+◌, ◌*◌, ◌^◌, ◌<◌, ◌≤◌, ℕ};
ghost use Rattle.std.specs.Prelude.{IfOk, OnErr, OnOk, length, unsigned_abs};
ghost use Rattle.vc_types.specs.Lifting.{line_of};
ghost use Rattle.vc_types.specs.declared.video.Component.TheVariants.{Y, C1, C2};
ghost use Rattle.vc_types.specs.OfPlan.{slice_count};
ghost use Rattle.vc_types.specs.Subbands.{area, place_in};
ghost use Rattle.vc_types.specs.TransformParameters.{parameters_of};
ghost use Rattle.vc_types.specs.Transforms.{lowest_width, lowest_height};
ghost use Rattle.vc_lowdelay.specs.LowDelay.{mean_of, predicted};
ghost use Rattle.vc_lowdelay.specs.Bands.{AreSmallValues, HasLargeValue, HasValues, IsLowest};
ghost use Rattle.vc_lowdelay.specs.Bands.{grown_value, index_of_place, lowest_rectangle, prediction_in};
ghost use Rattle.vc_lowdelay.specs.Bands.{value_in};
ghost use Rattle.vc_lowdelay.specs.Narrow.{GrowsLowest, HasPaddedSize, cells_of, kept_cells};

use crate::refusal::{LargeValue, NarrowFault};
use std::alloc::Global;
use std::marker::Model;
use vc_geometry::{band, padded, slice_rect};
use vc_slice::TooWide;
use vc_types::{Component, NoMemory, Plan, Rect};

/// The values of LL of a component. Contracts see its width, its height and the list of its values, row by
/// row.
#[derive(Drop)]
pub(crate) struct LowestBand {
    width: u32,
    height: u32,
    values: Vec<i64>,
}

impl Model for LowestBand {
    ghost use Rattle.std.specs.Prelude.{◌≡◌, ◌*◌, vec_len};
    ghost use Rattle.vc_types.specs.Rasters.{Lattice};

    ghost Value = { Lattice };

    ghost view = { λ b. record { width = b.width; height = b.height; cells = b.values.items } };

    ghost invariant = { λ b. vec_len b.values ≡ b.width * b.height };
}

/// LL of the three components.
#[derive(Drop)]
pub(crate) struct LowestBands {
    pub(crate) y: LowestBand,
    pub(crate) c1: LowestBand,
    pub(crate) c2: LowestBand,
}

impl LowestBand {
    /// LL of a component, with zeros.
    pub(crate) fn new(alloc: Global, plan: &Plan, c: Component) -> Result<LowestBand, NoMemory>
        ensures { IfOk result (IsLowest (parameters_of plan.now) c) }
    {
        let rect = band(plan, c, 0);
        let count = rect.width as usize * rect.height as usize;
        let values = vec![in alloc; 0i64; count]?;
        Ok(LowestBand {
            width: rect.width,
            height: rect.height,
            values,
        })
    }

    // LL of a component, as it stands at the corner of the component's cells.
    fn of_cells(
        alloc: Global,
        plan: &Plan,
        c: Component,
        cells: &[i32],
    ) -> Result<LowestBand, NoMemory>
        requires { HasPaddedSize (parameters_of plan.now) c cells.now }
        ensures size { IfOk result (IsLowest (parameters_of plan.now) c) }
        ensures values { IfOk result (HasValues (kept_cells (parameters_of plan.now) c cells.now)) }
        ensures small { IfOk result (λ band. AreSmallValues band) }
    {
        let rect = band(plan, c, 0);
        let (stride, _) = padded(plan, c);
        let count = rect.width as usize * rect.height as usize;
        let mut values = vec![in alloc; 0i64; count]?;
        for y in 0..rect.height {
            for x in 0..rect.width {
                let place = y as usize * rect.width as usize + x as usize;
                values[place] = i64::from(cells[y as usize * stride as usize + x as usize]);
            }
        }
        Ok(LowestBand {
            width: rect.width,
            height: rect.height,
            values,
        })
    }

    // Puts the values to the corner of cells, so many a row: TooWide where one doesn't fit 32 bits.
    fn give(&self, cells: &mut Vec<i32>, stride: u32) -> Result<(), TooWide>
        requires across { self.now.width ≤ stride }
        requires down { self.now.height * stride ≤ length cells.old.items }
        requires sides { (stride ≤ 8192) × (self.now.height ≤ 8192) }
        ensures on { OnOk result ((x y : ℕ) → x < self.now.width → y < self.now.height
            → cells_of stride cells.new.items x y ≡ value_in self.now x y) }
        ensures off { OnOk result ((k : ℕ)
            → ((x y : ℕ) → x < self.now.width → y < self.now.height → k ≢ y * stride + x)
            → line_of cells.new.items k ≡ line_of cells.old.items k) }
        ensures length { OnOk result (length cells.new.items ≡ length cells.old.items) }
    {
        for y in 0..self.height {
            for x in 0..self.width {
                let Ok(value) = i32::try_from(self.get(x, y)) else {
                    return Err(TooWide);
                };
                cells[y as usize * stride as usize + x as usize] = value;
            }
        }
        Ok(())
    }

    /// The value in column `x` and row `y`.
    pub(crate) fn get(&self, x: u32, y: u32) -> i64
        requires across { x < self.now.width }
        requires down { y < self.now.height }
        ensures { result ≡ value_in self.now x y }
    {
        self.values[y as usize * self.width as usize + x as usize]
    }

    /// Puts a value into column `x` and row `y`.
    pub(crate) fn put(&mut self, x: u32, y: u32, value: i64)
        requires across { x < self.old.width }
        requires down { y < self.old.height }
        ensures size { (self.new.width ≡ self.old.width) × (self.new.height ≡ self.old.height) }
        ensures on { line_of self.new.cells (index_of_place self.old (x, y)) ≡ value }
        ensures off { (k : ℕ) → k ≢ index_of_place self.old (x, y)
            → line_of self.new.cells k ≡ line_of self.old.cells k }
    {
        let place = y as usize * self.width as usize + x as usize;
        self.values[place] = value;
    }

    /// Each value grows by its prediction (ST 2042-1, prediction in the lowest subband), row by row. Refused
    /// where one is large then; the band isn't to be used after that.
    pub(crate) fn grow(&mut self) -> Result<(), LargeValue>
        requires { AreSmallValues self.old }
        ensures size { OnOk result
            ((self.new.width ≡ self.old.width) × (self.new.height ≡ self.old.height)) }
        ensures grown { OnOk result (HasValues (predicted (value_in self.old)) self.new) }
        ensures small { OnOk result (AreSmallValues self.new) }
        ensures large { OnErr result (HasLargeValue (predicted (value_in self.old)) self.old) }
    {
        let width = self.width;
        let height = self.height;
        for y in 0..height {
            for x in 0..width {
                let value = self.grown(x, y)?;
                self.put(x, y, value);
            }
        }
        Ok(())
    }

    // A value as it grows, where those before it have grown, unless it is large then.
    fn grown(&self, x: u32, y: u32) -> Result<i64, LargeValue>
        requires across { x < self.now.width }
        requires down { y < self.now.height }
        requires small { AreSmallValues self.now }
        ensures value { IfOk result (λ z. z ≡ grown_value self.now x y) }
        ensures small { IfOk result (λ z. unsigned_abs z < 2 ^ 60) }
        ensures large { OnErr result (2 ^ 60 ≤ unsigned_abs (grown_value self.now x y)) }
    {
        let value = self.get(x, y) + self.prediction(x, y);
        if value.unsigned_abs() >= 1 << 60 {
            return Err(LargeValue);
        }
        Ok(value)
    }

    // What is predicted of a value, from those before it, which have grown.
    #[tactic(auto, using(crate::proofs::Predictions::predictions))]
    fn prediction(&self, x: u32, y: u32) -> i64
        requires across { x < self.now.width }
        requires down { y < self.now.height }
        requires small { AreSmallValues self.now }
        ensures value { result ≡ prediction_in (value_in self.now) x y }
        ensures range { unsigned_abs result ≤ 2 ^ 60 }
    {
        if y == 0 {
            if x == 0 { 0 } else { self.get(x - 1, 0) }
        } else if x == 0 {
            self.get(0, y - 1)
        } else {
            mean(
                self.get(x - 1, y),
                self.get(x - 1, y - 1),
                self.get(x, y - 1),
            )
        }
    }
}

/// Each value of LL grows by its prediction, in the cells of a component: TooWide where one doesn't fit 32
/// bits then.
pub(crate) fn grow_lowest(
    alloc: Global,
    plan: &Plan,
    c: Component,
    cells: &mut Vec<i32>,
) -> Result<(), NarrowFault>
    requires { HasPaddedSize (parameters_of plan.now) c cells.old.items }
    ensures { OnOk result (GrowsLowest (parameters_of plan.now) c cells.old.items cells.new.items) }
{
    let (stride, _) = padded(plan, c);
    let mut lowest = LowestBand::of_cells(alloc, plan, c, cells)?;
    lowest.grow()?;
    lowest.give(cells, stride)?;
    Ok(())
}

/// What a slice has of LL of a component.
pub(crate) fn lowest_rect(plan: &Plan, c: Component, slice: u32) -> Rect
    requires { slice < slice_count plan.now }
    ensures value { result ≡ lowest_rectangle (parameters_of plan.now) c slice }
    ensures right { result.x + result.width ≤ lowest_width (parameters_of plan.now) c }
    ensures bottom { result.y + result.height ≤ lowest_height (parameters_of plan.now) c }
    ensures range { (result.x + result.width ≤ 8192) × (result.y + result.height ≤ 8192) }
{
    slice_rect(plan, c, 0, slice)
}

/// How many cells a rectangle has.
pub(crate) fn area_of(rect: &Rect) -> u32
    requires { (rect.now.x + rect.now.width ≤ 8192) × (rect.now.y + rect.now.height ≤ 8192) }
    ensures value { result ≡ area rect.now }
    ensures range { result ≤ 2 ^ 26 }
{
    rect.width * rect.height
}

/// The column and row of cell `i` of a rectangle, row by row.
pub(crate) fn cell_of(rect: &Rect, i: u32) -> (u32, u32)
    requires number { i < area rect.now }
    requires range { (rect.now.x + rect.now.width ≤ 8192) × (rect.now.y + rect.now.height ≤ 8192) }
    ensures value { result ≡ place_in rect.now i }
    ensures across { result.0 < rect.now.x + rect.now.width }
    ensures down { result.1 < rect.now.y + rect.now.height }
{
    (rect.x + i % rect.width, rect.y + i / rect.width)
}

// The mean of three values, rounded down.
fn mean(left: i64, above_left: i64, above: i64) -> i64
    requires left { unsigned_abs left < 2 ^ 60 }
    requires above_left { unsigned_abs above_left < 2 ^ 60 }
    requires above { unsigned_abs above < 2 ^ 60 }
    ensures value { result ≡ mean_of left above_left above }
    ensures range { unsigned_abs result ≤ 2 ^ 60 }
{
    (left + above_left + above + 1).div_euclid(3)
}

impl LowestBands {
    /// LL of the components of a plan's picture, with zeros.
    pub(crate) fn new(alloc: Global, plan: &Plan) -> Result<LowestBands, NoMemory>
        ensures y { IfOk result (λ bands. IsLowest (parameters_of plan.now) Y bands.y) }
        ensures c1 { IfOk result (λ bands. IsLowest (parameters_of plan.now) C1 bands.c1) }
        ensures c2 { IfOk result (λ bands. IsLowest (parameters_of plan.now) C2 bands.c2) }
    {
        let y = LowestBand::new(alloc, plan, Component::Y)?;
        let c1 = LowestBand::new(alloc, plan, Component::C1)?;
        let c2 = LowestBand::new(alloc, plan, Component::C2)?;
        Ok(LowestBands { y, c1, c2 })
    }
}
