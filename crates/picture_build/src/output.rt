ghost use Rattle.std.specs.Prelude.{◌≡◌, ◌+◌, ◌*◌, ◌<◌, ◌≤◌, ◌⊎◌, ℕ, IfOk, length, slice_index_or};
ghost use Rattle.vc_types.specs.Lifting.{line_of};
ghost use Rattle.vc_types.specs.Planes.{output_sample};
ghost use Rattle.vc_types.specs.Rasters.{cell_at};
ghost use Rattle.vc_types.specs.Subbands.{plane_width, plane_height, plane_depth};
ghost use Rattle.vc_types.specs.TransformParameters.{parameters_of};
ghost use Rattle.vc_wave.specs.Planes.{plane_of};
ghost use Rattle.picture_build.specs.Output.{output_plane};
ghost use Rattle.vc_types.specs.OfPlan.{padded_height, padded_width};

use std::alloc::Global;
use vc_geometry::padded;
use vc_types::{Component, Grid, NoMemory, Plan, Plane};
use vc_wave::Format;

/// A component's plane from its padded grid (ST 2042-1, picture output): the padding is cut off, and each
/// number is clipped and half of the samples' range added.
pub(crate) fn output(
    alloc: Global,
    plan: &Plan,
    c: Component,
    grid: &Grid,
) -> Result<Plane, NoMemory>
    requires width { grid.now.width ≡ padded_width plan.now c }
    requires height { grid.now.height ≡ padded_height plan.now c }
    ensures { IfOk result
        (λ plane. plane ≡ output_plane (parameters_of plan.now) c (cell_at grid.now)) }
{
    let (width, height, depth) = format(plan, c);
    let (columns, rows) = (width as usize, height as usize);
    let mut samples = vec![in alloc; 0u16; rows * columns]?;
    output_rows(&mut samples, columns, rows, grid, depth);
    Ok(Plane::new(width, height, samples))
}

/// The same from cells of 64 bits, which are kept row by row.
pub(crate) fn output_long(
    alloc: Global,
    plan: &Plan,
    c: Component,
    cells: &[i64],
) -> Result<Plane, NoMemory>
    requires { length cells.now ≡ padded_height plan.now c * padded_width plan.now c }
    ensures { IfOk result (λ plane. plane ≡ output_plane (parameters_of plan.now) c
        (plane_of (padded_width plan.now c) cells.now)) }
{
    let (stride, _) = padded(plan, c);
    let (width, height, depth) = format(plan, c);
    let format = Format {
        columns: width as usize,
        rows: height as usize,
        depth,
    };
    let mut samples = vec![in alloc; 0u16; format.rows * format.columns]?;
    clip_rows(&mut samples, cells, stride as usize, format);
    Ok(Plane::new(width, height, samples))
}

// Fills rows of samples from as many rows of cells, which stand so far apart.
fn clip_rows(samples: &mut [u16], cells: &[i64], stride: usize, format: Format)
    requires depth { (1 ≤ format.depth) × (format.depth ≤ 16) }
    requires columns { format.columns ≤ stride }
    requires cells { format.rows * stride ≤ length cells.now }
    requires samples { length samples.old ≡ format.rows * format.columns }
    ensures { (x y : ℕ) → x < format.columns → y < format.rows
        → slice_index_or samples.new (y * format.columns + x) 0
        ≡ output_sample format.depth (plane_of stride cells.now x y) }
{
    for y in 0..format.rows {
        clip_row(samples, y * format.columns, cells, y * stride, format);
    }
}

// Clips a row of cells, from one of them on, to samples from one of them on.
#[inline(always)]
fn clip_row(samples: &mut [u16], at: usize, cells: &[i64], from: usize, format: Format)
    requires depth { (1 ≤ format.depth) × (format.depth ≤ 16) }
    requires at { at + format.columns ≤ length samples.old }
    requires from { from + format.columns ≤ length cells.now }
    ensures on { (x : ℕ) → x < format.columns
        → slice_index_or samples.new (at + x) 0
        ≡ output_sample format.depth (line_of cells.now (from + x)) }
    ensures off { (i : ℕ) → (i < at) ⊎ (at + format.columns ≤ i)
        → slice_index_or samples.new i 0 ≡ slice_index_or samples.old i 0 }
{
    for x in 0..format.columns {
        samples[at + x] = sample(i128::from(cells[from + x]), format.depth);
    }
}

// Fills the rows of samples from a grid that has at least as many columns and rows.
fn output_rows(samples: &mut [u16], columns: usize, rows: usize, grid: &Grid, depth: u8)
    requires depth { (1 ≤ depth) × (depth ≤ 16) }
    requires columns { columns ≤ grid.now.width }
    requires rows { rows ≤ grid.now.height }
    requires samples { length samples.old ≡ rows * columns }
    ensures { (x y : ℕ) → x < columns → y < rows
        → slice_index_or samples.new (y * columns + x) 0
        ≡ output_sample depth (cell_at grid.now x y) }
{
    let stride = grid.width() as usize;
    let cells = grid.cells();
    for y in 0..rows {
        output_row(samples, y * columns, cells, y * stride, columns, depth);
    }
}

// Clips so many cells, from one of them on, to samples of so many bits, from one of them on.
#[inline(always)]
fn output_row(samples: &mut [u16], at: usize, cells: &[i128], from: usize, width: usize, depth: u8)
    requires depth { (1 ≤ depth) × (depth ≤ 16) }
    requires at { at + width ≤ length samples.old }
    requires from { from + width ≤ length cells.now }
    ensures on { (x : ℕ) → x < width
        → slice_index_or samples.new (at + x) 0
        ≡ output_sample depth (line_of cells.now (from + x)) }
    ensures off { (i : ℕ) → (i < at) ⊎ (at + width ≤ i)
        → slice_index_or samples.new i 0 ≡ slice_index_or samples.old i 0 }
{
    for x in 0..width {
        samples[at + x] = sample(cells[from + x], depth);
    }
}

// The sample of so many bits: a number clipped to half of their range on either side of 0, and that half
// added.
#[inline(always)]
fn sample(cell: i128, depth: u8) -> u16
    requires { (1 ≤ depth) × (depth ≤ 16) }
    ensures { result ≡ output_sample depth cell }
{
    let half = i128::from(1u32 << (depth - 1));
    (cell.clamp(-half, half - 1) + half) as u16
}

// The width and height of a component's plane, and the bits of its samples.
pub(crate) fn format(plan: &Plan, c: Component) -> (u32, u32, u8)
    ensures width { result.0 ≡ plane_width plan.now.shape c }
    ensures height { result.1 ≡ plane_height plan.now.shape c }
    ensures depth { result.2 ≡ plane_depth plan.now.shape c }
    ensures range { (1 ≤ result.0) × (result.0 ≤ 8192) × (1 ≤ result.1) × (result.1 ≤ 8192)
        × (1 ≤ result.2) × (result.2 ≤ 16) }
{
    let shape = &plan.shape;
    match c {
        Component::Y => (shape.luma_width, shape.luma_height, shape.luma_depth),
        Component::C1 | Component::C2 => {
            (shape.colour_width, shape.colour_height, shape.colour_depth)
        }
    }
}
