ghost use Rattle.std.specs.Prelude.{◌≡◌, ◌+◌, ◌-◌, ◌*◌, ◌^◌, ◌<◌, ◌≤◌, ℕ, All, IfOk, IsTrue, length};
ghost use Rattle.std.specs.Prelude.{unsigned_abs, min, ℤ, pos, ◌-ℤ◌, slice_index_or};
ghost use Rattle.vc_types.specs.Lifting.{line_of};
ghost use Rattle.vc_types.specs.Rasters.{cell_at, sample_at};
ghost use Rattle.vc_types.specs.Subbands.{plane_width, plane_height, plane_depth, padded_width};
ghost use Rattle.vc_types.specs.Subbands.{padded_height};
ghost use Rattle.vc_types.specs.TransformParameters.{is_symmetric, parameters_of};
ghost use Rattle.vc_types.specs.Transforms.{forward_transform};
ghost use Rattle.vc_wave.specs.Samples.{padded_sample};

use crate::extents::levels_of;
use crate::level::{BLOCK, part_levels};
use std::alloc::Global;
use vc_geometry::padded;
use vc_types::{Component, Grid, NoMemory, Plan, Plane};

/// The coefficients of a component's plane, in the padded size, by a symmetric transform: the plane's last
/// column and row are repeated, half of the samples' range is taken away, and the forward transform is
/// applied. It fails only where memory runs out.
pub fn forward(alloc: Global, plan: &Plan, c: Component, plane: &Plane) -> Result<Grid, NoMemory>
    requires symmetric { IsTrue (is_symmetric (parameters_of plan.now)) }
    requires width { plane.now.width ≡ plane_width plan.now.shape c }
    requires height { plane.now.height ≡ plane_height plan.now.shape c }
    requires samples { All (λ s. s < 2 ^ plane_depth plan.now.shape c) plane.now.samples }
    ensures width { IfOk result (λ g. g.width ≡ padded_width (parameters_of plan.now) c) }
    ensures height { IfOk result (λ g. g.height ≡ padded_height (parameters_of plan.now) c) }
    ensures value { IfOk result
        (λ g. (x y : ℕ) → x < g.width → y < g.height
        → cell_at g x y ≡ forward_transform (parameters_of plan.now) c (sample_at plane.now) x y) }
    ensures small { IfOk result (λ g. All (λ z. unsigned_abs z < 2 ^ 60) g.cells) }
{
    let (width, height) = padded(plan, c);
    let (columns, rows) = (width as usize, height as usize);
    let mut scratch = vec![in alloc; 0i128; columns.max(rows * BLOCK)]?;
    let mut cells = vec![in alloc; 0i128; rows * columns]?;
    let sheet: &mut [i128] = &mut cells;
    fill(sheet, columns, rows, plane, sample_depth(plan, c));
    part_levels(levels_of(plan, c, columns), sheet, &mut scratch);
    Ok(Grid::new(width, height, cells))
}

/// The bits of a component's samples.
pub(crate) fn sample_depth(plan: &Plan, c: Component) -> u8
    ensures value { result ≡ plane_depth plan.now.shape c }
    ensures range { (1 ≤ result) × (result ≤ 16) }
{
    match c {
        Component::Y => plan.shape.luma_depth,
        Component::C1 | Component::C2 => plan.shape.colour_depth,
    }
}

// Fills rows of cells with a plane's samples less half of their range; past the last column and row, those of
// the last.
fn fill(cells: &mut [i128], columns: usize, rows: usize, plane: &Plane, depth: u8)
    requires depth { (1 ≤ depth) × (depth ≤ 16) }
    requires some { (1 ≤ plane.now.width) × (1 ≤ plane.now.height) }
    requires cells { length cells.old ≡ rows * columns }
    ensures { (x y : ℕ) → x < columns → y < rows
        → line_of cells.new (y * columns + x) ≡ padded_sample plane.now depth x y }
{
    let (width, height) = (plane.width() as usize, plane.height() as usize);
    let samples = plane.samples();
    for y in 0..rows {
        let row = y.min(height - 1) * width;
        for x in 0..columns {
            let sample = samples[row + x.min(width - 1)];
            cells[y * columns + x] = centred(sample, depth);
        }
    }
}

// A sample less half of the range of so many bits.
#[inline(always)]
fn centred(sample: u16, depth: u8) -> i128
    requires { (1 ≤ depth) × (depth ≤ 16) }
    ensures { result ≡ (pos sample -ℤ pos (2 ^ (depth - 1))) }
{
    i128::from(sample) - i128::from(1u32 << (depth - 1))
}
