ghost use Rattle.std.specs.Prelude.{◌≡◌, ◌^◌, ◌<◌, All, IfOk, length, unsigned_abs};
ghost use Rattle.vc_types.specs.Rasters.{cell_at};
ghost use Rattle.vc_types.specs.Subbands.{padded_width, padded_height};
ghost use Rattle.vc_types.specs.TransformParameters.{parameters_of};
ghost use Rattle.vc_types.specs.Transforms.{inverse_transform};
ghost use Rattle.vc_wave.specs.Planes.{AreBelow, HasRoom, plane_of};

use crate::extents::{Rows, levels_of};
use crate::level::{BLOCK, merge_across, merge_levels};
use crate::sides::lowest;
use std::alloc::Global;
use vc_geometry::padded;
use vc_types::{Component, Grid, NoMemory, Plan};

/// The samples of a component from its coefficients, both in the padded size (ST 2042-1, inverse wavelet
/// transform). Coefficients have magnitudes below 2^60. It fails only where memory runs out.
pub fn inverse(alloc: Global, plan: &Plan, c: Component, coeffs: Grid) -> Result<Grid, NoMemory>
    requires width { coeffs.width ≡ padded_width (parameters_of plan.now) c }
    requires height { coeffs.height ≡ padded_height (parameters_of plan.now) c }
    requires small { All (λ z. unsigned_abs z < 2 ^ 60) coeffs.cells }
    ensures width { IfOk result (λ g. g.width ≡ coeffs.width) }
    ensures height { IfOk result (λ g. g.height ≡ coeffs.height) }
    ensures value { IfOk result
        (λ g. cell_at g ≡ inverse_transform (parameters_of plan.now) c (cell_at coeffs)) }
    ensures small { IfOk result (λ g. All (λ z. unsigned_abs z < 2 ^ 100) g.cells) }
{
    let (width, height) = padded(plan, c);
    let (columns, rows) = (width as usize, height as usize);
    let mut scratch = vec![in alloc; 0i128; columns.max(rows * BLOCK)]?;
    let mut cells = coeffs.into_cells();
    merge(plan, c, &mut cells, columns, &mut scratch);
    Ok(Grid::new(width, height, cells))
}

// The inverse transform of a component's cells, which are kept row by row.
fn merge(plan: &Plan, c: Component, cells: &mut [i128], stride: usize, scratch: &mut [i128])
    requires room { HasRoom (padded_width (parameters_of plan.now) c)
        (padded_height (parameters_of plan.now) c) stride (length cells.old) BLOCK
        (length scratch.old) }
    requires small { AreBelow (2 ^ 60) (plane_of stride cells.old) }
    ensures value { plane_of stride cells.new
        ≡ inverse_transform (parameters_of plan.now) c (plane_of stride cells.old) }
    ensures small { AreBelow (2 ^ 100) (plane_of stride cells.new) }
{
    let (w, h) = lowest(plan, c);
    let rows = Rows {
        wavelet: plan.wavelet_ho,
        pitch: stride,
        count: h,
        half: w,
    };
    merge_across(rows, plan.depth_ho, cells, scratch);
    merge_levels(levels_of(plan, c, stride), cells, scratch);
}
