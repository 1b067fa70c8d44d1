ghost use Rattle.std.specs.Prelude.{◌≤◌, ◌<◌};
ghost use Rattle.vc_types.specs.Subbands.{slice_count};
ghost use Rattle.vc_types.specs.TransformParameters.{parameters_of};

use crate::grids::{ComponentGrid, PictureGrids};
use vc_types::Plan;

// How many cells a line of the cache has.
const LINE: usize = 16;

/// About the index from which on all numbers of a slice's row of slices are quantised to zero, at most 127: a
/// bound for a guess, by one cell of each line of the cache. To look for it brings the row's cells into the
/// cache in their order, before its slices take them in short pieces, each from many rows of cells.
pub(crate) fn index_ceiling(plan: &Plan, grids: &PictureGrids, slice: u32) -> u8
    requires { slice < slice_count (parameters_of plan.now) }
    ensures { result ≤ 127 }
{
    let rows = plan.slices_y;
    let row = slice / plan.slices_x;
    let bits = bits_in_row(&grids.y, rows, row)
        | bits_in_row(&grids.c1, rows, row)
        | bits_in_row(&grids.c2, rows, row);
    // Numbers have one bit less at an index that is greater by four.
    (4 * (32 - bits.leading_zeros())).min(127) as u8
}

// The bits that magnitudes have in one of so many rows of slices.
fn bits_in_row(grid: &ComponentGrid, rows: u32, row: u32) -> u32
    requires { row < rows }
{
    match grid {
        ComponentGrid::Narrow(cells) => bits_of_lines(cells_of_row(
            cells,
            rows as usize,
            row as usize,
        )),
        ComponentGrid::Wide(_) => u32::MAX,
    }
}

// The cells of one of so many rows of slices.
fn cells_of_row(cells: &[i32], rows: usize, row: usize) -> &[i32]
    requires { row < rows }
{
    let len = cells.len() / rows;
    let from = len * row;
    &cells[from..from + len]
}

// The bits that the magnitudes of one cell of each line of the cache have.
fn bits_of_lines(cells: &[i32]) -> u32 {
    let mut bits = 0;
    for line in 0..cells.len() / LINE {
        bits |= cells[LINE * line].unsigned_abs();
    }
    bits
}
