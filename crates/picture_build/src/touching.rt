ghost use Rattle.std.specs.Prelude.{◌≡◌, ◌+◌, ◌*◌, ◌<◌, ◌≤◌, length};
ghost use Rattle.vc_types.specs.declared.video.Component.TheVariants.{Y, C1, C2};
ghost use Rattle.vc_types.specs.OfPlan.{padded_height, padded_width, slice_count};
ghost use Rattle.vc_geometry.specs.CellRects.{LiesIn};

use crate::cells::CoefficientCells;
use vc_geometry::{CellRect, bands as band_count, padded};
use vc_slice::RunParts;
use vc_types::{Component, Plan};

// How many cells lie beside each other in a line of the cache.
const LINE: usize = 16;

// A row of slices is touched up to so many coefficients of luma: then all components have room in the cache.
const MOST: u32 = 65_536;

/// Where a slice is the first of its row of slices, reads cells where the row's coefficients are to stand, of
/// each component. They are in the cache then when the slices come to them: a slice has a piece of so many
/// rows of cells that the processor doesn't see by itself which come next. What is read is of no use.
pub(crate) fn touch_row(
    plan: &Plan,
    index: u32,
    y: &CoefficientCells,
    c1: &CoefficientCells,
    c2: &CoefficientCells,
) -> i32
    requires slice { index < slice_count plan.now }
    requires y { length y.now ≡ padded_height plan.now Y * padded_width plan.now Y }
    requires c1 { length c1.now ≡ padded_height plan.now C1 * padded_width plan.now C1 }
    requires c2 { length c2.now ≡ padded_height plan.now C2 * padded_width plan.now C2 }
{
    if index % plan.slices_x > 0 {
        return 0;
    }
    let run = RunParts::new(plan, index, plan.slices_x);
    if run.coefficients(Component::Y) > MOST {
        return 0;
    }
    touch_run(&run, Component::Y, y)
        | touch_run(&run, Component::C1, c1)
        | touch_run(&run, Component::C2, c2)
}

// The same of the cells of a run in a component.
fn touch_run(run: &RunParts, c: Component, cells: &CoefficientCells) -> i32
    requires { length cells.now ≡ padded_height run.now.plan c * padded_width run.now.plan c }
{
    let (width, _) = padded(&run.plan, c);
    let mut seen = 0;
    for b in 0..band_count(&run.plan) {
        let rect = run.rect(c, b);
        let to = CellRect {
            rect,
            stride: width as usize,
        };
        seen |= cells.touch(&to);
    }
    seen
}

/// Reads a cell of each line of the cache in a rectangle, row by row.
pub(crate) fn touch_rect(cells: &[i32], to: &CellRect) -> i32
    requires { LiesIn to.now cells.now }
{
    let mut seen = 0;
    for row in 0..to.rect.height as usize {
        let at = (to.rect.y as usize + row) * to.stride + to.rect.x as usize;
        seen |= touch_cells(cells, at, to.rect.width as usize);
    }
    seen
}

// The same of so many cells from one of them on.
fn touch_cells(cells: &[i32], at: usize, width: usize) -> i32
    requires { at + width ≤ length cells.now }
{
    let mut seen = 0;
    for line in 0..width / LINE {
        seen |= cells[at + LINE * line];
    }
    seen
}
