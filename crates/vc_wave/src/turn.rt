ghost use Rattle.std.specs.Prelude.{◌≡◌, ◌*◌, ◌^◌, ◌<◌, ◌≤◌, if◌then◌else◌};
ghost use Rattle.vc_types.specs.TransformParameters.{parameters_of};
ghost use Rattle.vc_types.specs.Transforms.{is_within, source_of, lowest_width, lowest_height};
ghost use Rattle.vc_wave.specs.Layout.{row_in_turn};

use crate::sides::{lowest, side_at};
use vc_types::{Component, Plan};

/// Nested subbands of so many levels both ways, the lowest of which have w columns and h rows.
#[derive(Clone, Copy)]
pub struct Nesting {
    pub levels: u8,
    pub w: usize,
    pub h: usize,
}

/// The nested subbands of a component. The levels across alone belong to the lowest of them.
pub fn nesting_of(plan: &Plan, c: Component) -> Nesting
    ensures levels { result.levels ≡ plan.now.depth }
    ensures w { result.w
        ≡ lowest_width (parameters_of plan.now) c * 2 ^ (parameters_of plan.now).depth_ho }
    ensures h { result.h ≡ lowest_height (parameters_of plan.now) c }
    ensures some { (0 < result.w) × (0 < result.h) }
    ensures small { (result.w * 2 ^ result.levels < 2 ^ 60)
        × (result.h * 2 ^ result.levels < 2 ^ 60) }
{
    let (w, h) = lowest(plan, c);
    Nesting {
        levels: plan.depth,
        w: side_at(w, plan.depth_ho),
        h,
    }
}

// The row that a level takes the cell in column x and row y to, where the level's subbands have w columns and
// h rows.
fn row_of_level(w: usize, h: usize, x: usize, y: usize) -> usize
    requires { (w < 2 ^ 60) × (h < 2 ^ 60) }
    ensures { result ≡ (if is_within (2 * w) (2 * h) x y then source_of h y else y) }
{
    if x >= 2 * w || y >= 2 * h {
        y
    } else if y < h {
        2 * y
    } else {
        2 * (y - h) + 1
    }
}

/// Which row has the cell in column x and row y, once the rows are taken in turn.
pub fn row_in_turn(nesting: Nesting, x: usize, y: usize) -> usize
    requires levels { nesting.levels ≤ 5 }
    requires small { (nesting.w * 2 ^ nesting.levels < 2 ^ 60)
        × (nesting.h * 2 ^ nesting.levels < 2 ^ 60) }
    ensures { result ≡ row_in_turn nesting.levels nesting.w nesting.h x y }
{
    let mut row = y;
    for level in 0..nesting.levels {
        let (w, h) = (side_at(nesting.w, level), side_at(nesting.h, level));
        row = row_of_level(w, h, x, row);
    }
    row
}
