ghost use Rattle.std.specs.Prelude.{◌≡◌, ◌+◌, ◌*◌, ◌^◌, ◌<◌, ◌≤◌};
ghost use Rattle.vc_types.specs.OfPlan.{coefficient_place, padded_height, padded_width};
ghost use Rattle.vc_types.specs.OfPlan.{slice_coefficient_count, slice_count};

use crate::slices::slice_rect;
use crate::subbands::bands;
use vc_types::{Component, Plan};

/// The column and row in a component's padded grid of coefficient number `i` of a slice: the subbands in
/// order, and in each the slice's rectangle row by row. To visit them all, walk the rectangles of
/// `slice_rect`.
pub fn place_of(plan: &Plan, c: Component, slice: u32, i: u32) -> (u32, u32)
    requires slice { slice < slice_count plan.now }
    requires number { i < slice_coefficient_count plan.now c slice }
    ensures value { result ≡ coefficient_place plan.now c slice i }
    ensures column { result.0 < padded_width plan.now c }
    ensures row { result.1 < padded_height plan.now c }
    ensures range { (result.0 < 8192) × (result.1 < 8192) }
{
    let mut left = i;
    for b in 0..bands(plan) {
        let rect = slice_rect(plan, c, b, slice);
        let area = rect.width * rect.height;
        if left < area {
            return (rect.x + left % rect.width, rect.y + left / rect.width);
        }
        left -= area;
    }
    unreachable!()
}
