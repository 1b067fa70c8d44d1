ghost use Rattle.std.specs.Prelude.{◌≡◌, ◌+◌, ◌-◌, ◌*◌, ◌/◌, ◌^◌, ◌<◌, ◌≤◌, length};
ghost use Rattle.vc_types.specs.Subbands.{share, share_start};
ghost use Rattle.vc_geometry.specs.Rectangles.{AreSliceRectangles};
ghost use Rattle.vc_types.specs.OfPlan.{band_count, padded_height, padded_width, slice_coefficient_count};
ghost use Rattle.vc_types.specs.OfPlan.{slice_column, slice_count, slice_rectangle, slice_row};

use crate::spans::{Span, part};
use crate::subbands::{band, bands};
use vc_types::{Component, Plan, Rect};

/// The part of subband number `b` that belongs to a slice, as a rectangle of the component's padded grid
/// (ST 2042-1, slice coordinates). It may be empty.
pub fn slice_rect(plan: &Plan, c: Component, b: u32, slice: u32) -> Rect
    requires number { b < band_count plan.now }
    requires slice { slice < slice_count plan.now }
    ensures value { result ≡ slice_rectangle plan.now c b slice }
    ensures right { result.x + result.width ≤ padded_width plan.now c }
    ensures bottom { result.y + result.height ≤ padded_height plan.now c }
    ensures range { (result.x + result.width ≤ 8192) × (result.y + result.height ≤ 8192) }
{
    let band = band(plan, c, b);
    let (column, row) = place_of_slice(plan, slice);
    let columns = Span::new(band.width, plan.slices_x, column);
    let rows = Span::new(band.height, plan.slices_y, row);
    part(band.x, band.y, &columns, &rows)
}

// The column and row of slices that a slice stands in.
pub(crate) fn place_of_slice(plan: &Plan, slice: u32) -> (u32, u32)
    requires { slice < slice_count plan.now }
    ensures column { result.0 ≡ slice_column plan.now slice }
    ensures row { result.1 ≡ slice_row plan.now slice }
    ensures range { (result.0 < plan.now.slices_x) × (result.1 < plan.now.slices_y) }
{
    (slice % plan.slices_x, slice / plan.slices_x)
}

/// How many coefficients of a component a slice has.
pub fn slice_len(plan: &Plan, c: Component, slice: u32) -> u32
    requires slice { slice < slice_count plan.now }
    ensures value { result ≡ slice_coefficient_count plan.now c slice }
    ensures range { result ≤ 2 ^ 30 }
{
    let mut len = 0;
    for b in 0..bands(plan) {
        let rect = slice_rect(plan, c, b, slice);
        len += rect.width * rect.height;
    }
    len
}
