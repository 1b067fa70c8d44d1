ghost use Rattle.std.specs.Prelude.{◌≡◌, ◌+◌, ◌≤◌, ◌<◌, length, slice_set};
ghost use Rattle.vc_geometry.specs.OfPlan.{AreSliceRectangles};
ghost use Rattle.vc_geometry.specs.Parts.{part_of};
ghost use Rattle.vc_types.specs.OfPlan.{band_count, slice_count};

use crate::padding::padded;
use crate::slices::place_of_slice;
use crate::spans::{Span, part};
use vc_types::{Component, Plan, Rect};

/// The parts of all subbands, in their order, that belong to a slice: each as `slice_rect` gives it.
pub fn slice_rects(plan: &Plan, c: Component, slice: u32, rects: &mut [Rect])
    requires slice { slice < slice_count plan.now }
    requires room { band_count plan.now ≤ length rects.old }
    ensures { AreSliceRectangles plan.now c slice rects.new }
{
    let (width, height) = padded(plan, c);
    let (column, row) = place_of_slice(plan, slice);
    // What a slice has of a subband's side is what it has of the padded one, halved as often.
    let columns = Span::new(width, plan.slices_x, column);
    let rows = Span::new(height, plan.slices_y, row);
    let (across, depth) = (u32::from(plan.depth_ho), u32::from(plan.depth));
    let lowest = rows.halved(depth);
    rects[0] = part(0, 0, &columns.halved(depth + across), &lowest);
    for level in 0..across {
        let columns = columns.halved(depth + across - level);
        rects[(1 + level) as usize] = part(columns.side, 0, &columns, &lowest);
    }
    for level in 0..depth {
        let columns = columns.halved(depth - level);
        let rows = rows.halved(depth - level);
        put_level((1 + across + 3 * level) as usize, &columns, &rows, rects);
    }
}

// Puts the parts of a level's HL, LH and HH into their places, from what the slice has of its halved sides.
#[inline(always)]
fn put_level(b: usize, columns: &Span, rows: &Span, rects: &mut [Rect])
    requires room { b + 2 < length rects.old }
    requires half { (columns.now.side + columns.now.side ≤ 8192)
        × (rows.now.side + rows.now.side ≤ 8192) }
    ensures { rects.new ≡ slice_set (slice_set (slice_set rects.old
        b (part_of columns.now.side 0 columns.now rows.now))
        (b + 1) (part_of 0 rows.now.side columns.now rows.now))
        (b + 2) (part_of columns.now.side rows.now.side columns.now rows.now) }
{
    rects[b] = part(columns.side, 0, columns, rows);
    rects[b + 1] = part(0, rows.side, columns, rows);
    rects[b + 2] = part(columns.side, rows.side, columns, rows);
}
