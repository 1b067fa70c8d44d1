ghost use Rattle.std.specs.Prelude.{◌≤◌, ◌<◌, length};
ghost use Rattle.vc_types.specs.OfPlan.{band_count};
ghost use Rattle.vc_geometry.specs.OfPlan.{AreRunRectangles, IsRun};

use crate::parts::slice_rects;
use crate::subbands::bands;
use vc_types::{Component, Plan, Rect};

const NOWHERE: Rect = Rect {
    x: 0,
    y: 0,
    width: 0,
    height: 0,
};

/// The parts of all subbands, in their order, that belong to a run: so many slices from one of them on, all
/// in one row of slices.
pub fn run_rects(plan: &Plan, c: Component, first: u32, count: u32, rects: &mut [Rect])
    requires run { IsRun plan.now first count }
    requires some { 0 < count }
    requires room { band_count plan.now ≤ length rects.old }
    ensures { AreRunRectangles plan.now c first count rects.new }
{
    let mut firsts = [NOWHERE; 16];
    slice_rects(plan, c, first, &mut firsts);
    let mut lasts = [NOWHERE; 16];
    slice_rects(plan, c, first + (count - 1), &mut lasts);
    for b in 0..bands(plan) {
        let from = firsts[b as usize];
        let to = lasts[b as usize];
        rects[b as usize] = Rect {
            x: from.x,
            y: from.y,
            width: to.x + to.width - from.x,
            height: from.height,
        };
    }
}
