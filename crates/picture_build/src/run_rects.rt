ghost use Rattle.std.specs.Prelude.{◌≡◌, ◌+◌, ◌<◌, ◌≤◌};
ghost use Rattle.vc_types.specs.OfPlan.{band_count, padded_height, padded_width};
ghost use Rattle.vc_geometry.specs.OfPlan.{AreRunRectangles, IsRun, run_rectangle};

use vc_geometry::run_rects;
use vc_types::{Component, Plan, Rect};

const NOWHERE: Rect = Rect {
    x: 0,
    y: 0,
    width: 0,
    height: 0,
};

/// A run of a plan, and the parts of a component's subbands that belong to it.
#[derive(Clone, Copy)]
pub(crate) struct RunRects {
    pub(crate) plan: Plan,
    pub(crate) component: Component,
    pub(crate) first: u32,
    pub(crate) count: u32,
    rects: [Rect; 16],
    pub(crate) ghost run: { IsRun plan first count },
    ghost parts: { AreRunRectangles plan component first count rects },
}

impl RunRects {
    /// The parts of this run.
    pub(crate) fn new(plan: &Plan, component: Component, first: u32, count: u32) -> RunRects
        requires run { IsRun plan.now first count }
        requires some { 0 < count }
        ensures plan { result.plan ≡ plan.now }
        ensures component { result.component ≡ component }
        ensures first { result.first ≡ first }
        ensures count { result.count ≡ count }
    {
        let mut rects = [NOWHERE; 16];
        run_rects(plan, component, first, count, &mut rects);
        RunRects {
            plan: *plan,
            component,
            first,
            count,
            rects,
        }
    }

    /// The part of subband number `b`.
    pub(crate) fn rect(&self, b: u32) -> Rect
        requires number { b < band_count self.now.plan }
        ensures value { result
            ≡ run_rectangle self.now.plan self.now.component self.now.first self.now.count b }
        ensures right { result.x + result.width ≤ padded_width self.now.plan self.now.component }
        ensures bottom { result.y + result.height ≤ padded_height self.now.plan self.now.component }
        ensures range { (result.x + result.width ≤ 8192) × (result.y + result.height ≤ 8192) }
    {
        self.rects[b as usize]
    }
}
