ghost use Rattle.std.specs.Prelude.{◌≡◌, ◌+◌, ◌^◌, ◌<◌, ◌≤◌};
ghost use Rattle.vc_types.specs.declared.video.Component.TheVariants.{Y, C1, C2};
ghost use Rattle.vc_types.specs.OfPlan.{band_count, padded_height, padded_width};
ghost use Rattle.vc_geometry.specs.OfPlan.{AreRunRectangles, IsRun, run_coefficient_count, run_rectangle};

use vc_geometry::{bands as band_count, run_rects};
use vc_types::{Component, Plan, Rect};

const NOWHERE: Rect = Rect {
    x: 0,
    y: 0,
    width: 0,
    height: 0,
};

/// A run of a plan, which is so many slices from one of them on, all in one row of slices; with the parts of
/// the subbands that belong to it, of luma and of a colour component.
#[derive(Clone, Copy)]
pub struct RunParts {
    pub plan: Plan,
    pub first: u32,
    pub count: u32,
    luma: [Rect; 16],
    colour: [Rect; 16],
    pub ghost run: { IsRun plan first count },
    ghost of_luma: { AreRunRectangles plan Y first count luma },
    ghost of_colour: { AreRunRectangles plan C1 first count colour },
    ghost of_other: { AreRunRectangles plan C2 first count colour },
}

impl RunParts {
    /// The parts of this run.
    pub fn new(plan: &Plan, first: u32, count: u32) -> RunParts
        requires run { IsRun plan.now first count }
        requires some { 0 < count }
        ensures plan { result.plan ≡ plan.now }
        ensures first { result.first ≡ first }
        ensures count { result.count ≡ count }
    {
        RunParts {
            plan: *plan,
            first,
            count,
            luma: rects_of(plan, Component::Y, first, count),
            colour: rects_of(plan, Component::C1, first, count),
        }
    }

    /// The part of subband number `b`.
    #[inline(always)]
    pub fn rect(&self, c: Component, b: u32) -> Rect
        requires number { b < band_count self.now.plan }
        ensures value { result ≡ run_rectangle self.now.plan c self.now.first self.now.count b }
        ensures right { result.x + result.width ≤ padded_width self.now.plan c }
        ensures bottom { result.y + result.height ≤ padded_height self.now.plan c }
        ensures range { (result.x + result.width ≤ 8192) × (result.y + result.height ≤ 8192) }
    {
        self.rects(c)[b as usize]
    }

    // The parts of a component's subbands, in front of others.
    #[inline(always)]
    fn rects(&self, c: Component) -> &[Rect; 16]
        ensures { AreRunRectangles self.now.plan c self.now.first self.now.count result.now }
    {
        match c {
            Component::Y => &self.luma,
            Component::C1 | Component::C2 => &self.colour,
        }
    }

    /// How many coefficients of a component the run has.
    pub fn coefficients(&self, c: Component) -> u32
        ensures value { result ≡ run_coefficient_count self.now.plan c self.now.first self.now.count }
        ensures range { result ≤ 2 ^ 30 }
    {
        let mut count = 0;
        for b in 0..band_count(&self.plan) {
            let rect = self.rect(c, b);
            count += rect.width * rect.height;
        }
        count
    }
}

// The parts of the subbands of a component that belong to a run, in front of others.
fn rects_of(plan: &Plan, c: Component, first: u32, count: u32) -> [Rect; 16]
    requires run { IsRun plan.now first count }
    requires some { 0 < count }
    ensures value { AreRunRectangles plan.now c first count result }
    ensures colours { c ≡ C1 → AreRunRectangles plan.now C2 first count result }
{
    let mut rects = [NOWHERE; 16];
    run_rects(plan, c, first, count, &mut rects);
    rects
}
