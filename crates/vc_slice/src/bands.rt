ghost use Rattle.std.specs.Prelude.{◌≡◌, ◌+◌, ◌-◌, ◌^◌, ◌<◌, ◌≤◌, ◌↔◌, IfSome, IsSome, slice_index_or};
ghost use Rattle.vc_types.specs.declared.video.Component.TheVariants.{Y, C1, C2};
ghost use Rattle.vc_types.specs.OfPlan.{band_count, padded_height, padded_width, slice_count};
ghost use Rattle.vc_types.specs.Subbands.{area};
ghost use Rattle.vc_geometry.specs.OfPlan.{AreSliceRectangles};
ghost use Rattle.vc_quant.specs.Narrow.{IsNarrow};

use vc_geometry::{bands as band_count, slice_rects};
use vc_quant::{NarrowQuantiser, Quantiser};
use vc_types::{Component, Plan, Rect};

const NOWHERE: Rect = Rect {
    x: 0,
    y: 0,
    width: 0,
    height: 0,
};

/// A slice of a plan, with the parts of the subbands that belong to it, of luma and of a colour component.
#[derive(Clone, Copy)]
pub struct SliceParts {
    pub plan: Plan,
    pub slice: u32,
    luma: [Rect; 16],
    colour: [Rect; 16],
    pub ghost in_plan: { slice < slice_count plan },
    ghost of_luma: { AreSliceRectangles plan Y slice luma },
    ghost of_colour: { AreSliceRectangles plan C1 slice colour },
    ghost of_other: { AreSliceRectangles plan C2 slice colour },
}

/// The parts of a slice, and its quantisation index.
#[derive(Clone, Copy)]
pub struct SliceBands<'a> {
    pub parts: &'a SliceParts,
    pub index: u8,
    pub ghost index_is_known: { index ≤ 127 },
}

impl SliceParts {
    ghost use Rattle.vc_slice.specs.Bands.{coefficient_count, rectangle};

    /// The parts of this slice.
    pub fn new(plan: &Plan, slice: u32) -> SliceParts
        requires { slice < slice_count plan.now }
        ensures plan { result.plan ≡ plan.now }
        ensures slice { result.slice ≡ slice }
    {
        SliceParts {
            plan: *plan,
            slice,
            luma: rects_of(plan, Component::Y, slice),
            colour: rects_of(plan, Component::C1, slice),
        }
    }

    /// The part of subband number `b`.
    #[inline(always)]
    pub fn rect(&self, c: Component, b: u32) -> Rect
        requires number { b < band_count self.now.plan }
        ensures value { result ≡ rectangle self.now c b }
        ensures right { result.x + result.width ≤ padded_width self.now.plan c }
        ensures bottom { result.y + result.height ≤ padded_height self.now.plan c }
        ensures range { (result.x + result.width ≤ 8192) × (result.y + result.height ≤ 8192) }
    {
        self.rects(c)[b as usize]
    }

    // The parts of a component's subbands, in front of others.
    #[inline(always)]
    fn rects(&self, c: Component) -> &[Rect; 16]
        ensures { AreSliceRectangles self.now.plan c self.now.slice result.now }
    {
        match c {
            Component::Y => &self.luma,
            Component::C1 | Component::C2 => &self.colour,
        }
    }

    /// What the quantisation matrix has for subband number `b`.
    #[inline(always)]
    pub fn matrix_entry(&self, b: u32) -> u8
        requires { b < band_count self.now.plan }
        ensures { result ≡ slice_index_or self.now.plan.matrix b 0 }
    {
        self.plan.matrix[b as usize]
    }

    /// How many coefficients a subband has there.
    #[inline(always)]
    pub fn area(&self, c: Component, b: u32) -> u32
        requires number { b < band_count self.now.plan }
        ensures value { result ≡ area (rectangle self.now c b) }
        ensures range { result ≤ 2 ^ 26 }
    {
        let rect = self.rect(c, b);
        rect.width * rect.height
    }

    /// How many coefficients of a component the slice has.
    pub fn count(&self, c: Component) -> u32
        ensures { result ≡ coefficient_count self.now c }
    {
        let mut count = 0;
        for b in 0..band_count(&self.plan) {
            count += self.area(c, b);
        }
        count
    }
}

impl<'a> SliceBands<'a> {
    /// The bands of a slice of this index.
    pub fn new(parts: &'a SliceParts, index: u8) -> SliceBands<'a>
        requires { index ≤ 127 }
        ensures parts { result.parts.now ≡ parts.now }
        ensures index { result.index ≡ index }
    {
        SliceBands { parts, index }
    }

    /// The quantiser of subband number `b`.
    #[inline(always)]
    pub fn quantiser(&self, b: u32) -> Quantiser
        requires { b < band_count self.now.parts.now.plan }
        ensures { result.index
            ≡ self.now.index - slice_index_or self.now.parts.now.plan.matrix b 0 }
    {
        Quantiser::new(self.index.saturating_sub(self.parts.matrix_entry(b)))
    }

    /// The quantiser of the slice itself for numbers up to the greatest magnitude, if it is narrow: then
    /// those of its subbands are, at lower indexes.
    #[inline(always)]
    pub fn narrow(&self, greatest: u32) -> Option<NarrowQuantiser>
        ensures same { IfSome result
            (λ narrow. (narrow.index ≡ self.now.index) × (narrow.greatest ≡ greatest)) }
        ensures exactly { IsSome result ↔ IsNarrow greatest self.now.index }
    {
        Quantiser::new(self.index).narrow(greatest)
    }
}

// The parts of the subbands of a component that belong to a slice, in front of others.
fn rects_of(plan: &Plan, c: Component, slice: u32) -> [Rect; 16]
    requires { slice < slice_count plan.now }
    ensures value { AreSliceRectangles plan.now c slice result }
    ensures colours { c ≡ C1 → AreSliceRectangles plan.now C2 slice result }
{
    let mut rects = [NOWHERE; 16];
    slice_rects(plan, c, slice, &mut rects);
    rects
}
