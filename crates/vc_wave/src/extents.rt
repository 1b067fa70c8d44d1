ghost use Rattle.std.specs.Prelude.{◌≡◌, ◌*◌, ◌^◌, ◌<◌, ◌≤◌};
ghost use Rattle.vc_types.specs.Subbands.{padded_width, padded_height};
ghost use Rattle.vc_types.specs.TransformParameters.{parameters_of};
ghost use Rattle.vc_types.specs.Transforms.{lowest_width, lowest_height};
ghost use Rattle.vc_wave.specs.Sides.{highest_width, highest_height};

use crate::sides::side_at;
use crate::turn::{Nesting, nesting_of};
use vc_geometry::padded;
use vc_types::{Component, Plan};

/// The wavelets of columns and rows.
#[derive(Clone, Copy)]
pub(crate) struct Wavelets {
    pub down: u8,
    pub across: u8,
    pub ghost down_is_known: { down ≤ 6 },
    pub ghost across_is_known: { across ≤ 6 },
}

/// Levels both ways, one above another, and how far apart the rows stand that hold them.
#[derive(Clone, Copy)]
pub(crate) struct Levels {
    pub wavelets: Wavelets,
    pub nesting: Nesting,
    pub pitch: usize,
    pub ghost few: { nesting.levels ≤ 5 },
    pub ghost some_columns: { 0 < nesting.w },
    pub ghost some_rows: { 0 < nesting.h },
    pub ghost narrow: { nesting.w * 2 ^ nesting.levels < 2 ^ 60 },
    pub ghost low: { nesting.h * 2 ^ nesting.levels < 2 ^ 60 },
}

impl Levels {
    /// Level number `n` of them, counted from the lowest up, in rows that stand so far apart.
    pub(crate) fn level(self, n: u8, pitch: usize) -> Level
        requires { n < self.nesting.levels }
        ensures wavelets { result.wavelets ≡ self.wavelets }
        ensures pitch { result.pitch ≡ pitch }
        ensures w { result.w ≡ self.nesting.w * 2 ^ n }
        ensures h { result.h ≡ self.nesting.h * 2 ^ n }
    {
        Level {
            wavelets: self.wavelets,
            pitch,
            w: side_at(self.nesting.w, n),
            h: side_at(self.nesting.h, n),
        }
    }
}

/// A level both ways: how far apart its rows stand, and how many columns and rows its subbands have.
#[derive(Clone, Copy)]
pub(crate) struct Level {
    pub wavelets: Wavelets,
    pub pitch: usize,
    pub w: usize,
    pub h: usize,
    pub ghost some_columns: { 0 < w },
    pub ghost some_rows: { 0 < h },
    pub ghost narrow: { w < 2 ^ 60 },
    pub ghost low: { h < 2 ^ 60 },
}

/// Rows that are put together or taken apart: their wavelet, how far apart they stand, how many there are,
/// and half of the cells of each.
#[derive(Clone, Copy)]
pub(crate) struct Rows {
    pub wavelet: u8,
    pub pitch: usize,
    pub count: usize,
    pub half: usize,
    pub ghost wavelet_is_known: { wavelet ≤ 6 },
    pub ghost some: { 0 < half },
    pub ghost narrow: { half < 2 ^ 60 },
}

/// The levels both ways of a component, in rows that stand so far apart.
pub(crate) fn levels_of(plan: &Plan, c: Component, pitch: usize) -> Levels
    ensures down { result.wavelets.down ≡ plan.now.wavelet }
    ensures across { result.wavelets.across ≡ plan.now.wavelet_ho }
    ensures levels { result.nesting.levels ≡ plan.now.depth }
    ensures w { result.nesting.w
        ≡ lowest_width (parameters_of plan.now) c * 2 ^ (parameters_of plan.now).depth_ho }
    ensures h { result.nesting.h ≡ lowest_height (parameters_of plan.now) c }
    ensures pitch { result.pitch ≡ pitch }
{
    Levels {
        wavelets: Wavelets {
            down: plan.wavelet,
            across: plan.wavelet_ho,
        },
        nesting: nesting_of(plan, c),
        pitch,
    }
}

/// The highest level of a component, in rows of the padded width.
pub(crate) fn highest(plan: &Plan, c: Component) -> Level
    ensures down { result.wavelets.down ≡ plan.now.wavelet }
    ensures across { result.wavelets.across ≡ plan.now.wavelet_ho }
    ensures pitch { result.pitch ≡ padded_width (parameters_of plan.now) c }
    ensures w { result.w ≡ highest_width (parameters_of plan.now) c }
    ensures h { result.h ≡ highest_height (parameters_of plan.now) c }
    ensures columns { 2 * result.w ≡ padded_width (parameters_of plan.now) c }
    ensures rows { 2 * result.h ≡ padded_height (parameters_of plan.now) c }
    ensures small { (result.w ≤ 4096) × (result.h ≤ 4096) }
{
    let (stride, _) = padded(plan, c);
    let levels = levels_of(plan, c, stride as usize);
    levels.level(plan.depth - 1, stride as usize)
}
