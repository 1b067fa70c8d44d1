ghost use Rattle.std.specs.Prelude.{◌≡◌, ◌-◌, ◌*◌, ◌^◌, ◌<◌, ◌≤◌, All, IsTrue};
ghost use Rattle.std.specs.Option.{is_some};
ghost use Rattle.vc_types.specs.Subbands.{plane_width, plane_height, plane_depth, padded_width};
ghost use Rattle.vc_types.specs.Subbands.{padded_height};
ghost use Rattle.vc_types.specs.TransformParameters.{parameters_of};
ghost use Rattle.vc_wave.specs.ForwardBounds.{forward_fits_narrow, parted_level_bound};
ghost use Rattle.vc_wave.specs.Sides.{highest_width, highest_height};

use crate::analysis::sample_depth;
use crate::extents::{Level, highest};
use vc_types::{Component, Plan, Plane};

/// A plane that is transformed in 32 bits: how many bits its samples have, and the highest level, which takes
/// them apart once half of their range is taken away.
#[derive(Clone, Copy)]
pub(crate) struct Source<'a> {
    pub plane: &'a Plane,
    pub depth: u8,
    pub level: Level,
    pub ghost bits: { (1 ≤ depth) × (depth ≤ 16) },
    pub ghost some: { (1 ≤ plane.now.width) × (1 ≤ plane.now.height) },
    pub ghost across: { plane.now.width ≤ 2 * level.w },
    pub ghost samples: { All (λ s. s < 2 ^ depth) plane.now.samples },
    pub ghost fits: { IsTrue (is_some (parted_level_bound level.wavelets.down (2 ^ (depth - 1)))) },
}

/// A component's plane, and its highest level in rows of the padded width.
pub(crate) fn source_of<'a>(plan: &Plan, c: Component, plane: &'a Plane) -> Source<'a>
    requires width { plane.now.width ≡ plane_width plan.now.shape c }
    requires height { plane.now.height ≡ plane_height plan.now.shape c }
    requires samples { All (λ s. s < 2 ^ plane_depth plan.now.shape c) plane.now.samples }
    requires narrow { IsTrue (forward_fits_narrow (parameters_of plan.now)
        (2 ^ (plane_depth plan.now.shape c - 1))) }
    ensures plane { result.plane.now ≡ plane.now }
    ensures depth { result.depth ≡ plane_depth plan.now.shape c }
    ensures down { result.level.wavelets.down ≡ plan.now.wavelet }
    ensures w { result.level.w ≡ highest_width (parameters_of plan.now) c }
    ensures h { result.level.h ≡ highest_height (parameters_of plan.now) c }
    ensures columns { 2 * result.level.w ≡ padded_width (parameters_of plan.now) c }
    ensures rows { 2 * result.level.h ≡ padded_height (parameters_of plan.now) c }
    ensures small { (result.level.w ≤ 4096) × (result.level.h ≤ 4096) }
{
    Source {
        plane,
        depth: sample_depth(plan, c),
        level: highest(plan, c),
    }
}
