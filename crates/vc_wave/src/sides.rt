ghost use Rattle.std.specs.Prelude.{◌≡◌, ◌+◌, ◌*◌, ◌/◌, ◌^◌, ◌<◌, ◌≤◌};
ghost use Rattle.vc_types.specs.Subbands.{padded_width, padded_height};
ghost use Rattle.vc_types.specs.TransformParameters.{parameters_of};
ghost use Rattle.vc_types.specs.Transforms.{lowest_width, lowest_height};

use vc_geometry::padded;
use vc_types::{Component, Plan};

/// The columns and rows of a component's lowest subband.
pub(crate) fn lowest(plan: &Plan, c: Component) -> (usize, usize)
    ensures width { result.0 ≡ lowest_width (parameters_of plan.now) c }
    ensures height { result.1 ≡ lowest_height (parameters_of plan.now) c }
    ensures some { (0 < result.0) × (0 < result.1) }
    ensures narrow { result.0 < 2 ^ 32 }
    ensures small { (padded_width (parameters_of plan.now) c < 2 ^ 32)
        × (padded_height (parameters_of plan.now) c < 2 ^ 32) }
{
    let (width, height) = padded(plan, c);
    (
        width as usize >> (plan.depth + plan.depth_ho),
        height as usize >> plan.depth,
    )
}

/// A side of the subbands of a level that lies so many above the lowest.
pub(crate) fn side_at(lowest: usize, level: u8) -> usize
    requires level { level ≤ 5 }
    requires fits { lowest * 2 ^ level < 2 ^ 64 }
    ensures { result ≡ lowest * 2 ^ level }
{
    lowest << level
}
