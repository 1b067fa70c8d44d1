ghost use Rattle.std.specs.Prelude.{◌≡◌, ◌≤◌};
ghost use Rattle.vc_types.specs.Subbands.{plane_width, plane_height};
ghost use Rattle.vc_types.specs.OfPlan.{padded_height, padded_width};

use vc_types::{Component, Plan, padded as padded_side};

/// The width and height of a component's plane, padded up to multiples of 2^(depth + depth_ho) and 2^depth
/// (ST 2042-1, subband data dimensions).
pub fn padded(plan: &Plan, c: Component) -> (u32, u32)
    ensures width { result.0 ≡ padded_width plan.now c }
    ensures height { result.1 ≡ padded_height plan.now c }
    ensures range { (1 ≤ result.0) × (result.0 ≤ 8192) × (1 ≤ result.1) × (result.1 ≤ 8192) }
{
    let (width, height) = size(plan, c);
    (
        padded_side(width, plan.depth + plan.depth_ho),
        padded_side(height, plan.depth),
    )
}

// The width and height of a component's plane.
fn size(plan: &Plan, c: Component) -> (u32, u32)
    ensures width { result.0 ≡ plane_width plan.now.shape c }
    ensures height { result.1 ≡ plane_height plan.now.shape c }
    ensures range { (1 ≤ result.0) × (result.0 ≤ 8192) × (1 ≤ result.1) × (result.1 ≤ 8192) }
{
    match c {
        Component::Y => (plan.shape.luma_width, plan.shape.luma_height),
        Component::C1 | Component::C2 => (plan.shape.colour_width, plan.shape.colour_height),
    }
}
