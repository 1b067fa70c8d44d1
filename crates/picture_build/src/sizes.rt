ghost use Rattle.std.specs.Prelude.{◌≡◌, ◌*◌, ◌^◌, ◌<◌, ◌≤◌, ℕ};
ghost use Rattle.vc_types.specs.declared.video.Component.{Component};
ghost use Rattle.vc_types.specs.OfPlan.{padded_height, padded_width, slice_coefficient_count, slice_count};

use vc_geometry::{band, bands as band_count, padded};
use vc_types::{Component, Plan};

/// The cells of a component.
pub(crate) fn cell_count(plan: &Plan, c: Component) -> usize
    ensures value { result ≡ padded_height plan.now c * padded_width plan.now c }
{
    let (width, height) = padded(plan, c);
    height as usize * width as usize
}

/// At least as many coefficients as any slice has of one component.
pub(crate) fn most_coefficients(plan: &Plan) -> u32
    ensures most { (c : Component) (n : ℕ) → n < slice_count plan.now
        → slice_coefficient_count plan.now c n ≤ result }
    ensures range { result ≤ 2 ^ 30 }
{
    let y = most_of(plan, Component::Y);
    let c1 = most_of(plan, Component::C1);
    let c2 = most_of(plan, Component::C2);
    y.max(c1).max(c2)
}

// A slice has at most its share of each subband's columns and rows, rounded up.
fn most_of(plan: &Plan, c: Component) -> u32
    ensures most { (n : ℕ) → n < slice_count plan.now
        → slice_coefficient_count plan.now c n ≤ result }
    ensures range { result ≤ 2 ^ 30 }
{
    let mut most = 0;
    for b in 0..band_count(plan) {
        let band = band(plan, c, b);
        most += band.width.div_ceil(plan.slices_x) * band.height.div_ceil(plan.slices_y);
    }
    most
}
