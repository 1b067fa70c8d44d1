ghost use Rattle.std.specs.Prelude.{ℕ, ◌<◌};
ghost use Rattle.vc_types.specs.OfPlan.{IsMetOnce, padded_height, padded_width};

use vc_types::{Component, Plan};

/// Over all slices of a picture, one coefficient of a component, and no other, stands in each cell of its
/// padded grid.
pub fn each_cell_is_met_once(plan: &Plan, c: Component)
    ensures { (x y : ℕ) → x < padded_width plan.now c
        → y < padded_height plan.now c → IsMetOnce plan.now c x y }
{}
