ghost use Rattle.std.specs.Prelude.{◌≡◌, ℕ, ◌+◌, ◌-◌, ◌*◌, ◌/◌, ◌^◌, ◌<◌, ◌≤◌, length};
ghost use Rattle.vc_types.specs.Quantisation.{subband_count};
ghost use Rattle.vc_types.specs.Subbands.{subbands, subband_at, level_side, rect, nested};
ghost use Rattle.vc_types.specs.OfPlan.{band_count, padded_height, padded_width, subband_rectangle};

use crate::padding::padded;
use vc_types::{Component, Plan, Rect};

/// How many subbands a component has: LL, then H of each level across alone, then HL, LH and HH of each
/// level both ways.
pub fn bands(plan: &Plan) -> u32
    ensures value { result ≡ length (subbands plan.now.depth_ho plan.now.depth) }
    ensures count { result ≡ band_count plan.now }
    ensures range { (4 ≤ result) × (result ≤ 16) }
{
    1 + u32::from(plan.depth_ho) + 3 * u32::from(plan.depth)
}

/// Where subband number `b` stands in a component's padded grid (ST 2042-1, subband data dimensions).
pub fn band(plan: &Plan, c: Component, b: u32) -> Rect
    requires number { b < band_count plan.now }
    ensures value { result ≡ subband_rectangle plan.now c b }
    ensures right { result.x + result.width ≤ padded_width plan.now c }
    ensures bottom { result.y + result.height ≤ padded_height plan.now c }
    ensures range { (result.x + result.width ≤ 8192) × (result.y + result.height ≤ 8192) }
{
    let (width, height) = padded(plan, c);
    band_in(plan, c, width, height, b)
}

// The same, where the size of the padded grid is at hand.
pub(crate) fn band_in(plan: &Plan, c: Component, width: u32, height: u32, b: u32) -> Rect
    requires number { b < band_count plan.now }
    requires width { width ≡ padded_width plan.now c }
    requires height { height ≡ padded_height plan.now c }
    requires range { (width ≤ 8192) × (height ≤ 8192) }
    ensures value { result ≡ subband_rectangle plan.now c b }
    ensures right { result.x + result.width ≤ padded_width plan.now c }
    ensures bottom { result.y + result.height ≤ padded_height plan.now c }
    ensures range { (result.x + result.width ≤ 8192) × (result.y + result.height ≤ 8192) }
{
    let (across, depth) = (u32::from(plan.depth_ho), u32::from(plan.depth));
    let halvings = halvings(across, depth, b);
    let (width, height) = (width >> halvings.0, height >> halvings.1);
    let (x, y) = corner(across, b, width, height);
    Rect {
        x,
        y,
        width,
        height,
    }
}

// How often the padded plane's width and height are halved down to subband number b.
fn halvings(across: u32, depth: u32, b: u32) -> (u32, u32)
    requires levels { depth + across ≤ 5 }
    requires number { b < subband_count across depth }
    ensures width { (side : ℕ)
        → level_side side (depth + across) (depth + across) (subband_at across depth b).level
        ≡ side / 2 ^ result.0 }
    ensures height { (side : ℕ)
        → level_side side depth (depth + across) (subband_at across depth b).level
        ≡ side / 2 ^ result.1 }
    ensures range { (result.0 ≤ 5) × (result.1 ≤ 5) }
    ensures inner { (0 < b → 1 ≤ result.0) × (across < b → 1 ≤ result.1) }
{
    let level = b.min(across) + (b.saturating_sub(across) + 2) / 3;
    let levels = depth + across;
    let above = levels + 1 - level;
    (levels.min(above), depth.min(above))
}

// The upper left corner of subband number b, where it has this size.
fn corner(across: u32, b: u32, width: u32, height: u32) -> (u32, u32)
    ensures value { (depth : ℕ) → b < subband_count across depth
        → rect result.0 result.1 width height
        ≡ nested (subband_at across depth b).orientation width height }
    ensures left { (result.0 ≤ width) × (b ≡ 0 → result.0 ≡ 0) }
    ensures top { (result.1 ≤ height) × (b ≤ across → result.1 ≡ 0) }
{
    if b == 0 {
        return (0, 0);
    }
    if b <= across {
        return (width, 0);
    }
    match (b - across) % 3 {
        1 => (width, 0),
        2 => (0, height),
        _ => (width, height),
    }
}
