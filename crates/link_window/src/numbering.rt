ghost use Rattle.std.specs.Prelude.{◌≡◌, ◌<◌, ◌^◌};
ghost use Rattle.link_model.specs.Numbers as numbers;

// How many numbers the 32 bits on the wire tell apart.
const SPAN: u128 = 1 << 32;

/// Where the numbers of a session begin, behind sessions with this greatest number.
#[tactic(auto, unfolding(link_model::specs::Numbers::base_above))]
pub fn base_above(greatest: u64) -> u128
    ensures value { result ≡ numbers.base_above greatest }
    ensures fits { result < 2 ^ 66 }
{
    (u128::from(greatest) + 8) / SPAN * SPAN + SPAN
}

/// The number with these 32 bits that is nearest to the greatest one.
#[tactic(auto, unfolding(link_model::specs::Numbers::nearest))]
pub fn nearest(greatest: u64, bits: u32) -> u128
    ensures value { result ≡ numbers.nearest greatest bits }
    ensures fits { result < 2 ^ 66 }
{
    let greatest = u128::from(greatest);
    let distance = (u128::from(bits) + SPAN - greatest % SPAN) % SPAN;
    if distance < SPAN / 2 {
        greatest + distance
    } else {
        (greatest + distance).saturating_sub(SPAN)
    }
}
