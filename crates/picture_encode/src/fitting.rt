ghost use Rattle.std.specs.Prelude.{◌≡◌, ◌+◌, ◌*◌, ◌/◌, ◌<◌, ◌≤◌, ℕ, map};
ghost use Rattle.std.specs.List.{range_with_len};
ghost use Rattle.link_model.specs.SendingPictures.{budget_share, least_fitting};
ghost use Rattle.vc_slice.specs.Bands.{AreCoefficients};
ghost use Rattle.vc_types.specs.OfPlan.{encoded_length};

use vc_slice::{SliceCoeffs, SliceParts, len_of_parts};

// The indices among which the least is that fits: none before the first fits, and the last does, or is 127.
#[derive(Clone, Copy)]
struct Bracket {
    first: u8,
    last: u8,
    // How far the next index lies from the nearest end, where only one end is found.
    step: u8,
}

impl Bracket {
    /// The next index that is tried, if more than one is left.
    fn next(&self) -> u8
        ensures { self.now.first < self.now.last → self.now.last ≤ 127 → 1 ≤ self.now.step
            → (self.now.first ≤ result) × (result < self.now.last) }
    {
        if self.first == 0 {
            self.last.saturating_sub(self.step)
        } else if self.last == 127 {
            self.first
                .saturating_add(self.step.saturating_sub(1))
                .min(126)
        } else {
            self.first.saturating_add(self.last) / 2
        }
    }
}

/// The least index at which a slice has at most so many bytes, and 127 where there is none: found from an
/// index on that may be near, since a slice is never longer at a greater index.
pub(crate) fn least_index(parts: &SliceParts, coeffs: &SliceCoeffs, bytes: u64, near: u8) -> u8
    requires coefficients { AreCoefficients parts.now coeffs.now }
    ensures value { result ≡ least_fitting bytes (map
        (λ q. encoded_length parts.now.plan parts.now.slice q coeffs.now) (range_with_len 0 128)) }
    ensures range { result ≤ 127 }
{
    let mut bracket = Bracket {
        first: 0,
        last: 127,
        step: 1,
    };
    let mut index = near.min(126);
    'tries: while bracket.first < bracket.last {
        if len_of_parts(parts, coeffs, index) <= bytes {
            bracket.last = index;
        } else {
            bracket.first = index + 1;
        }
        index = bracket.next();
        bracket.step = bracket.step.saturating_mul(2);
    }
    bracket.last
}

/// A slice's share of a budget for so many slices.
pub(crate) fn budget_share(bytes: u32, slices: u32, slice: u32) -> u64
    requires { 1 ≤ slices }
    ensures { result ≡ budget_share bytes slices slice }
{
    let before = u64::from(slice) * u64::from(bytes);
    let behind = before + u64::from(bytes);
    behind / u64::from(slices) - before / u64::from(slices)
}
