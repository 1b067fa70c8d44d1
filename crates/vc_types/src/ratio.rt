ghost use Rattle.std.specs.Prelude.{◌≡◌, ◌≤◌};
ghost use Rattle.vc_types.specs.Ratios.{greatest_divisor, lowest_terms};

// The greatest number that divides both.
#[tactic(auto, unfolding(crate::specs::Ratios::greatest_divisor))]
fn greatest_divisor(a: u32, b: u32) -> u32
    requires { 1 ≤ b }
    ensures value { result ≡ greatest_divisor a b }
    ensures some { 1 ≤ result }
{
    let mut dividend = a;
    let mut divisor = b;
    'steps: while divisor != 0 {
        let rest = dividend % divisor;
        dividend = divisor;
        divisor = rest;
    }
    dividend
}

/// A numerator over a denominator in lowest terms.
#[tactic(auto, unfolding(crate::specs::Ratios::lowest_terms))]
pub(crate) fn lowest_terms(ratio: (u32, u32)) -> (u32, u32)
    requires { 1 ≤ ratio.1 }
    ensures { result ≡ lowest_terms ratio }
{
    let (numerator, denominator) = ratio;
    let divisor = greatest_divisor(numerator, denominator);
    (numerator / divisor, denominator / divisor)
}
