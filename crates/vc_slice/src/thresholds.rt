ghost use Rattle.std.specs.Prelude.{◌≡◌, ◌+◌, ◌-◌, ◌*◌, ◌^◌, ◌<◌, ◌≤◌, ℕ, All, length, nat_le, unsigned_abs};
ghost use Rattle.std.specs.Prelude.{if◌then◌else◌};
ghost use Rattle.vc_types.specs.Lifting.{line_of};
ghost use Rattle.vc_slice.specs.Thresholds.{more_bits, reaching};

/// How many coefficients, of magnitudes up to `most`, there are up to the last that isn't quantised to 0 by a
/// factor in quarters.
pub(crate) fn used(coefficients: &[i32], most: u32, factor: u64) -> usize
    requires most { All (λ z. unsigned_abs z ≤ most) coefficients.now }
    ensures range { result ≤ length coefficients.now }
    ensures zeros { (i : ℕ) → result ≤ i → i < length coefficients.now
        → 4 * unsigned_abs (line_of coefficients.now i) < factor }
    ensures other { 0 < result
        → factor ≤ 4 * unsigned_abs (line_of coefficients.now (result - 1)) }
{
    // Runs of zeros alone are many.
    if 4 * u64::from(most) < factor {
        return 0;
    }
    let mut count = coefficients.len();
    'zeros: while count > 0 {
        if quarters_of(coefficients[count - 1]) >= factor {
            return count;
        }
        count -= 1;
    }
    0
}

/// How many bits beyond one each the codes of the numbers have that coefficients, of magnitudes up to `most`,
/// are quantised to by a factor in quarters. Nothing is divided: a number that 1 is added to has so many
/// binary digits exactly where its coefficient reaches a threshold. The first adds three bits, each that
/// follows two.
pub(crate) fn more_bits(coefficients: &[i32], most: u32, factor: u64) -> u64
    requires most { All (λ z. unsigned_abs z ≤ most) coefficients.now }
    requires factor { (4 ≤ factor) × (factor < 2 ^ 34) }
    requires few { length coefficients.now ≤ 2 ^ 26 }
    ensures value { result ≡ more_bits 60 factor coefficients.now }
    ensures range { result ≤ 121 * length coefficients.now }
{
    let quarters = 4 * u64::from(most);
    if quarters < factor {
        return 0;
    }
    let mut bits = 3 * reaching(coefficients, factor);
    let mut digits = 2u32;
    let mut threshold = 3 * factor;
    'thresholds: while threshold <= quarters {
        bits += 2 * reaching(coefficients, threshold);
        threshold = 2 * threshold + factor;
        digits += 1;
    }
    bits
}

// How many coefficients have so many quarters.
#[inline(always)]
fn reaching(coefficients: &[i32], quarters: u64) -> u64
    requires narrow { quarters + 4 ≤ 2 ^ 34 }
    requires few { length coefficients.now ≤ 2 ^ 26 }
    ensures value { result ≡ reaching quarters coefficients.now }
    ensures range { result ≤ length coefficients.now }
{
    let least = ((quarters + 3) / 4) as u32;
    let mut count = 0u32;
    for coefficient in coefficients {
        count += reaches(*coefficient, least);
    }
    u64::from(count)
}

#[inline(always)]
fn reaches(coefficient: i32, least: u32) -> u32
    ensures { result ≡ (if nat_le least (unsigned_abs coefficient) then 1 else 0) }
{
    u32::from(coefficient.unsigned_abs() >= least)
}

// The quarters of a coefficient's magnitude.
#[inline(always)]
fn quarters_of(coefficient: i32) -> u64
    ensures { result ≡ 4 * unsigned_abs coefficient }
{
    4 * u64::from(coefficient.unsigned_abs())
}
