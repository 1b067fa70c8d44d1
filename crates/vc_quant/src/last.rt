ghost use Rattle.std.specs.Prelude.{◌≡◌, ◌+◌, ◌-◌, ◌*◌, ◌/◌, ◌^◌, ◌<◌, ◌≤◌, ◌↔◌, ℕ};
ghost use Rattle.vc_types.specs.Quantisation.{quant_factor};
ghost use Rattle.vc_quant.specs.Reciprocal.{IsReciprocal};

use crate::factors::FACTORS;
use crate::quotient::quotient;

/// The highest quantisation index (0 to 127) at which `magnitude` quantises to some n with n + 1 >=
/// 2^`digits`.
#[inline]
pub fn last_index_with(digits: u32, magnitude: u64) -> u8
    requires digits { (1 ≤ digits) × (2 ^ digits ≤ magnitude + 1) }
    requires size { magnitude < 2 ^ 60 }
    ensures value { (q : ℕ) → q ≤ 127
        → (2 ^ digits ≤ 4 * magnitude / quant_factor q + 1) ↔ (q ≤ result) }
    ensures range { result ≤ 127 }
{
    let least = (1u64 << digits) - 1;
    last_index(quotient(4 * magnitude, least, reciprocal_of(digits)))
}

// Of the number whose binary digits are so many ones.
#[inline(always)]
fn reciprocal_of(digits: u32) -> u64
    requires { (1 ≤ digits) × (digits ≤ 60) }
    ensures { IsReciprocal (2 ^ digits - 1) result }
{
    RECIPROCALS[digits as usize]
}

// The last index whose factor is at most so many quarters.
#[inline(always)]
fn last_index(quarters: u64) -> u8
    requires { 4 ≤ quarters }
    ensures value { (q : ℕ) → q ≤ 127 → (quant_factor q ≤ quarters) ↔ (q ≤ result) }
    ensures range { result ≤ 127 }
{
    if quarters < 512 {
        last_of_few(quarters)
    } else {
        last_of_many(quarters)
    }
}

// The same by a table.
#[inline(always)]
fn last_of_few(quarters: u64) -> u8
    requires { (4 ≤ quarters) × (quarters < 512) }
    ensures value { (q : ℕ) → q ≤ 127 → (quant_factor q ≤ quarters) ↔ (q ≤ result) }
    ensures range { result ≤ 127 }
{
    LASTS[quarters as usize]
}

// The same without one.
#[inline(always)]
fn last_of_many(quarters: u64) -> u8
    requires { 4 ≤ quarters }
    ensures value { (q : ℕ) → q ≤ 127 → (quant_factor q ≤ quarters) ↔ (q ≤ result) }
    ensures range { result ≤ 127 }
{
    if quarters >= 1 << 34 {
        return 127;
    }
    // Each fourth factor is a power of two.
    let first = 4 * (quarters.ilog2() as usize - 2);
    let more = is_reached(FACTORS[first + 1], quarters)
        + is_reached(FACTORS[first + 2], quarters)
        + is_reached(FACTORS[first + 3], quarters);
    first as u8 + more
}

#[inline(always)]
fn is_reached(factor: u64, quarters: u64) -> u8
    ensures range { result ≤ 1 }
    ensures exactly { (result ≡ 1) ↔ (factor ≤ quarters) }
{
    u8::from(factor <= quarters)
}

static RECIPROCALS: [u64; 61] = [
    0, 4294967296, 1431655765, 613566756, 286331153, 138547332, 68174084, 33818640, 16843009,
    8405024, 4198404, 2098176, 1048832, 524352, 262160, 131076, 65537, 32768, 16384, 8192, 4096,
    2048, 1024, 512, 256, 128, 64, 32, 16, 8, 4, 2, 1, 0, 0, 0, 0, 0, 0, 0, 0, 0, 0, 0, 0, 0, 0, 0,
    0, 0, 0, 0, 0, 0, 0, 0, 0, 0, 0, 0, 0,
];

// The last index whose factor is at most the place, from 4 on.
static LASTS: [u8; 512] = [
    0, 0, 0, 0, 0, 1, 2, 3, 4, 4, 5, 6, 6, 7, 7, 7, 8, 8, 8, 9, 9, 9, 9, 10, 10, 10, 10, 11, 11,
    11, 11, 11, 12, 12, 12, 12, 12, 12, 13, 13, 13, 13, 13, 13, 13, 14, 14, 14, 14, 14, 14, 14, 14,
    14, 15, 15, 15, 15, 15, 15, 15, 15, 15, 15, 16, 16, 16, 16, 16, 16, 16, 16, 16, 16, 16, 16, 17,
    17, 17, 17, 17, 17, 17, 17, 17, 17, 17, 17, 17, 17, 17, 18, 18, 18, 18, 18, 18, 18, 18, 18, 18,
    18, 18, 18, 18, 18, 18, 18, 19, 19, 19, 19, 19, 19, 19, 19, 19, 19, 19, 19, 19, 19, 19, 19, 19,
    19, 19, 19, 20, 20, 20, 20, 20, 20, 20, 20, 20, 20, 20, 20, 20, 20, 20, 20, 20, 20, 20, 20, 20,
    20, 20, 20, 21, 21, 21, 21, 21, 21, 21, 21, 21, 21, 21, 21, 21, 21, 21, 21, 21, 21, 21, 21, 21,
    21, 21, 21, 21, 21, 21, 21, 21, 22, 22, 22, 22, 22, 22, 22, 22, 22, 22, 22, 22, 22, 22, 22, 22,
    22, 22, 22, 22, 22, 22, 22, 22, 22, 22, 22, 22, 22, 22, 22, 22, 22, 22, 23, 23, 23, 23, 23, 23,
    23, 23, 23, 23, 23, 23, 23, 23, 23, 23, 23, 23, 23, 23, 23, 23, 23, 23, 23, 23, 23, 23, 23, 23,
    23, 23, 23, 23, 23, 23, 23, 23, 23, 23, 23, 24, 24, 24, 24, 24, 24, 24, 24, 24, 24, 24, 24, 24,
    24, 24, 24, 24, 24, 24, 24, 24, 24, 24, 24, 24, 24, 24, 24, 24, 24, 24, 24, 24, 24, 24, 24, 24,
    24, 24, 24, 24, 24, 24, 24, 24, 24, 24, 24, 25, 25, 25, 25, 25, 25, 25, 25, 25, 25, 25, 25, 25,
    25, 25, 25, 25, 25, 25, 25, 25, 25, 25, 25, 25, 25, 25, 25, 25, 25, 25, 25, 25, 25, 25, 25, 25,
    25, 25, 25, 25, 25, 25, 25, 25, 25, 25, 25, 25, 25, 25, 25, 25, 25, 25, 25, 25, 25, 26, 26, 26,
    26, 26, 26, 26, 26, 26, 26, 26, 26, 26, 26, 26, 26, 26, 26, 26, 26, 26, 26, 26, 26, 26, 26, 26,
    26, 26, 26, 26, 26, 26, 26, 26, 26, 26, 26, 26, 26, 26, 26, 26, 26, 26, 26, 26, 26, 26, 26, 26,
    26, 26, 26, 26, 26, 26, 26, 26, 26, 26, 26, 26, 26, 26, 26, 26, 26, 26, 27, 27, 27, 27, 27, 27,
    27, 27, 27, 27, 27, 27, 27, 27, 27, 27, 27, 27, 27, 27, 27, 27, 27, 27, 27, 27, 27, 27, 27, 27,
    27, 27, 27, 27, 27, 27, 27, 27, 27, 27, 27, 27, 27, 27, 27, 27, 27, 27, 27, 27, 27, 27, 27, 27,
    27, 27, 27, 27, 27, 27, 27, 27, 27, 27, 27, 27, 27, 27, 27, 27, 27, 27, 27, 27, 27, 27, 27, 27,
    27, 27, 27,
];
