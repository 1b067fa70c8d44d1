ghost use Rattle.std.specs.Prelude.{◌≡◌, ◌+◌, ◌*◌, ◌/◌, ◌^◌, ◌<◌, ◌≤◌};
ghost use Rattle.vc_quant.specs.Reciprocal.{IsReciprocal};

/// The quotient of two numbers, where what 2 ^ 32 divided by the divisor is stands beside it.
#[inline(always)]
pub(crate) fn quotient(size: u64, divisor: u64, reciprocal: u64) -> u64
    requires divisor { 0 < divisor }
    requires reciprocal { IsReciprocal divisor reciprocal }
    ensures { result ≡ size / divisor }
{
    if size < 1 << 32 {
        short_quotient(size, divisor, reciprocal)
    } else {
        size / divisor
    }
}

// The product is one too small at most.
#[inline(always)]
fn short_quotient(size: u64, divisor: u64, reciprocal: u64) -> u64
    requires size { size < 2 ^ 32 }
    requires divisor { 0 < divisor }
    requires reciprocal { IsReciprocal divisor reciprocal }
    ensures { result ≡ size / divisor }
{
    let quotient = (size * reciprocal) >> 32;
    if size - quotient * divisor >= divisor {
        quotient + 1
    } else {
        quotient
    }
}
