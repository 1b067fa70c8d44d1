ghost use Rattle.std.specs.Prelude.{◌≡◌, ◌==◌, ◌+◌, ◌-◌, ◌*◌, ◌<◌, ◌≤◌, ◌^◌, ◌++◌, replicate};
ghost use Rattle.std.specs.Int.{bit_at};
ghost use Rattle.vc_types.specs.Bits.{byte_bits, digit_of};
ghost use Rattle.vc_bits.specs.Inside.{low_bits};

// The bit of a byte at a place, counted from the most significant.
#[tactic(auto, using(std::proofs::lemmas::Nat::Bits::shr_and_one))]
pub(crate) fn bit_of(byte: u8, place: u8) -> bool
    requires { place < 8 }
    ensures { result ≡ (bit_at byte (7 - place) == 1) }
{
    (byte >> (7 - place)) & 1 == 1
}

// One more bit behind some bits of a byte.
pub(crate) fn with_bit(last: u8, count: u8, bit: bool) -> u8
    requires bits { last < 2 ^ count }
    requires count { count < 8 }
    ensures { result ≡ 2 * last + digit_of bit }
{
    if bit { 2 * last + 1 } else { 2 * last }
}

// The byte that begins with some bits and goes on with one alone.
pub(crate) fn filled(last: u8, count: u8, fill: bool) -> u8
    requires bits { last < 2 ^ count }
    requires count { count ≤ 8 }
    ensures { byte_bits result ≡ low_bits count last ++ replicate (8 - count) fill }
{
    let mut byte = last;
    for used in count..8 {
        byte = with_bit(byte, used, fill);
    }
    byte
}
