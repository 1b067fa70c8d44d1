ghost use Rattle.std.specs.Prelude.{◌≡◌, ◌+◌, ◌*◌, ◌/◌, ◌<◌, ◌≤◌, take, drop, length, slice_index_or};
ghost use Rattle.vc_types.specs.Bits.{byte_bits, bits_of, number_of};
ghost use Rattle.vc_types.specs.Bounded.{BeginsWith};
ghost use Rattle.vc_bits.specs.Bits.{word_bits};

// The eight bits behind those of the first byte that were used. Ones stand behind the last byte.
#[tactic(auto, using(crate::proofs::Peeking::peeked))]
pub(crate) fn peek(rest: &[u8], used: u8) -> u8
    requires { used < 8 }
    ensures { BeginsWith (drop used (bits_of rest.now)) (byte_bits result) }
{
    let word = u16::from(byte_at(rest, 0)) * 256 + u16::from(byte_at(rest, 1));
    ((word >> (8 - used)) % 256) as u8
}

fn byte_at(rest: &[u8], place: usize) -> u8
    ensures { result ≡ slice_index_or rest.now place 255 }
{
    if place < rest.len() { rest[place] } else { 255 }
}

// The bytes behind some bits, and how many bits of the first of them were used.
#[tactic(auto, using(crate::proofs::Peeking::skips))]
pub(crate) fn skip<'a>(rest: &'a [u8], used: u8, bits: u32) -> (&'a [u8], u8)
    requires { used < 8 }
    ensures left { drop result.1 (bits_of result.0.now) ≡ drop bits (drop used (bits_of rest.now)) }
    ensures used { result.1 < 8 }
    ensures some { 0 < result.1 → 0 < length result.0.now }
    ensures shorter { length result.0.now ≤ length rest.now }
    ensures counted { used + bits ≤ 8 * length rest.now
        → 8 * length result.0.now + (used + bits) ≡ 8 * length rest.now + result.1 }
{
    let to = used as usize + bits as usize;
    if to / 8 < rest.len() {
        let (_, after) = rest.split_at(to / 8);
        (after, (to % 8) as u8)
    } else {
        let (_, after) = rest.split_at(rest.len());
        (after, 0)
    }
}

// The number that the first bits of bytes make, so many.
pub(crate) fn first_bits(bytes: &[u8], count: u8) -> u8
    requires few { count < 8 }
    requires some { 0 < count → 0 < length bytes.now }
    ensures { word_bits count result ≡ take count (bits_of bytes.now) }
{
    if count == 0 {
        return 0;
    }
    bytes[0] >> (8 - count)
}

// The number of which the n bits behind the used ones are the digits.
pub(crate) fn number(rest: &[u8], used: u8, n: u32) -> u32
    requires small { n ≤ 32 }
    requires used { used < 8 }
    requires enough { used + n ≤ 8 * length rest.now }
    ensures { result ≡ number_of (take n (drop used (bits_of rest.now))) }
{
    let to = used as u32 + n;
    let bytes = to.div_ceil(8);
    let mut number = 0u64;
    for place in 0..bytes {
        number = number * 256 + u64::from(rest[place as usize]);
    }
    ((number >> (8 * bytes - to)) % (1 << n)) as u32
}
