ghost use Rattle.std.specs.Prelude.{◌≡◌, ◌<◌, length, min, take, drop};

// Copies as many bytes as fit from the front of some bytes to the front of a buffer.
#[tactic(auto, using(crate::proofs::Fronts::front_and_rest))]
pub(crate) fn copy_front(bytes: &[u8], buf: &mut [u8]) -> usize
    requires bytes { 0 < length bytes.now }
    requires room { 0 < length buf.old }
    ensures count { result ≡ min (length bytes.now) (length buf.old) }
    ensures front { take result buf.new ≡ take result bytes.now }
    ensures rest { drop result buf.new ≡ drop result buf.old }
{
    let count = bytes.len().min(buf.len());
    buf[..count].copy_from_slice(&bytes[..count]);
    count
}
