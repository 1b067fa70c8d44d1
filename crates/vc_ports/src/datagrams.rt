ghost use Rattle.std.specs.Prelude.{◌≡◌, ◌≤◌, length, take, ◌<◌, ◌^◌, OnSome, MatchOption, slice_get, None};
ghost use Rattle.std.specs.Prelude.{Some};
ghost use Rattle.vc_ports.specs.MemoryWires.{datagrams_in};

// The datagram at a place.
pub(crate) fn datagram_at(datagrams: &[Vec<u8>], i: usize) -> Option<&[u8]>
    ensures few { OnSome result (i < 2 ^ 63) }
    ensures one { MatchOption result (slice_get (datagrams_in datagrams.now) i ≡ None)
        (λ one. slice_get (datagrams_in datagrams.now) i ≡ Some one.now) }
{
    let datagram = datagrams.get(i)?;
    Some(datagram)
}

// Copies a datagram to the front of a buffer, and answers its length.
pub(crate) fn give(datagram: &[u8], buf: &mut [u8]) -> usize
    requires { length datagram.now ≤ length buf.old }
    ensures count { result ≡ length datagram.now }
    ensures front { take result buf.new ≡ datagram.now }
    ensures room { length buf.new ≡ length buf.old }
{
    let count = datagram.len();
    buf[..count].copy_from_slice(datagram);
    count
}
