ghost use Rattle.std.specs.Prelude.{◌≡◌};
ghost use Rattle.cmd_probe.specs.Counting.{one_more, with_bytes};

/// One more; counts have 64 bits.
pub(crate) fn one_more(count: u64) -> u64
    ensures { result ≡ one_more count }
{
    count.wrapping_add(1)
}

/// So many bytes more.
pub(crate) fn with_bytes(count: u64, bytes: usize) -> u64
    ensures { result ≡ with_bytes count bytes }
{
    count.wrapping_add(bytes as u64)
}
