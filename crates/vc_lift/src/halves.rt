ghost use Rattle.std.specs.Prelude.{◌≡◌, ◌+◌, ◌*◌, ◌^◌, ◌<◌};
ghost use Rattle.vc_lift.specs.Halves.{half_start};

/// Lines that stand side by side among cells: where the first of them has its first even and its first odd
/// sample, how far each sample is from the next of its parity, and how many there are of each.
#[derive(Clone, Copy)]
pub struct Halves {
    pub even: usize,
    pub odd: usize,
    pub pitch: usize,
    pub half: usize,
}

/// Where the first line has sample number n of a parity.
#[inline(always)]
pub(crate) fn place(halves: &Halves, parity: usize, n: usize) -> usize
    requires { half_start halves.now parity + n * halves.now.pitch < 2 ^ 64 }
    ensures { result ≡ half_start halves.now parity + n * halves.now.pitch }
{
    let start = if parity == 0 { halves.even } else { halves.odd };
    start + n * halves.pitch
}
