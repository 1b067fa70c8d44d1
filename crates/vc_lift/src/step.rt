ghost use Rattle.vc_lift.specs.Growth.{IsPlain};

/// A step whose samples are counted in each parity, 0 for the even and 1 for the odd ones. It changes the
/// samples of one parity; beside number n of these, tap j meets number n + j - back of the others.
#[derive(Clone, Copy)]
pub(crate) struct Step<'a> {
    pub parity: usize,
    pub adds: bool,
    pub taps: &'a [i32],
    pub back: usize,
    pub shift: u32,
    pub ghost plain: { IsPlain (record {
      parity = parity;
      adds = adds;
      taps = taps.now;
      back = back;
      shift = shift;
    }) },
}
