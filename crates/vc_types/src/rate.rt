ghost use Rattle.std.specs.Prelude.{◌<◌};

/// How fast frames follow one another: `frames` of them take `ticks` ticks of the clock of 90,000 a second
/// that RTP's timestamps of video tell (RFC 8450, 4).
#[derive(Clone, Copy)]
pub struct FrameRate {
    pub ticks: u64,
    pub frames: u32,
    pub ghost some: { 0 < frames },
}
