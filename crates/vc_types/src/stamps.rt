ghost use Rattle.std.specs.Prelude.{◌≡◌};
ghost use Rattle.vc_types.specs.Rates.{rate_view, stamp_at};

use crate::rate::FrameRate;

impl FrameRate {
    /// Each frame takes that many ticks.
    pub fn of_ticks(ticks: u32) -> FrameRate
        ensures { rate_view result ≡ record { ticks = ticks; frames = 1 } }
    {
        FrameRate {
            ticks: u64::from(ticks),
            frames: 1,
        }
    }

    /// The timestamp of a moment: the whole ticks before it, modulo 2^32.
    #[tactic(auto, unfolding(crate::specs::Rates::stamp_at))]
    pub fn stamp_at(&self, half_frames: u64) -> u32
        ensures { result ≡ stamp_at (rate_view self.now) half_frames }
    {
        let ticks = u128::from(half_frames) * u128::from(self.ticks);
        (ticks / (2 * u128::from(self.frames)) % (1 << 32)) as u32
    }
}
