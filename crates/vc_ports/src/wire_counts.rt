ghost use Rattle.std.specs.Prelude.{◌≡◌};
ghost use Rattle.vc_ports.specs.WireCounts.{sent_one, ended_once, kept_one, asked_for};

/// What was asked of a wire and what it said, as each wire counts it. A count stays at its last value.
#[derive(Clone, Copy, Debug, PartialEq, Eq)]
pub struct WireCounts {
    /// How many datagrams it sent or lost.
    pub sends: u64,
    /// How often it said that nothing more will come.
    pub ends: u64,
    /// How often it was told that a datagram was kept.
    pub kept: u64,
    /// After how many seconds it was asked to end; 0: never.
    pub idle: u32,
}

impl WireCounts {
    /// Those of a wire of which nothing was asked.
    pub const NONE: WireCounts = WireCounts {
        sends: 0,
        ends: 0,
        kept: 0,
        idle: 0,
    };

    /// Counts a datagram that was sent, or lost.
    pub fn count_sent(&mut self)
        ensures { self.new ≡ sent_one self.old }
    {
        self.sends = self.sends.saturating_add(1);
    }

    /// Counts that the wire said that nothing more will come.
    pub fn count_end(&mut self)
        ensures { self.new ≡ ended_once self.old }
    {
        self.ends = self.ends.saturating_add(1);
    }

    /// Counts that the wire was told that a datagram was kept.
    pub fn count_kept(&mut self)
        ensures { self.new ≡ kept_one self.old }
    {
        self.kept = self.kept.saturating_add(1);
    }

    /// Takes after how many seconds the wire is to end.
    pub fn ask(&mut self, seconds: u32)
        ensures { self.new ≡ asked_for seconds self.old }
    {
        self.idle = seconds;
    }
}
