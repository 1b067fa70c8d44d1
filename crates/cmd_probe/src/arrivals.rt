ghost use Rattle.std.specs.Prelude.{◌≡◌};
ghost use Rattle.cmd_probe.specs.Arrivals.{arrived, arrivals_from, is_in_order};

use crate::counting::{one_more, with_bytes};
use rtcp_reports::Track;

// So many packets of a source are tracked.
const MOST_PACKETS: u64 = 1 << 32;

/// How the packets of a source came.
#[derive(Drop)]
pub(crate) struct Arrivals {
    pub(crate) track: Track,
    /// How many had the number that was the highest.
    pub(crate) repeats: u64,
    /// How many others had a number that isn't the highest then.
    pub(crate) disordered: u64,
    /// How many bytes their datagrams have.
    pub(crate) bytes: u64,
}

impl Arrivals {
    /// Before the first packet, whose number is given.
    pub(crate) fn new(sequence: u16) -> Arrivals
        ensures { result ≡ arrivals_from sequence }
    {
        Arrivals {
            track: Track::new(sequence),
            repeats: 0,
            disordered: 0,
            bytes: 0,
        }
    }

    /// Takes the number of the next packet, and the length of its datagram, and answers whether it came in
    /// order.
    #[tactic(auto, unfolding(crate::specs::Arrivals::arrived))]
    pub(crate) fn take(&mut self, sequence: u16, bytes: usize) -> bool
        ensures kept { self.new ≡ arrived self.old sequence bytes }
        ensures order { result ≡ is_in_order self.old sequence }
    {
        let highest = self.track.greatest();
        if self.track.met() < MOST_PACKETS {
            let _counts = self.track.update(sequence);
        }
        self.bytes = with_bytes(self.bytes, bytes);
        if sequence == highest {
            self.repeats = one_more(self.repeats);
            return false;
        }
        if self.track.greatest() == sequence {
            return true;
        }
        self.disordered = one_more(self.disordered);
        false
    }
}
