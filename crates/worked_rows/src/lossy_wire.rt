ghost use Rattle.vc_ports.specs.Wires.{untold};

use vc_ports::{Came, MemWire, Reached, Sent, Wire, WireCounts};

/// A wire that gives and takes what one in memory does, tells nothing of it, and loses each datagram that the
/// other fails to send.
#[derive(Drop)]
pub(crate) struct LossyWire {
    inner: MemWire,
    counts: WireCounts,
}

impl LossyWire {
    pub(crate) fn new(inner: MemWire) -> LossyWire {
        LossyWire {
            inner,
            counts: WireCounts::NONE,
        }
    }

    pub(crate) fn into_inner(self) -> MemWire {
        self.inner
    }
}

impl Wire for LossyWire {
    ghost use Rattle.vc_ports.specs.MemoryWires.{has_address};

    ghost told = { λ w. untold (has_address w.inner.at) (has_address w.inner.to) w.counts };

    ghost faults = { λ w. w.inner.meter.faults };

    fn listen(&mut self, at: &str) -> Reached {
        self.inner.listen(at)
    }

    fn aim(&mut self, to: &str) -> Reached {
        self.inner.aim(to)
    }

    fn send(&mut self, datagram: &[u8]) -> Sent {
        self.counts.count_sent();
        match self.inner.send(datagram) {
            Sent::Yes => Sent::Yes,
            Sent::Lost | Sent::Failed => Sent::Lost,
        }
    }

    fn end_after(&mut self, seconds: u32) {
        self.counts.ask(seconds);
    }

    fn keep(&mut self) {
        self.counts.count_kept();
    }

    fn recv(&mut self, buf: &mut [u8]) -> Came {
        match self.inner.recv(buf) {
            Came::End => {
                self.counts.count_end();
                Came::End
            }
            came => came,
        }
    }
}
