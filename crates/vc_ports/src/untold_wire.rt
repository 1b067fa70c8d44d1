ghost use Rattle.vc_ports.specs.Wires.{untold};

use crate::memory_wire::MemWire;
use crate::wire::{Came, Reached, Sent, Wire};

/// A wire that gives and takes what one in memory does, and tells nothing of it.
#[derive(Drop)]
pub struct UntoldWire {
    pub inner: MemWire,
}

impl Wire for UntoldWire {
    ghost use Rattle.vc_ports.specs.MemoryWires.{has_address};

    ghost told = { λ w. untold (has_address w.inner.at) (has_address w.inner.to) w.inner.counts };

    ghost faults = { λ w. w.inner.meter.faults };

    fn listen(&mut self, at: &str) -> Reached {
        self.inner.listen(at)
    }

    fn aim(&mut self, to: &str) -> Reached {
        self.inner.aim(to)
    }

    fn send(&mut self, datagram: &[u8]) -> Sent {
        self.inner.send(datagram)
    }

    fn end_after(&mut self, seconds: u32) {
        self.inner.end_after(seconds);
    }

    fn keep(&mut self) {
        self.inner.keep();
    }

    fn recv(&mut self, buf: &mut [u8]) -> Came {
        self.inner.recv(buf)
    }
}
