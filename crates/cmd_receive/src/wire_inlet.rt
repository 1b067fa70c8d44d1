ghost use Rattle.std.proofs.Common.{◌∙◌};
ghost use Rattle.std.specs.Prelude.{◌≡◌, IsTrue, refl};
ghost use Rattle.cmd_receive.specs.WireInletLaws.{none_given, more_given, wire_stops};
ghost use Rattle.cmd_receive.specs.WireInlets.{StoppedWire, WasGiven};
ghost use Rattle.vc_ports.specs.Changes.{wire_of};

use bytes::Bytes;
use link_hearing::Inlet;
use link_outside::{Arrived, Inbox};
use link_report::Ending;
use std::alloc::Global;
use vc_ports::Wire;
use vc_types::NoMemory;

/// The datagrams that come from a wire that listens, through one buffer. It keeps both borrowed.
#[derive(Drop)]
pub(crate) struct WireInlet<'a, 'b, N> {
    pub(crate) inbox: &'a mut Inbox,
    pub(crate) wire: &'b mut N,
}

impl<'a, 'b, N: Wire> WireInlet<'a, 'b, N> {
    pub(crate) fn new(inbox: &'a mut Inbox, wire: &'b mut N) -> WireInlet<'a, 'b, N>
        ensures borrows { result.wire.ghost_name ≡ wire.entry.ghost_name }
        ensures wire { result.wire.now ≡ wire.old }
    {
        WireInlet { inbox, wire }
    }
}

impl<'a, 'b, N: Wire> Inlet for WireInlet<'a, 'b, N> {
    ghost is_ready = { λ x more. IsTrue (N.told x.wire.now).listens };

    ghost came = { λ x y datagrams. (y.wire.ghost_name ≡ x.wire.ghost_name)
        × WasGiven (wire_of N.told N.faults x.wire.now y.wire.now) datagrams };

    ghost stopped = { λ x y datagrams end. (y.wire.ghost_name ≡ x.wire.ghost_name)
        × StoppedWire (wire_of N.told N.faults x.wire.now y.wire.now) datagrams end };

    fn next(&mut self) -> Result<Option<Bytes>, Ending> {
        match self.inbox.receive(self.wire) {
            Ok(Arrived::Datagram(datagram)) => Ok(Some(datagram)),
            Ok(Arrived::End) => Ok(None),
            Ok(Arrived::Failed) => Err(Ending::WireFailed),
            Err(NoMemory) => Err(Ending::NoMemory),
        }
    }

    fn note(&mut self, was_of_use: bool) {
        if was_of_use {
            self.wire.keep();
        }
    }

    ghost none = { λ x. (refl, none_given _ _) };

    ghost more = { λ x y z first second a b.
        (b.0 ∙ a.0, more_given _ _ _ _ _ _ first a.1 second b.1) };

    ghost stops_then = { λ x y z first end a b.
        (b.0 ∙ a.0, wire_stops _ _ _ _ _ _ first a.1 end b.1) };
}
