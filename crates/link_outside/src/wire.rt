ghost use Rattle.std.proofs.Common.{◌∙◌};
ghost use Rattle.std.specs.Prelude.{◌≡◌, IsTrue, refl};
ghost use Rattle.link_outside.specs.WireLaws.{none_sent, more_sent, part_behind, sent_part_before};
ghost use Rattle.link_outside.specs.Outlets.{SentAll, SentPart};
ghost use Rattle.vc_ports.specs.Changes.{wire_of};

use crate::outlet::{Outlet, OutletFault};
use crate::wire_calls::send;
use vc_ports::{Reached, Wire};

/// Sends datagrams to a wire. It keeps the wire borrowed.
#[derive(Drop)]
pub struct WireOutlet<'a, N> {
    wire: &'a mut N,
}

impl<'a, N: Wire> WireOutlet<'a, N> {
    pub fn new(wire: &'a mut N) -> WireOutlet<'a, N>
        ensures borrows { result.wire.ghost_name ≡ wire.entry.ghost_name }
        ensures wire { result.wire.now ≡ wire.old }
    {
        WireOutlet { wire }
    }
}

impl<'a, N: Wire> Outlet for WireOutlet<'a, N> {
    ghost is_ready = { λ x. IsTrue (N.told x.wire.now).aimed };

    ghost is_open = { λ x. IsTrue (N.told x.wire.now).aimed };

    ghost took = { λ x y datagrams. (y.wire.ghost_name ≡ x.wire.ghost_name)
        × SentAll (wire_of N.told N.faults x.wire.now y.wire.now) datagrams };

    ghost carried = { λ x y datagrams. (y.wire.ghost_name ≡ x.wire.ghost_name)
        × SentAll (wire_of N.told N.faults x.wire.now y.wire.now) datagrams };

    ghost broke = { λ x y datagrams fault. (y.wire.ghost_name ≡ x.wire.ghost_name)
        × SentPart (wire_of N.told N.faults x.wire.now y.wire.now) datagrams fault };

    fn put(&mut self, datagram: &[u8]) -> Result<(), OutletFault> {
        match send(self.wire, datagram) {
            Reached::Yes => Ok(()),
            Reached::Failed => Err(OutletFault::Wire),
        }
    }

    // Each datagram went out as it was taken.
    fn flush(&mut self) -> Result<(), OutletFault> {
        Ok(())
    }

    ghost opens = { λ x ready. (ready, (refl, none_sent _ _)) };

    ghost none = { λ x. (refl, none_sent _ _) };

    ghost more = { λ x y z first second a b.
        (b.0 ∙ a.0, more_sent _ _ _ _ _ _ first second a.1 b.1) };

    ghost breaks_then = { λ x y z first second fault a b. (
      b.0 ∙ a.0,
      part_behind _ _ _ _ _ _ first second fault a.1 b.1,
    ) };

    ghost breaks_before = { λ x y first second fault a. (
      a.0,
      sent_part_before _ _ _ _ first second fault a.1,
    ) };
}
