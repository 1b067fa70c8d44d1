ghost use Rattle.std.proofs.Common.{◌∙◌};
ghost use Rattle.std.specs.Prelude.{◌≡◌, refl};
ghost use Rattle.cmd_receive.specs.LoopLaws.{none_looped, more_looped, part_behind, part_before};

use crate::playout::Playout;
use crate::wire_inlet::WireInlet;
use link_hearing::{Inlet, ListenerFault};
use link_outside::{Outlet, OutletFault};
use link_report::Ending;
use std::thread::Threads;
use vc_ports::{Sent, Sink, Wire};
use vc_slice::Places;

/// Sends each datagram to a wire, and then receives once, unless the network lost it, and lets a receiver
/// hear what came, which writes its frames.
#[derive(Drop)]
pub(crate) struct LoopOutlet<'a, 'b, 'c, 'd, 'e, N, H, O, P> {
    pub(crate) inlet: WireInlet<'a, 'b, N>,
    pub(crate) playout: Playout<'c, 'd, 'e, H, O, P>,
}

impl<'a, 'b, 'c, 'd, 'e, N: Wire, H: Threads + Copy, O: Sink, P: Places> Outlet
    for LoopOutlet<'a, 'b, 'c, 'd, 'e, N, H, O, P> {
    ghost use Rattle.cmd_receive.specs.Exchanges.{IsReady, LoopBroke, LoopsAs, WereLooped, loop_state};

    ghost is_ready = { λ x.
        IsReady (loop_state N.told N.faults O.held O.faults P.told P.bound x) };

    ghost is_open = { λ x.
        IsReady (loop_state N.told N.faults O.held O.faults P.told P.bound x) };

    ghost took = { λ x y datagrams. LoopsAs x y
        × WereLooped (loop_state N.told N.faults O.held O.faults P.told P.bound x)
        (loop_state N.told N.faults O.held O.faults P.told P.bound y) datagrams };

    ghost carried = { λ x y datagrams. LoopsAs x y
        × WereLooped (loop_state N.told N.faults O.held O.faults P.told P.bound x)
        (loop_state N.told N.faults O.held O.faults P.told P.bound y) datagrams };

    ghost broke = { λ x y datagrams fault. LoopsAs x y
        × LoopBroke (loop_state N.told N.faults O.held O.faults P.told P.bound x)
        (loop_state N.told N.faults O.held O.faults P.told P.bound y) datagrams fault };

    fn put(&mut self, datagram: &[u8]) -> Result<(), OutletFault> {
        match self.inlet.wire.send(datagram) {
            Sent::Yes => {}
            Sent::Lost => return Ok(()),
            Sent::Failed => return Err(OutletFault::Wire),
        }
        match self.inlet.next() {
            Ok(Some(came)) => match self.playout.enter(came) {
                Ok(_) => Ok(()),
                Err(ListenerFault::Output) => Err(OutletFault::Output),
                Err(ListenerFault::NoMemory) => Err(OutletFault::NoMemory),
            },
            Ok(None) => Ok(()),
            Err(Ending::WireFailed) => Err(OutletFault::Wire),
            Err(_) => Err(OutletFault::NoMemory),
        }
    }

    // Each datagram went out as it was taken.
    fn flush(&mut self) -> Result<(), OutletFault> {
        Ok(())
    }

    ghost opens = { λ x ready. (ready, ((refl, (refl, refl)), none_looped _)) };

    ghost none = { λ x. ((refl, (refl, refl)), none_looped _) };

    ghost more = { λ x y z first second a b. (
      (b.0.0 ∙ a.0.0, (b.0.1.0 ∙ a.0.1.0, b.0.1.1 ∙ a.0.1.1)),
      more_looped _ _ _ first second a.1 b.1,
    ) };

    ghost breaks_then = { λ x y z first second fault a b. (
      (b.0.0 ∙ a.0.0, (b.0.1.0 ∙ a.0.1.0, b.0.1.1 ∙ a.0.1.1)),
      part_behind _ _ _ first second fault a.1 b.1,
    ) };

    ghost breaks_before = { λ x y first second fault a.
        (a.0, part_before _ _ first second fault a.1) };
}
