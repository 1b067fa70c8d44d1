ghost use Rattle.std.proofs.Common.{◌∙◌};
ghost use Rattle.std.specs.Prelude.{◌≡◌, ◌<◌, refl};
ghost use Rattle.cmd_receive.specs.HearingLaws.{all_but, breaks_then};
ghost use Rattle.cmd_receive.specs.SessionLaws.{more_wanted, none_wanted};

use crate::SessionCount;
use crate::playout::Playout;
use bytes::Bytes;
use link_hearing::{Listener, ListenerFault};
use link_model::Outcome;
use std::thread::Threads;
use vc_ports::Sink;
use vc_slice::Places;

/// A playout that wants datagrams until so many sessions have ended.
#[derive(Drop)]
pub(crate) struct SessionPlayout<'a, 'b, 'c, H, O, P> {
    pub(crate) playout: Playout<'a, 'b, 'c, H, O, P>,
    pub(crate) count: SessionCount,
}

impl<'a, 'b, 'c, H: Threads + Copy, O: Sink, P: Places> Listener
    for SessionPlayout<'a, 'b, 'c, H, O, P> {
    ghost use Rattle.link_hearing.specs.Hearing.{fault_ending};
    ghost use Rattle.cmd_receive.specs.Playouts.{BorrowsAs, BreaksOff, IsWell, playout_state};
    ghost use Rattle.cmd_receive.specs.Sessions.{HearsWanted};

    ghost is_ready = { λ x. IsWell (playout_state O.held O.faults P.told P.bound x.playout) };

    ghost wants_one = { λ x. 0 < x.count.left };

    ghost has_enough = { λ x. x.count.left ≡ 0 };

    ghost heard = { λ x y datagrams. BorrowsAs x.playout y.playout
        × HearsWanted (playout_state O.held O.faults P.told P.bound x.playout) x.count
        (playout_state O.held O.faults P.told P.bound y.playout) y.count datagrams };

    ghost broke = { λ x y datagrams fault. BorrowsAs x.playout y.playout
        × BreaksOff (playout_state O.held O.faults P.told P.bound x.playout)
        (playout_state O.held O.faults P.told P.bound y.playout) datagrams (fault_ending fault) };

    fn wants_more(&self) -> bool {
        self.count.left > 0
    }

    fn hear(&mut self, datagram: Bytes) -> Result<bool, ListenerFault> {
        match self.playout.enter(datagram) {
            Ok(outcome) => {
                self.count.judge(outcome);
                Ok(is_of_use(outcome))
            }
            Err(fault) => Err(fault),
        }
    }

    ghost none = { λ x. ((refl, refl), none_wanted _ _) };

    ghost more = { λ x y z first second a b.
        ((b.0.0 ∙ a.0.0, b.0.1 ∙ a.0.1), more_wanted _ _ _ _ _ _ first second a.1 b.1) };

    ghost breaks_then = { λ x y z first second fault a b.
        ((b.0.0 ∙ a.0.0, b.0.1 ∙ a.0.1), breaks_then _ _ _ first second _ a.1.hears b.1) };

    ghost loses_last = { λ x y first lost few a. (a.0, all_but lost few a.1.hears) };
}

// Whether a datagram brought the session something new, which one that is late, a repeat or another sender's
// doesn't: so a session whose sender is gone, or has started again, ends by silence.
fn is_of_use(outcome: Outcome) -> bool {
    matches!(
        outcome,
        Outcome::HeaderNew
            | Outcome::End
            | Outcome::ParamsKept
            | Outcome::SlicesKept
            | Outcome::SlicesPending
    )
}
