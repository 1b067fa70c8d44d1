ghost use Rattle.std.proofs.Common.{◌∙◌};
ghost use Rattle.std.specs.Prelude.{◌≡◌, ◌<◌, ◌≤◌, ◌^◌, refl};
ghost use Rattle.cmd_rtcp.specs.WritingLaws.{all_but, breaks_then, hears_then, none_heard};

use crate::piece::write_piece;
use crate::scribe::Scribe;
use bytes::Bytes;
use link_hearing::{Listener, ListenerFault};
use vc_ports::Sink;

// So many datagrams can be heard.
const MOST: u64 = 1 << 32;

/// A scribe and the output that it writes to, both borrowed.
#[derive(Drop)]
pub(crate) struct Writing<'a, 'b, S, O> {
    pub(crate) scribe: &'a mut S,
    pub(crate) output: &'b mut O,
    /// How many were heard.
    pub(crate) datagrams: u64,
}

impl<'a, 'b, S: Scribe, O: Sink> Writing<'a, 'b, S, O> {
    ghost use Rattle.cmd_rtcp.specs.Writings.{CanHear, TakesEnd, writing_state};

    /// Before any datagram.
    pub(crate) fn new(scribe: &'a mut S, output: &'b mut O) -> Writing<'a, 'b, S, O>
        ensures borrows_scribe { result.scribe.ghost_name ≡ scribe.entry.ghost_name }
        ensures borrows_output { result.output.ghost_name ≡ output.entry.ghost_name }
        ensures scribe { result.scribe.now ≡ scribe.old }
        ensures output { result.output.now ≡ output.old }
        ensures none { result.datagrams ≡ 0 }
    {
        Writing {
            scribe,
            output,
            datagrams: 0,
        }
    }

    /// Hears the end, and writes what is due then.
    pub(crate) fn end(&mut self) -> Result<(), ListenerFault>
        requires ready { CanHear S.has_heard (writing_state O.held O.faults self.old) }
        ensures borrows_scribe { self.new.scribe.ghost_name ≡ self.old.scribe.ghost_name }
        ensures borrows_output { self.new.output.ghost_name ≡ self.old.output.ghost_name }
        ensures ends { TakesEnd S.has_heard S.has_ended S.due
            (writing_state O.held O.faults self.old) (writing_state O.held O.faults self.new) result }
    {
        let piece = self.scribe.end();
        write_piece(self.output, piece)
    }
}

impl<'a, 'b, S: Scribe, O: Sink> Listener for Writing<'a, 'b, S, O> {
    ghost use Rattle.cmd_rtcp.specs.Writings.{BorrowsAs, BreaksOff, CanHear, Hears, writing_state};

    ghost is_ready = { λ x. CanHear S.has_heard (writing_state O.held O.faults x) };

    ghost wants_one = { λ x. x.datagrams < 2 ^ 32 };

    ghost has_enough = { λ x. 2 ^ 32 ≤ x.datagrams };

    ghost heard = { λ x y datagrams. BorrowsAs x y
        × Hears S.has_heard S.due (writing_state O.held O.faults x)
        (writing_state O.held O.faults y) datagrams };

    ghost broke = { λ x y datagrams fault. BorrowsAs x y
        × BreaksOff S.has_heard S.due (writing_state O.held O.faults x)
        (writing_state O.held O.faults y) datagrams fault };

    fn wants_more(&self) -> bool {
        self.datagrams < MOST
    }

    fn hear(&mut self, datagram: Bytes) -> Result<bool, ListenerFault> {
        let piece = self.scribe.take(datagram.as_slice());
        write_piece(self.output, piece)?;
        self.datagrams += 1;
        Ok(true)
    }

    ghost none = { λ x. ((refl, refl), none_heard S.has_heard S.due _) };

    ghost more = { λ x y z first second a b.
        ((b.0.0 ∙ a.0.0, b.0.1 ∙ a.0.1), hears_then S.has_heard S.due _ _ _ first second a.1 b.1) };

    ghost breaks_then = { λ x y z first second fault a b. (
      (b.0.0 ∙ a.0.0, b.0.1 ∙ a.0.1),
      breaks_then S.has_heard S.due _ _ _ first second fault a.1 b.1,
    ) };

    ghost loses_last = { λ x y first lost few a.
        (a.0, all_but S.has_heard S.due S.more S.all _ _ first lost few a.1) };
}
