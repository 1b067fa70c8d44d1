ghost use Rattle.std.proofs.Common.{◌∙◌};
ghost use Rattle.std.specs.Prelude.{◌≡◌, ⊤, refl};
ghost use Rattle.cmd_receive.specs.HearingLaws.{all_but, breaks_then, hears_then, none_heard};
ghost use Rattle.cmd_receive.specs.Playouts.{fault_of};

use crate::telling::{tell_heard, tell_written};
use bytes::Bytes;
use link_hearing::{Listener, ListenerFault};
use link_model::{Outcome, Tally};
use link_receiver::{EnterFault, Receiver};
use run_counts::RunCounts;
use std::thread::Threads;
use vc_ports::Sink;
use vc_slice::Places;

/// A receiver, with the output where its frames go and the places where its slices are decoded, all
/// borrowed. Counts, if there are any, are told what it takes and writes; no clause speaks of them.
#[derive(Drop)]
pub(crate) struct Playout<'a, 'b, 'c, H, O, P> {
    pub(crate) receiver: &'a mut Receiver<H>,
    pub(crate) output: &'b mut O,
    pub(crate) places: &'c mut P,
    pub(crate) watch: &'a Option<&'a RunCounts>,
}

impl<'a, 'b, 'c, H: Threads + Copy, O: Sink, P: Places> Playout<'a, 'b, 'c, H, O, P> {
    ghost use Rattle.cmd_receive.specs.Playouts.{IsNew, IsWell, TakesDatagram, TakesEnd, playout_state};

    /// One of a receiver that has heard nothing.
    pub(crate) fn new(
        receiver: &'a mut Receiver<H>,
        output: &'b mut O,
        places: &'c mut P,
        watch: &'a Option<&'a RunCounts>,
    ) -> Playout<'a, 'b, 'c, H, O, P>
        requires new { IsNew receiver.old }
        ensures borrows_output { result.output.ghost_name ≡ output.entry.ghost_name }
        ensures borrows_places { result.places.ghost_name ≡ places.entry.ghost_name }
        ensures receiver { result.receiver.now ≡ receiver.old }
        ensures output { result.output.now ≡ output.old }
        ensures places { result.places.now ≡ places.old }
        ensures new { IsNew result.receiver.now }
        ensures well { IsWell (playout_state O.held O.faults P.told P.bound result) }
    {
        Playout {
            receiver,
            output,
            places,
            watch,
        }
    }

    /// Takes a datagram, and judges it.
    pub(crate) fn enter(&mut self, datagram: Bytes) -> Result<Outcome, ListenerFault>
        requires well { IsWell (playout_state O.held O.faults P.told P.bound self.old) }
        ensures borrows_output { self.new.output.ghost_name ≡ self.old.output.ghost_name }
        ensures borrows_places { self.new.places.ghost_name ≡ self.old.places.ghost_name }
        ensures takes { TakesDatagram (playout_state O.held O.faults P.told P.bound self.old)
            (playout_state O.held O.faults P.told P.bound self.new) datagram result }
    {
        let bytes = datagram.len();
        match self.receiver.enter(datagram, self.places, self.output) {
            Ok(outcome) => {
                tell_heard(*self.watch, bytes);
                tell_written(*self.watch, self.receiver);
                Ok(outcome)
            }
            Err(fault) => Err(fault_of(fault)),
        }
    }

    /// Ends the receiver's input, writes the frames that are still due, and answers the counts.
    pub(crate) fn drain(&mut self) -> Result<Tally, ListenerFault>
        requires well { IsWell (playout_state O.held O.faults P.told P.bound self.old) }
        ensures borrows_output { self.new.output.ghost_name ≡ self.old.output.ghost_name }
        ensures borrows_places { self.new.places.ghost_name ≡ self.old.places.ghost_name }
        ensures takes { TakesEnd (playout_state O.held O.faults P.told P.bound self.old)
            (playout_state O.held O.faults P.told P.bound self.new) result }
    {
        match self.receiver.drain(self.places, self.output) {
            Ok(()) => {
                tell_written(*self.watch, self.receiver);
                Ok(*self.receiver.tally())
            }
            Err(fault) => Err(fault_of(fault)),
        }
    }
}

impl<'a, 'b, 'c, H: Threads + Copy, O: Sink, P: Places> Listener for Playout<'a, 'b, 'c, H, O, P> {
    ghost use Rattle.cmd_receive.specs.Playouts.{BorrowsAs, BreaksOff, Hears, IsWell, playout_state};
    ghost use Rattle.link_hearing.specs.Hearing.{fault_ending};

    ghost is_ready = { λ x. IsWell (playout_state O.held O.faults P.told P.bound x) };

    ghost wants_one = { λ _. ⊤ };

    ghost has_enough = { λ _. ⊥ };

    ghost heard = { λ x y datagrams. BorrowsAs x y
        × Hears (playout_state O.held O.faults P.told P.bound x)
        (playout_state O.held O.faults P.told P.bound y) datagrams };

    ghost broke = { λ x y datagrams fault. BorrowsAs x y
        × BreaksOff (playout_state O.held O.faults P.told P.bound x)
        (playout_state O.held O.faults P.told P.bound y) datagrams (fault_ending fault) };

    fn wants_more(&self) -> bool {
        true
    }

    fn hear(&mut self, datagram: Bytes) -> Result<bool, ListenerFault> {
        match self.enter(datagram) {
            Ok(_) => Ok(true),
            Err(fault) => Err(fault),
        }
    }

    ghost none = { λ x. ((refl, refl), none_heard _) };

    ghost more = { λ x y z first second a b.
        ((b.0.0 ∙ a.0.0, b.0.1 ∙ a.0.1), hears_then a.1 b.1) };

    ghost breaks_then = { λ x y z first second fault a b.
        ((b.0.0 ∙ a.0.0, b.0.1 ∙ a.0.1), breaks_then _ _ _ first second _ a.1 b.1) };

    ghost loses_last = { λ x y first lost few a. (a.0, all_but lost few a.1) };
}

// Why it broke off where its receiver failed.
fn fault_of(fault: EnterFault) -> ListenerFault
    ensures { result ≡ fault_of fault }
{
    match fault {
        EnterFault::NoMemory | EnterFault::Ended => ListenerFault::NoMemory,
        EnterFault::WriteFault => ListenerFault::Output,
    }
}
