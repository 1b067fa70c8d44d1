ghost use Rattle.std.specs.Prelude.{◌≡◌, List, true, IfOk, OnOk, OnErr, Err};
ghost use Rattle.std.specs.Option.{option_map};
ghost use Rattle.receiver_model.specs.Exchanging.{Exchange, dones_in};
ghost use Rattle.receiver_model.specs.Standing.{AreDecodings};
ghost use Rattle.link_receiver.specs.Entered.{IsEntered, IsDrained, outside_of};
ghost use Rattle.link_receiver.specs.Exchanged.{KeepsPlaces};
ghost use Rattle.link_receiver.specs.Shown.{StepWrites};
ghost use Rattle.link_receiver.specs.States.{IsReceiving, WaitsForSecond};
ghost use Rattle.link_receiver.specs.declared.fault.StepFault.{StepFault};
ghost use Rattle.link_window.specs.Openings.{session_of};
ghost use Rattle.link_slices.specs.Calls.{PlaceCall, PlacesAreBelow};
ghost use Rattle.link_pictures.specs.Outputs.{datagram_output, end_output, written_at_end};
ghost use Rattle.link_pictures.specs.Outputs.{written_behind_opening};
ghost use Rattle.vc_ports.specs.Faults.{HasCause};
ghost use Rattle.vc_ports.specs.Writing.{GrewBySome};

use crate::fault::StepFault;
use crate::reception::Reception;
use bytes::Bytes;
use link_model::Outcome;
use link_pictures::Written;
use link_window::Opening;
use std::thread::Threads;
use vc_ports::Sink;
use vc_slice::Places;
use vc_types::NoMemory;

#[tactic(auto, using(crate::proofs::Asked::keeps_none, crate::proofs::Asked::keeps_twice))]
impl<H: Threads + Copy> Reception<H> {
    /// Takes a datagram: keeps it, exchanges slices, releases pictures, and opens a session.
    pub(crate) fn enter<P: Places, O: Sink>(
        &mut self,
        written: &mut Written,
        datagram: &Bytes,
        places: &mut P,
        sink: &mut O,
    ) -> Result<Outcome, StepFault>
        requires goes_on { IsReceiving self.old }
        requires below { PlacesAreBelow (P.bound places.old) self.old.out }
        ensures entered { IfOk result (λ outcome. (calls : List PlaceCall) × IsEntered
            (outside_of P.told O.held places.old places.new sink.old sink.new written.old written.new)
            self.old self.new datagram.now outcome calls) }
        ensures goes_on { OnOk result (IsReceiving self.new) }
        ensures has_ended { OnOk result (self.new.has_ended ≡ self.old.has_ended) }
        ensures failed { OnErr result ((exchanges : List Exchange)
            × AreDecodings (dones_in exchanges)
            × GrewBySome (O.held sink.old) (O.held sink.new)
            (datagram_output written.old self.old datagram.now exchanges)) }
        ensures cause { HasCause (O.faults sink.old) (O.faults sink.new)
            (result ≡ Err StepFault.WriteFault) }
        ensures places { KeepsPlaces P.told P.bound places.old places.new self.new.out }
    {
        let is_first = self.is_idle();
        let kept = self.keep(datagram)?;
        let next = self.exchange(kept.jobs, places)?;
        self.release_all(next, written, places, sink)?;
        open_next(written, &kept.opening, is_first, datagram)?;
        self.open(kept.opening)?;
        Ok(kept.outcome)
    }

    /// Takes the end of the input: takes slices back, releases pictures, and ends what is written.
    pub(crate) fn finish<P: Places, O: Sink>(
        &mut self,
        written: &mut Written,
        places: &mut P,
        sink: &mut O,
    ) -> Result<(), StepFault>
        requires waiting { WaitsForSecond self.old.standing self.old.field }
        requires below { PlacesAreBelow (P.bound places.old) self.old.out }
        ensures drained { OnOk result ((calls : List PlaceCall) × IsDrained
            (outside_of P.told O.held places.old places.new sink.old sink.new written.old written.new)
            self.old self.new calls) }
        ensures has_ended { OnOk result (self.new.has_ended ≡ true) }
        ensures failed { OnErr result ((exchanges : List Exchange)
            × AreDecodings (dones_in exchanges)
            × GrewBySome (O.held sink.old) (O.held sink.new)
            (end_output written.old self.old exchanges)) }
        ensures cause { HasCause (O.faults sink.old) (O.faults sink.new)
            (result ≡ Err StepFault.WriteFault) }
        ensures places { KeepsPlaces P.told P.bound places.old places.new self.new.out }
    {
        self.end_input();
        let next = self.take_back(places)?;
        self.release_all(next, written, places, sink)?;
        self.give_up_field()?;
        end(written, sink)?;
        Ok(())
    }
}

// What is written goes on behind a datagram that opens a session.
fn open_next(
    written: &mut Written,
    opening: &Option<Opening>,
    is_first: bool,
    datagram: &[u8],
) -> Result<(), NoMemory>
    ensures { OnOk result (written.new ≡ written_behind_opening
        (option_map session_of opening.now) is_first datagram.now written.old) }
{
    if opening.is_none() {
        return Ok(());
    }
    match written {
        Written::Frames => Ok(()),
        Written::Filled(frames) => {
            frames.open();
            Ok(())
        }
        Written::Units(stream) => stream.open(is_first, datagram),
    }
}

// StepWrites what goes out at the end of the input: of a stream its end.
fn end<O: Sink>(written: &Written, sink: &mut O) -> Result<(), StepFault>
    ensures { StepWrites O.held O.faults sink.old sink.new result (written_at_end written.now) }
{
    match written {
        Written::Units(stream) => Ok(stream.finish(sink)?),
        Written::Frames | Written::Filled(_) => Ok(()),
    }
}
