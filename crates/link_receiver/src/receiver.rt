ghost use Rattle.std.specs.Prelude.{◌≡◌, ◌≤◌, ◌↔◌, List, true, false, Some, None, IfOk};
ghost use Rattle.std.specs.Prelude.{OnOk, OnErr, Err, ℕ, [], ◌∷◌, ◌++◌};
ghost use Rattle.link_model.specs.Judgement.{outcome_behind, tally_of};
ghost use Rattle.receiver_model.specs.Entering.{datagram_jobs};
ghost use Rattle.receiver_model.specs.Exchanging.{Exchange, dones_in};
ghost use Rattle.receiver_model.specs.Receptions.{new_reception};
ghost use Rattle.receiver_model.specs.Standing.{AreDecodings};
ghost use Rattle.link_receiver.specs.Entered.{IsEntered, IsDrained};
ghost use Rattle.link_receiver.specs.HeardLists.{HasHeard, AskedPlaces, OfferedToPlaces};
ghost use Rattle.link_receiver.specs.HeardLists.{OfferedNewSlices};
ghost use Rattle.link_receiver.specs.HeardLists.{OutputForm, AsFrames, AsFilled, AsUnits};
ghost use Rattle.link_receiver.specs.HeardLists.{newly_due, still_due};
ghost use Rattle.link_receiver.specs.States.{has_stopped};
ghost use Rattle.link_receiver.specs.declared.fault.EnterFault.{EnterFault};
ghost use Rattle.link_slices.specs.Calls.{PlaceCall, PlacesAreBelow};
ghost use Rattle.link_pictures.specs.Outputs.{datagram_output, end_output};
ghost use Rattle.link_pictures.specs.Writing.{nothing_written};
ghost use Rattle.link_pictures.specs.declared.written.Written.{Written};
ghost use Rattle.link_pictures.specs.declared.written.Written.TheVariants.{Frames, Filled, Units};
ghost use Rattle.vc_ports.specs.Faults.{HasCause};
ghost use Rattle.vc_ports.specs.Writing.{Grew, GrewBySome};

use crate::fault::EnterFault;
use crate::reception::Reception;
use bytes::Bytes;
use link_model::{Outcome, Tally};
use link_pictures::{FilledFrames, StreamOutput, Written};
use run_counts::MissingFrames;
use std::alloc::Global;
use std::marker::Model;
use std::thread::Threads;
use vc_ports::Sink;
use vc_slice::Places;

/// A receiver of datagrams. Contracts see what it has, as plain data, and whether it has failed.
#[derive(Drop)]
pub struct Receiver<H> {
    reception: Reception<H>,
    written: Written,
    has_failed: bool,
}

impl<H> Model for Receiver<H> {
    ghost use Rattle.link_receiver.specs.States.{ReceiverState, IsReceiver};

    ghost Value = { ReceiverState };

    ghost view = { λ r. record {
      reception = r.reception;
      written = r.written;
      has_failed = r.has_failed;
    } };

    ghost invariant = { λ r. IsReceiver (record {
      reception = r.reception;
      written = r.written;
      has_failed = r.has_failed;
    }) };
}

impl<H: Threads + Copy> Receiver<H> {
    /// A receiver that has received nothing, with up to `size` pictures open at a time, from 2 to 8. It
    /// writes raw frames. With threads, each picture is transformed in four parts side by side, by join;
    /// without, one component after another.
    pub fn new(alloc: Global, threads: Option<H>, size: u8) -> Receiver<H>
        requires least { 2 ≤ size }
        requires most { size ≤ 8 }
        ensures value { result ≡ record {
          reception = new_reception size;
          written = Frames;
          has_failed = false;
        } }
        ensures heard { HasHeard AsFrames result size [] }
    {
        Receiver {
            reception: Reception::new(alloc, threads, size),
            written: Written::Frames,
            has_failed: false,
        }
    }

    /// The same, but it writes frames without gaps: in each session, where at most 250 frames in a row are
    /// missing between two that are written, the first of the two is written once more for each of them.
    pub fn filled(alloc: Global, threads: Option<H>, size: u8) -> Receiver<H>
        requires least { 2 ≤ size }
        requires most { size ≤ 8 }
        ensures value { result ≡ record {
          reception = new_reception size;
          written = Filled None;
          has_failed = false;
        } }
        ensures heard { HasHeard AsFilled result size [] }
    {
        Receiver {
            reception: Reception::new(alloc, threads, size),
            written: Written::Filled(FilledFrames::new(alloc)),
            has_failed: false,
        }
    }

    /// The same, but it writes an elementary stream: of the first session the sequence header, the
    /// pictures of the frames that `new`'s receiver would write, and at the end of the input an end
    /// of sequence. Where there is no picture it writes nothing.
    pub fn units(alloc: Global, threads: Option<H>, size: u8) -> Receiver<H>
        requires least { 2 ≤ size }
        requires most { size ≤ 8 }
        ensures value { result ≡ record {
          reception = new_reception size;
          written = Units nothing_written;
          has_failed = false;
        } }
        ensures heard { HasHeard AsUnits result size [] }
    {
        Receiver {
            reception: Reception::new(alloc, threads, size),
            written: Written::Units(StreamOutput::new(alloc)),
            has_failed: false,
        }
    }

    /// How many datagrams got each outcome, and what became of the pictures. The counts of pictures
    /// but `frames` are final only once the input has ended.
    pub fn tally(&self) -> &Tally
        ensures { result.now ≡ self.now.reception.counts }
    {
        self.reception.counts()
    }

    /// Which frames weren't written, between the first and the last that were. No clause speaks of them.
    pub fn missing(&self) -> &MissingFrames {
        self.reception.missing()
    }

    /// Takes a datagram: keeps what it brings, offers its slices to places and takes back what is
    /// decoded there, and writes each frame that may be written, or its units. It waits for no worker.
    /// `Ended` exactly where an earlier call failed or the input has ended; nothing changes then.
    /// After any other fault a prefix of what was to be written went out.
    #[tactic(auto, using(crate::proofs::Asked::asked_none))]
    pub fn enter<P: Places, O: Sink>(
        &mut self,
        datagram: Bytes,
        places: &mut P,
        sink: &mut O,
    ) -> Result<Outcome, EnterFault>
        requires below { PlacesAreBelow (P.bound places.old) self.old.reception.out }
        ensures entered { IfOk result (λ outcome. (calls : List PlaceCall) × IsEntered
            (record {
              told_before = P.told places.old;
              told_behind = P.told places.new;
              held_before = O.held sink.old;
              held_behind = O.held sink.new;
              written_before = self.old.written;
              written_behind = self.new.written;
            }) self.old.reception self.new.reception datagram outcome calls) }
        ensures ended { (result ≡ Err EnterFault.Ended) ↔ (has_stopped self.old ≡ true) }
        ensures unchanged { result ≡ Err EnterFault.Ended → (self.new ≡ self.old)
            × (places.new ≡ places.old) × (sink.new ≡ sink.old) }
        ensures stops { OnErr result (has_stopped self.new ≡ true) }
        ensures goes_on { OnOk result (has_stopped self.new ≡ false) }
        ensures failed { OnErr result ((exchanges : List Exchange)
            × AreDecodings (dones_in exchanges)
            × GrewBySome (O.held sink.old) (O.held sink.new)
            (datagram_output self.old.written self.old.reception datagram exchanges)) }
        ensures cause { HasCause (O.faults sink.old) (O.faults sink.new)
            (result ≡ Err EnterFault.WriteFault) }
        ensures asked { AskedPlaces (P.told places.old) (P.told places.new) }
        ensures bound { P.bound places.new ≡ P.bound places.old }
        ensures below { PlacesAreBelow (P.bound places.new) self.new.reception.out }
        // By a list of datagrams that it has heard.
        ensures judged { (form : OutputForm) (size : ℕ) (datagrams : List (List ℕ))
            → HasHeard form self.old size datagrams
            → IfOk result (λ outcome. outcome ≡ outcome_behind size datagrams datagram) }
        ensures heard { (form : OutputForm) (size : ℕ) (datagrams : List (List ℕ))
            → HasHeard form self.old size datagrams
            → OnOk result (HasHeard form self.new size (datagrams ++ datagram ∷ [])) }
        ensures wrote { (form : OutputForm) (size : ℕ) (datagrams : List (List ℕ))
            → HasHeard form self.old size datagrams
            → OnOk result (Grew (O.held sink.old) (O.held sink.new)
            (newly_due form size datagrams datagram)) }
        ensures part { (form : OutputForm) (size : ℕ) (datagrams : List (List ℕ))
            → HasHeard form self.old size datagrams
            → OnErr result (GrewBySome (O.held sink.old) (O.held sink.new)
            (newly_due form size datagrams datagram)) }
        ensures offered { OnOk result (OfferedToPlaces (P.told places.old) (P.told places.new)
            (datagram_jobs self.old.reception datagram)) }
        ensures chosen { (form : OutputForm) (size : ℕ) (datagrams : List (List ℕ))
            → HasHeard form self.old size datagrams
            → OnOk result (OfferedNewSlices (P.told places.old) (P.told places.new)
            self.old.reception size datagrams datagram) }
    {
        if self.has_failed || self.reception.has_ended() {
            return Err(EnterFault::Ended);
        }
        match self
            .reception
            .enter(&mut self.written, &datagram, places, sink)
        {
            Ok(outcome) => Ok(outcome),
            Err(fault) => {
                self.has_failed = true;
                Err(EnterFault::from(fault))
            }
        }
    }

    /// Takes the end of the input: takes back what is decoded, and writes each frame that isn't
    /// written yet. It waits for no worker. `Ended` exactly where an earlier call failed or the input
    /// has ended; nothing changes then. After any other fault a prefix of what was to be written
    /// went out.
    #[tactic(auto, using(crate::proofs::Asked::asked_none))]
    pub fn drain<P: Places, O: Sink>(
        &mut self,
        places: &mut P,
        sink: &mut O,
    ) -> Result<(), EnterFault>
        requires below { PlacesAreBelow (P.bound places.old) self.old.reception.out }
        ensures drained { OnOk result ((calls : List PlaceCall) × IsDrained
            (record {
              told_before = P.told places.old;
              told_behind = P.told places.new;
              held_before = O.held sink.old;
              held_behind = O.held sink.new;
              written_before = self.old.written;
              written_behind = self.new.written;
            }) self.old.reception self.new.reception calls) }
        ensures ended { (result ≡ Err EnterFault.Ended) ↔ (has_stopped self.old ≡ true) }
        ensures unchanged { result ≡ Err EnterFault.Ended → (self.new ≡ self.old)
            × (places.new ≡ places.old) × (sink.new ≡ sink.old) }
        ensures stops { has_stopped self.new ≡ true }
        ensures failed { OnErr result ((exchanges : List Exchange)
            × AreDecodings (dones_in exchanges)
            × GrewBySome (O.held sink.old) (O.held sink.new)
            (end_output self.old.written self.old.reception exchanges)) }
        ensures cause { HasCause (O.faults sink.old) (O.faults sink.new)
            (result ≡ Err EnterFault.WriteFault) }
        ensures asked { AskedPlaces (P.told places.old) (P.told places.new) }
        ensures bound { P.bound places.new ≡ P.bound places.old }
        ensures below { PlacesAreBelow (P.bound places.new) self.new.reception.out }
        // By a list of datagrams that it has heard.
        ensures wrote { (form : OutputForm) (size : ℕ) (datagrams : List (List ℕ))
            → HasHeard form self.old size datagrams
            → OnOk result (Grew (O.held sink.old) (O.held sink.new)
            (still_due form size datagrams)) }
        ensures part { (form : OutputForm) (size : ℕ) (datagrams : List (List ℕ))
            → HasHeard form self.old size datagrams
            → OnErr result (GrewBySome (O.held sink.old) (O.held sink.new)
            (still_due form size datagrams)) }
        ensures counts { (form : OutputForm) (size : ℕ) (datagrams : List (List ℕ))
            → HasHeard form self.old size datagrams
            → OnOk result (self.new.reception.counts ≡ tally_of size datagrams) }
    {
        if self.has_failed || self.reception.has_ended() {
            return Err(EnterFault::Ended);
        }
        match self.reception.finish(&mut self.written, places, sink) {
            Ok(()) => Ok(()),
            Err(fault) => {
                self.has_failed = true;
                Err(EnterFault::from(fault))
            }
        }
    }
}
