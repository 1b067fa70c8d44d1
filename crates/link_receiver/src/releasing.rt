ghost use Rattle.std.specs.Prelude.{◌≡◌, OnOk, OnErr, Some, Err};
ghost use Rattle.std.specs.Option.{option_map};
ghost use Rattle.receiver_model.specs.Releasing.{releases_picture_of};
ghost use Rattle.receiver_model.specs.Releasing.{freed_places, next_picture};
ghost use Rattle.receiver_model.specs.Releasing.{book_count};
ghost use Rattle.link_receiver.specs.Exchanged.{KeepsPlaces};
ghost use Rattle.link_receiver.specs.Released.{AreReleased};
ghost use Rattle.link_receiver.specs.States.{WaitsForSecond};
ghost use Rattle.link_receiver.specs.declared.fault.StepFault.{StepFault};
ghost use Rattle.link_window.specs.Views.{releasable_of};
ghost use Rattle.link_slices.specs.Calls.{PlacesAreBelow, freeing};
ghost use Rattle.link_pictures.specs.Outputs.{released_output, written_behind_picture};
ghost use Rattle.link_pictures.specs.Outputs.{all_released_output};
ghost use Rattle.vc_ports.specs.Faults.{HasCause};
ghost use Rattle.vc_ports.specs.Writing.{Grew, GrewBySome};
ghost use Rattle.vc_slice.specs.Asked.{Grows};

use crate::counting::with_picture;
use crate::fault::StepFault;
use crate::reception::Reception;
use crate::showing::show;
use link_pictures::Written;
use link_window::Released;
use std::thread::Threads;
use vc_ports::Sink;
use vc_slice::Places;

#[tactic(auto, using(crate::proofs::Asked::keeps_none, crate::proofs::Asked::keeps_twice))]
impl<H: Threads + Copy> Reception<H> {
    /// Releases each picture that may be released, of which this is the next, if there is one.
    pub(crate) fn release_all<P: Places, O: Sink>(
        &mut self,
        mut next: Option<Released>,
        written: &mut Written,
        places: &mut P,
        sink: &mut O,
    ) -> Result<(), StepFault>
        requires next { option_map releasable_of next ≡ next_picture self.old }
        requires waiting { WaitsForSecond self.old.standing self.old.field }
        requires below { PlacesAreBelow (P.bound places.old) self.old.out }
        ensures released { OnOk result (AreReleased (P.told places.old) (P.told places.new)
            (O.held sink.old) (O.held sink.new) written.old written.new self.old self.new) }
        ensures waiting { OnOk result (WaitsForSecond self.new.standing self.new.field) }
        ensures err { OnErr result (GrewBySome (O.held sink.old) (O.held sink.new)
            (all_released_output written.old self.old)) }
        ensures cause { HasCause (O.faults sink.old) (O.faults sink.new)
            (result ≡ Err StepFault.WriteFault) }
        ensures places { KeepsPlaces P.told P.bound places.old places.new self.new.out }
    {
        for _ in 0..self.open_pictures() {
            let Some(picture) = next else {
                return Ok(());
            };
            let number = picture.number;
            self.release(picture, written, places, sink)?;
            self.note_released(number);
            next = self.next_release();
        }
        Ok(())
    }

    // Notes which frames weren't written, once this picture was released.
    fn note_released(&mut self, number: u64)
        ensures { self.new ≡ self.old }
    {
        if let Some(standing) = &self.standing {
            let has_fields = standing.header().fields;
            self.missing.release(self.counts.frames, number, has_fields);
        }
    }

    fn open_pictures(&self) -> usize
        ensures { result ≡ book_count self.now }
    {
        match &self.standing {
            Some(standing) => standing.open_pictures(),
            None => 0,
        }
    }

    // Releases the picture that `next_release` names.
    fn release<P: Places, O: Sink>(
        &mut self,
        picture: Released,
        written: &mut Written,
        places: &mut P,
        sink: &mut O,
    ) -> Result<(), StepFault>
        requires next { next_picture self.old ≡ Some (releasable_of picture) }
        requires waiting { WaitsForSecond self.old.standing self.old.field }
        requires below { PlacesAreBelow (P.bound places.old) self.old.out }
        ensures value { OnOk result (self.new
            ≡ releases_picture_of self.old (releasable_of picture)) }
        ensures kept { OnOk result (written.new
            ≡ written_behind_picture written.old self.old (releasable_of picture)) }
        ensures told { OnOk result (Grows (P.told places.old) (P.told places.new)
            (freeing (freed_places self.old picture.number))) }
        ensures written { OnOk result (Grew (O.held sink.old) (O.held sink.new)
            (released_output written.old self.old (releasable_of picture))) }
        ensures waiting { OnOk result (WaitsForSecond self.new.standing self.new.field) }
        ensures err { OnErr result (GrewBySome (O.held sink.old) (O.held sink.new)
            (released_output written.old self.old (releasable_of picture))) }
        ensures cause { HasCause (O.faults sink.old) (O.faults sink.new)
            (result ≡ Err StepFault.WriteFault) }
        ensures places { KeepsPlaces P.told P.bound places.old places.new self.new.out }
    {
        let Some(standing) = &mut self.standing else {
            unreachable!()
        };
        let number = picture.number;
        self.out.free_picture(number, places);
        let (answers, field) = (&mut self.answers, &mut self.field);
        let seen = show(answers, field, written, standing, number, sink)?;
        standing.release(number);
        self.counts = with_picture(
            &self.counts,
            picture.complete,
            seen.is_sound,
            seen.shown.alone,
            seen.shown.has_frame,
        )?;
        Ok(())
    }
}
