ghost use Rattle.std.specs.Prelude.{◌≡◌, ◌%◌, Err, None, Option, is_some, true, IfOk, IfSome, OnOk, OnErr};
ghost use Rattle.std.specs.Option.{option_map};
ghost use Rattle.link_model.specs.Output.{raw_bytes};
ghost use Rattle.receiver_model.specs.Releasing.{released_frame, field_behind, fields_alone};
ghost use Rattle.receiver_model.specs.WholeBooks.{ArePicturePlanes};
ghost use Rattle.vc_ports.specs.Faults.{HasCause};
ghost use Rattle.vc_ports.specs.Writing.{Grew, GrewBySome};
ghost use Rattle.vc_types.specs.Planes.{Planes, planes_in};
ghost use Rattle.vc_types.specs.SequenceHeader.{sequence_of};

use crate::pairing::{Field, field_before, first_field, woven};
use frame_writer::{FrameFault, is_wide, write_frame};
use std::alloc::Global;
use std::marker::Model;
use vc_ports::Sink;
use vc_types::{Header, NoMemory, Plane};

/// What a released picture came to.
#[derive(Clone, Copy)]
pub struct Shown {
    /// Whether a frame went out, of which it is the last picture.
    pub has_frame: bool,
    /// How many fields turned out to be part of no frame, 0 to 2: the one that waited, and this one.
    pub alone: u64,
}

/// The frames of a sequence's pictures. It keeps the first field of a frame whose second one isn't released
/// yet, and is seen as that field, if one waits.
#[derive(Drop)]
pub struct FrameOutput {
    alloc: Global,
    waiting: Option<Field>,
    // The planes of the frame that was written last, until they are taken.
    done: Option<[Plane; 3]>,
}

impl Model for FrameOutput {
    ghost use Rattle.std.specs.Prelude.{Option};
    ghost use Rattle.std.specs.Option.{option_map};
    ghost use Rattle.receiver_model.specs.Receptions.{FirstField};
    ghost use Rattle.link_pictures.specs.FrameViews.{first_field_of};

    ghost Value = { Option FirstField };

    ghost view = { λ o. option_map first_field_of o.waiting };
}

impl FrameOutput {
    /// No field waits.
    pub fn new(alloc: Global) -> FrameOutput
        ensures { result ≡ None }
    {
        FrameOutput {
            alloc,
            waiting: None,
            done: None,
        }
    }

    /// Takes the planes of the picture that is released next, if it has any, and writes the frame of which it
    /// is the last picture. Without field coding, that is the picture itself. With field coding, a field with
    /// an even number waits, and one with an odd number is woven with the field of the number before it, if
    /// that one waits. Planes have the sizes and depths of the sequence's pictures. If memory runs out,
    /// nothing is written; if the sink fails, a prefix of the frame has been written. In every case, a field
    /// that was waiting before the call no longer waits.
    pub fn release<O: Sink>(
        &mut self,
        header: &Header,
        number: u64,
        planes: Option<[Plane; 3]>,
        sink: &mut O,
    ) -> Result<Shown, FrameFault>
        requires planes { IfSome planes
            (λ planes. ArePicturePlanes (sequence_of header.now) (planes_in planes)) }
        requires waiting { IfSome self.old
            (λ field. ArePicturePlanes (sequence_of header.now) field.planes) }
        ensures field { self.new
            ≡ field_behind (sequence_of header.now) number (option_map planes_in planes) }
        ensures waiting { IfSome self.new
            (λ field. ArePicturePlanes (sequence_of header.now) field.planes) }
        ensures ok { let s = sequence_of header.now in
            OnOk result (Grew (O.held sink.old) (O.held sink.new)
            (raw_bytes s (released_frame s self.old number (option_map planes_in planes)))) }
        ensures has_frame { let s = sequence_of header.now in
            IfOk result (λ shown. shown.has_frame
            ≡ is_some (released_frame s self.old number (option_map planes_in planes))) }
        ensures alone { let s = sequence_of header.now in
            IfOk result (λ shown. shown.alone
            ≡ fields_alone s self.old number (option_map planes_in planes)) }
        ensures err { let s = sequence_of header.now in
            OnErr result (GrewBySome (O.held sink.old) (O.held sink.new)
            (raw_bytes s (released_frame s self.old number (option_map planes_in planes)))) }
        ensures cause { HasCause (O.faults sink.old) (O.faults sink.new)
            (result ≡ Err FrameFault.WriteFault) }
        ensures no_memory { result ≡ Err FrameFault.NoMemory → sink.new ≡ sink.old }
    {
        let has_waited = self.waiting.is_some();
        let is_second = header.fields && number % 2 == 1 && planes.is_some();
        let Ok(completed) = self.completed(header, number, planes) else {
            return Err(FrameFault::NoMemory);
        };
        let Some(frame) = completed else {
            return Ok(Shown {
                has_frame: false,
                alone: u64::from(has_waited) + u64::from(is_second),
            });
        };
        write_frame(self.alloc, sink, &frame, is_wide(&header.shape()))?;
        self.done = Some(frame);
        Ok(Shown {
            has_frame: true,
            alone: 0,
        })
    }

    /// The planes of the frame that was written last, unless they were taken: others may be made in their
    /// memory.
    pub fn take_done(&mut self) -> Option<[Plane; 3]>
        ensures unchanged { self.new ≡ self.old }
    {
        self.done.take()
    }

    /// The same of a frame that goes nowhere: it is neither woven nor written, and what waits is the same.
    pub fn pass(&mut self, header: &Header, number: u64, planes: Option<[Plane; 3]>) -> Shown
        requires planes { IfSome planes
            (λ planes. ArePicturePlanes (sequence_of header.now) (planes_in planes)) }
        ensures field { self.new
            ≡ field_behind (sequence_of header.now) number (option_map planes_in planes) }
        ensures waiting { IfSome self.new
            (λ field. ArePicturePlanes (sequence_of header.now) field.planes) }
        ensures has_frame { result.has_frame ≡ is_some (released_frame
            (sequence_of header.now) self.old number (option_map planes_in planes)) }
        ensures alone { result.alone ≡ fields_alone
            (sequence_of header.now) self.old number (option_map planes_in planes) }
    {
        if header.fields && number % 2 == 0 {
            let has_waited = self.waiting.is_some();
            self.waiting = first_field(number, planes);
            return Shown {
                has_frame: false,
                alone: u64::from(has_waited),
            };
        }
        self.pass_unbuilt(header, number, planes.is_some())
    }

    /// The same of a picture whose planes, if it has any, aren't built. It is no first field, which
    /// would wait.
    pub fn pass_unbuilt(&mut self, header: &Header, number: u64, is_sound: bool) -> Shown
        requires second { header.now.fields ≡ true → number % 2 ≡ 1 }
        ensures none { self.new ≡ None }
        ensures field { (planes : Option Planes)
            → self.new ≡ field_behind (sequence_of header.now) number planes }
        ensures has_frame { (planes : Option Planes) → is_some planes ≡ is_sound
            → result.has_frame ≡ is_some (released_frame
            (sequence_of header.now) self.old number planes) }
        ensures alone { (planes : Option Planes) → is_some planes ≡ is_sound
            → result.alone ≡ fields_alone (sequence_of header.now) self.old number planes }
    {
        let waiting = self.waiting.take();
        let has_waited = waiting.is_some();
        if is_sound && (!header.fields || field_before(waiting, number).is_some()) {
            return Shown {
                has_frame: true,
                alone: 0,
            };
        }
        Shown {
            has_frame: false,
            alone: u64::from(has_waited) + u64::from(header.fields && is_sound),
        }
    }

    /// Lets the field go that waits, and answers whether one did.
    pub fn give_up(&mut self) -> bool
        ensures answer { result ≡ is_some self.old }
        ensures none { self.new ≡ None }
    {
        self.waiting.take().is_some()
    }

    // The frame of which a picture is the last. What waited waits no longer, and a first field waits from
    // now on.
    fn completed(
        &mut self,
        header: &Header,
        number: u64,
        planes: Option<[Plane; 3]>,
    ) -> Result<Option<[Plane; 3]>, NoMemory>
        requires planes { IfSome planes
            (λ planes. ArePicturePlanes (sequence_of header.now) (planes_in planes)) }
        requires waiting { IfSome self.old
            (λ field. ArePicturePlanes (sequence_of header.now) field.planes) }
        ensures field { self.new
            ≡ field_behind (sequence_of header.now) number (option_map planes_in planes) }
        ensures frame { IfOk result (λ frame. option_map planes_in frame ≡ released_frame
            (sequence_of header.now) self.old number (option_map planes_in planes)) }
    {
        let waiting = self.waiting.take();
        if !header.fields {
            return Ok(planes);
        }
        if number % 2 == 0 {
            self.waiting = first_field(number, planes);
            return Ok(None);
        }
        woven(self.alloc, header, field_before(waiting, number), planes)
    }
}
