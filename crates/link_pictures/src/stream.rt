ghost use Rattle.std.specs.Prelude.{◌≡◌, true, OnOk, OnErr, IfOk, Err, None, if◌then◌else◌};
ghost use Rattle.std.specs.Option.{option_map};
ghost use Rattle.link_pictures.specs.Writing.{nothing_written, opens_stream, writes_picture};
ghost use Rattle.link_pictures.specs.Writing.{picture_bytes, end_of_stream, AreUnits};
ghost use Rattle.link_pictures.specs.Writing.{units_next};
ghost use Rattle.link_pictures.specs.Writing.{released_pictures};
ghost use Rattle.link_pictures.specs.UnitViews.{released_picture};
ghost use Rattle.vc_ports.specs.Faults.{HasCause};
ghost use Rattle.vc_ports.specs.Writing.{Grew, GrewBySome};

use crate::fault::StreamFault;
use crate::header::header_in;
use crate::units::Units;
use std::alloc::Global;
use std::marker::Model;
use vc_ports::{Sink, write_all};
use vc_types::{END_OF_SEQUENCE, NoMemory};
use vc_units::write_unit;

/// A picture that a receiver releases.
#[derive(Drop)]
pub struct ReleasedPicture {
    pub number: u64,
    /// Its parameters and slices, if it is complete.
    pub whole: Option<Vec<u8>>,
    /// Whether a frame goes out of which it is the last picture.
    pub has_frame: bool,
    /// Whether it is a first field that waits from now on.
    pub waits: bool,
}

/// The elementary stream of a receiver's first session, as it is written.
#[derive(Drop)]
pub struct StreamOutput {
    alloc: Global,
    header: Vec<u8>,
    is_over: bool,
    field: Option<Vec<u8>>,
    previous: Option<u32>,
}

impl Model for StreamOutput {
    ghost use Rattle.std.specs.Option.{option_map};
    ghost use Rattle.link_pictures.specs.Writing.{WrittenStream};

    ghost Value = { WrittenStream };

    ghost view = { λ o. record {
      header = o.header.items;
      is_over = o.is_over;
      field = option_map (λ bytes. bytes.items) o.field;
      previous = o.previous;
    } };
}

impl StreamOutput {
    /// Nothing was written, and no session has opened.
    pub fn new(alloc: Global) -> StreamOutput
        ensures { result ≡ nothing_written }
    {
        StreamOutput {
            alloc,
            header: Vec::new(alloc),
            is_over: false,
            field: None,
            previous: None,
        }
    }

    /// A datagram opens a session, the first one or another behind it. No field waits any longer.
    pub fn open(&mut self, is_first: bool, datagram: &[u8]) -> Result<(), NoMemory>
        ensures { OnOk result (self.new ≡ opens_stream self.old is_first datagram.now) }
    {
        self.field = None;
        if is_first {
            self.header = header_in(self.alloc, datagram)?;
        } else {
            self.is_over = true;
        }
        Ok(())
    }

    /// Takes the picture that is released next, and writes the units of the pictures of the frame of
    /// which it is the last, behind the header where they are the first. Of later sessions nothing
    /// is written. Without memory nothing goes out, and after a fault of the sink a prefix did.
    #[tactic(auto, unfolding(crate::specs::Writing::writes_picture, crate::specs::Writing::picture_bytes))]
    pub fn release<O: Sink>(
        &mut self,
        picture: ReleasedPicture,
        sink: &mut O,
    ) -> Result<(), StreamFault>
        ensures value { OnOk result (self.new
            ≡ writes_picture self.old (released_picture picture)) }
        ensures written { OnOk result (Grew (O.held sink.old) (O.held sink.new)
            (picture_bytes self.old (released_picture picture))) }
        ensures err { OnErr result (GrewBySome (O.held sink.old) (O.held sink.new)
            (picture_bytes self.old (released_picture picture))) }
        ensures cause { HasCause (O.faults sink.old) (O.faults sink.new)
            (result ≡ Err StreamFault.WriteFault) }
    {
        if self.is_over {
            return Ok(());
        }
        let units = self.frame_units(&picture)?;
        write_all(sink, &units.bytes)?;
        self.previous = units.previous;
        self.field = bytes_that_wait(picture);
        Ok(())
    }

    // The units of the pictures of its frame, if there is one, behind those that were written.
    #[tactic(auto, using(crate::proofs::UnitLists::next_nothing))]
    fn frame_units(&self, picture: &ReleasedPicture) -> Result<Units, NoMemory>
        ensures { let w = self.now in IfOk result (λ units. AreUnits w.previous
            (units_next w (released_pictures w (released_picture picture.now)))
            units.bytes.items units.previous) }
    {
        if picture.has_frame {
            self.all_units(picture)
        } else {
            Ok(Units::new(self.alloc, self.previous))
        }
    }

    #[tactic(auto, using(crate::proofs::UnitLists::frame_next))]
    fn all_units(&self, picture: &ReleasedPicture) -> Result<Units, NoMemory>
        requires { picture.now.has_frame ≡ true }
        ensures { let w = self.now in IfOk result (λ units. AreUnits w.previous
            (units_next w (released_pictures w (released_picture picture.now)))
            units.bytes.items units.previous) }
    {
        let mut units = Units::new(self.alloc, self.previous);
        units.begin(&self.header)?;
        units.push_field(picture.number.saturating_sub(1), &self.field)?;
        units.push_whole(picture.number, &picture.whole)?;
        Ok(units)
    }

    /// Writes the end of sequence, where there are units.
    pub fn finish<O: Sink>(&self, sink: &mut O) -> Result<(), StreamFault>
        ensures written { OnOk result (Grew (O.held sink.old) (O.held sink.new)
            (end_of_stream self.now)) }
        ensures err { OnErr result (GrewBySome (O.held sink.old) (O.held sink.new)
            (end_of_stream self.now)) }
        ensures cause { HasCause (O.faults sink.old) (O.faults sink.new)
            (result ≡ Err StreamFault.WriteFault) }
    {
        let Some(previous) = self.previous else {
            return Ok(());
        };
        let mut bytes = Vec::new(self.alloc);
        write_unit(&mut bytes, END_OF_SEQUENCE, &[], previous)?;
        write_all(sink, &bytes)?;
        Ok(())
    }
}

// The whole bytes of a first field that waits.
fn bytes_that_wait(picture: ReleasedPicture) -> Option<Vec<u8>>
    ensures { option_map (λ bytes. bytes.items) result ≡ (if picture.waits
        then option_map (λ bytes. bytes.items) picture.whole else None) }
{
    if picture.waits { picture.whole } else { None }
}
