ghost use Rattle.fill_model.specs.Filled.{again, filled_behind, last_frame, repeated, times_again};
ghost use Rattle.fill_model.specs.FilledSessions.{frame_number, written_frame};
ghost use Rattle.link_pictures.specs.FrameViews.{frame_of};
ghost use Rattle.link_pictures.specs.declared.filled.LastFrame.{LastFrame};
ghost use Rattle.receiver_model.specs.Releasing.{released_frame, field_behind, fields_alone};
ghost use Rattle.receiver_model.specs.WholeBooks.{ArePicturePlanes};
ghost use Rattle.std.specs.Option.{option_map};
ghost use Rattle.std.specs.Prelude.{◌≡◌, ◌++◌, Err, None, Some, is_some, IfOk, IfSome, IsErr, OnOk, OnErr};
ghost use Rattle.vc_ports.specs.Faults.{HasCause};
ghost use Rattle.vc_ports.specs.Writing.{Grew, GrewBySome};
ghost use Rattle.vc_types.specs.Planes.{planes_in};
ghost use Rattle.vc_types.specs.SequenceHeader.{sequence_of};

use crate::frame_bytes::FrameBytes;
use crate::output::{FrameOutput, Shown};
use frame_writer::FrameFault;
use std::alloc::Global;
use std::marker::Model;
use vc_ports::{Sink, WriteFault, write_all};
use vc_types::{Header, Plane};

// So many frames in a row are filled, and none where more are missing.
const MOST_FILLED: u64 = 250;

/// A frame that was written, and its number among the frames of its session.
#[derive(Drop)]
pub(crate) struct LastFrame {
    pub(crate) number: u64,
    pub(crate) bytes: Vec<u8>,
}

/// Raw frames without gaps. It keeps the frame that was written last in its session, and is seen as that one,
/// if there is one.
#[derive(Drop)]
pub struct FilledFrames {
    alloc: Global,
    last: Option<LastFrame>,
}

impl Model for FilledFrames {
    ghost use Rattle.fill_model.specs.Filled.{WrittenFrame};
    ghost use Rattle.link_pictures.specs.FrameViews.{frame_of};
    ghost use Rattle.std.specs.Option.{option_map};
    ghost use Rattle.std.specs.Prelude.{Option};

    ghost Value = { Option WrittenFrame };

    ghost view = { λ o. option_map frame_of o.last };
}

impl FilledFrames {
    /// No frame was written.
    pub fn new(alloc: Global) -> FilledFrames
        ensures { result ≡ None }
    {
        FilledFrames { alloc, last: None }
    }

    /// A session opens: nothing of the one before is written once more.
    pub fn open(&mut self)
        ensures { self.new ≡ None }
    {
        self.last = None;
    }

    /// Takes a released picture, as `FrameOutput::release` does, and writes before the frame of which it is the
    /// last the one before that once more for each frame that is missing between the two, if these are at most
    /// 250. If memory runs out, nothing is written; if the sink fails, a prefix has been written.
    pub fn release<O: Sink>(
        &mut self,
        field: &mut FrameOutput,
        header: &Header,
        number: u64,
        planes: Option<[Plane; 3]>,
        sink: &mut O,
    ) -> Result<Shown, FrameFault>
        requires planes { IfSome planes
            (λ planes. ArePicturePlanes (sequence_of header.now) (planes_in planes)) }
        requires waiting { IfSome field.old
            (λ field. ArePicturePlanes (sequence_of header.now) field.planes) }
        ensures field { field.new
            ≡ field_behind (sequence_of header.now) number (option_map planes_in planes) }
        ensures waiting { IfSome field.new
            (λ field. ArePicturePlanes (sequence_of header.now) field.planes) }
        ensures value { let s = sequence_of header.now in
            OnOk result (self.new ≡ last_frame self.old (written_frame s number
            (released_frame s field.old number (option_map planes_in planes)))) }
        ensures ok { let s = sequence_of header.now in
            OnOk result (Grew (O.held sink.old) (O.held sink.new)
            (filled_behind self.old (written_frame s number
            (released_frame s field.old number (option_map planes_in planes))))) }
        ensures has_frame { let s = sequence_of header.now in
            IfOk result (λ shown. shown.has_frame
            ≡ is_some (released_frame s field.old number (option_map planes_in planes))) }
        ensures alone { let s = sequence_of header.now in
            IfOk result (λ shown. shown.alone
            ≡ fields_alone s field.old number (option_map planes_in planes)) }
        ensures err { let s = sequence_of header.now in
            OnErr result (GrewBySome (O.held sink.old) (O.held sink.new)
            (filled_behind self.old (written_frame s number
            (released_frame s field.old number (option_map planes_in planes))))) }
        ensures cause { HasCause (O.faults sink.old) (O.faults sink.new)
            (result ≡ Err FrameFault.WriteFault) }
    {
        let mut frame = FrameBytes::new(self.alloc);
        let Ok(shown) = field.release(header, number, planes, &mut frame) else {
            return Err(FrameFault::NoMemory);
        };
        if !shown.has_frame {
            return Ok(shown);
        }
        let next = LastFrame {
            number: frame_number(header, number),
            bytes: frame.bytes,
        };
        match self.write(next, sink) {
            Ok(()) => Ok(shown),
            Err(WriteFault) => Err(FrameFault::WriteFault),
        }
    }

    // Writes a frame, and before it the one before so often as there are frames missing.
    fn write<O: Sink>(&mut self, next: LastFrame, sink: &mut O) -> Result<(), WriteFault>
        ensures value { OnOk result (self.new ≡ Some (frame_of next)) }
        ensures ok { OnOk result (Grew (O.held sink.old) (O.held sink.new)
            (again self.old (frame_of next) ++ next.bytes.items)) }
        ensures err { OnErr result (GrewBySome (O.held sink.old) (O.held sink.new)
            (again self.old (frame_of next) ++ next.bytes.items)) }
        ensures cause { HasCause (O.faults sink.old) (O.faults sink.new) (IsErr result) }
    {
        self.fill(&next, sink)?;
        write_all(sink, &next.bytes)?;
        self.last = Some(next);
        Ok(())
    }

    fn fill<O: Sink>(&self, next: &LastFrame, sink: &mut O) -> Result<(), WriteFault>
        ensures ok { OnOk result (Grew (O.held sink.old) (O.held sink.new)
            (again self.now (frame_of next.now))) }
        ensures err { OnErr result (GrewBySome (O.held sink.old) (O.held sink.new)
            (again self.now (frame_of next.now))) }
        ensures cause { HasCause (O.faults sink.old) (O.faults sink.new) (IsErr result) }
    {
        match &self.last {
            Some(before) => write_again(sink, &before.bytes, times_again(before, next)),
            None => Ok(()),
        }
    }
}

// A frame has the number of its picture or, with field coding, half that of its first field.
fn frame_number(header: &Header, number: u64) -> u64
    ensures { result ≡ frame_number (sequence_of header.now) number }
{
    if header.fields { number / 2 } else { number }
}

// How many frames are missing between two, if they are few.
#[tactic(auto, unfolding(fill_model::specs::Filled::times_again))]
fn times_again(before: &LastFrame, next: &LastFrame) -> u64
    ensures { result ≡ times_again (frame_of before.now) (frame_of next.now) }
{
    let missing = next.number.saturating_sub(before.number).saturating_sub(1);
    if missing <= MOST_FILLED { missing } else { 0 }
}

// Writes bytes so many times.
fn write_again<O: Sink>(sink: &mut O, bytes: &[u8], times: u64) -> Result<(), WriteFault>
    ensures ok { OnOk result (Grew (O.held sink.old) (O.held sink.new) (repeated times bytes.now)) }
    ensures err { OnErr result
        (GrewBySome (O.held sink.old) (O.held sink.new) (repeated times bytes.now)) }
    ensures cause { HasCause (O.faults sink.old) (O.faults sink.new) (IsErr result) }
{
    for _ in 0..times {
        write_all(sink, bytes)?;
    }
    Ok(())
}
