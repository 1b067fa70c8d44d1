ghost use Rattle.std.specs.Prelude.{◌≡◌, ◌<◌, ◌≤◌, ◌+◌, ◌^◌, Err, OnOk, IfOk};
ghost use Rattle.std.specs.Option.{option_map};
ghost use Rattle.vc_ports.specs.Faults.{HasCause};
ghost use Rattle.vc_types.specs.Planes.{planes_in};
ghost use Rattle.vc_types.specs.SequenceHeader.{sequence_of, picture_shape};
ghost use Rattle.frame_writer.specs.Shapes.{HaveShape};
ghost use Rattle.cmd_stream.specs.PlayLooping.{unpaired_of};
ghost use Rattle.cmd_stream.specs.PlaySteps.{stream_state, next_waiting, new_frames};
ghost use Rattle.cmd_stream.specs.Stream.{begun_as, begun_by, begun_with, repeats};
ghost use Rattle.cmd_stream.specs.Taking.{HasShape, CompletesFrame, ShowsPicture};
ghost use Rattle.cmd_stream.specs.PlayViews.{playback_state, picture_of};

use crate::coding::Coding;
use crate::machine::Machine;
use crate::pairs::{is_pair, waits};
use crate::picture::{KeptMemory, Picture, read_picture};
use crate::play_fault::TakeFault;
use field_pairs::weave;
use frame_writer::{is_wide, write_frame};
use std::alloc::Global;
use std::thread::Threads;
use vc_ports::Sink;
use vc_seqhdr::{read_header_of, read_whole_header_of};
use vc_types::{Header, NoMemory, Plane, Presentation};

/// What is kept of a stream behind its first header: what this header says, and at most one field.
#[derive(Drop)]
pub(crate) struct Playback {
    pub(crate) coding: Coding,
    pub(crate) header: Header,
    pub(crate) presentation: Presentation,
    // With field coding, the earlier field of a frame, which waits for the very next picture.
    pub(crate) waiting: Option<Picture>,
    pub(crate) pictures: u64,
    pub(crate) frames: u64,
    kept: KeptMemory,
}

impl Playback {
    /// The stream that a first header begins, of high quality or, where it isn't that, of low delay; none
    /// where it is neither.
    pub(crate) fn begun_by(body: &[u8]) -> Option<Playback>
        ensures { option_map playback_state result ≡ option_map stream_state (begun_by body.now) }
    {
        match Playback::begun_as(Coding::HighQuality, body) {
            Some(stream) => Some(stream),
            None => Playback::begun_as(Coding::LowDelay, body),
        }
    }

    // The same of one coding.
    fn begun_as(coding: Coding, body: &[u8]) -> Option<Playback>
        ensures { option_map playback_state result
            ≡ option_map stream_state (begun_as coding body.now) }
    {
        match read_whole_header_of(coding.profile(), body) {
            Ok(whole) => Some(Playback::new(coding, whole.header, whole.presentation)),
            Err(_) => None,
        }
    }

    // A stream without pictures.
    fn new(coding: Coding, header: Header, presentation: Presentation) -> Playback
        ensures { playback_state result
            ≡ stream_state (begun_with coding (sequence_of header, presentation)) }
    {
        Playback {
            coding,
            header,
            presentation,
            waiting: None,
            pictures: 0,
            frames: 0,
            kept: KeptMemory::new(),
        }
    }

    /// Whether a later header has the profile and the value of the first.
    pub(crate) fn repeats(&self, body: &[u8]) -> bool
        ensures { result ≡ repeats self.now.coding (sequence_of self.now.header) body.now }
    {
        match read_header_of(self.coding.profile(), body) {
            Ok((header, _)) => self.header.is_same(&header),
            Err(_) => false,
        }
    }

    /// Takes the picture of a data unit's body, and writes the frame that it completes.
    pub(crate) fn show<H: Threads + Copy + Send + Sync, O: Sink>(
        &mut self,
        host: Machine<H>,
        body: Vec<u8>,
        output: &mut O,
    ) -> Result<(), TakeFault>
        requires few { (self.old.pictures < 2 ^ 32) × (self.old.frames ≤ self.old.pictures) }
        requires shape { HasShape (playback_state self.old) }
        ensures value { ShowsPicture body.items (playback_state self.old) (playback_state self.new)
            (O.held output.old) (O.held output.new) result }
        ensures cause { HasCause (O.faults output.old) (O.faults output.new)
            (result ≡ Err TakeFault.WriteFault) }
        ensures few { OnOk result ((self.new.pictures ≡ self.old.pictures + 1)
            × (self.new.frames ≤ self.new.pictures)) }
        ensures shape { OnOk result (HasShape (playback_state self.new)) }
    {
        let kept = &mut self.kept;
        let Some(picture) = read_picture(host, self.coding, &self.header, kept, body)? else {
            return Err(TakeFault::Refused);
        };
        let frame = self.completed(host.alloc, picture)?;
        self.pictures += 1;
        if let Some(planes) = frame {
            let two = is_wide(&self.header.shape());
            write_frame(host.alloc, output, &planes, two)?;
            self.kept.reuse(planes);
            self.frames += 1;
        }
        Ok(())
    }

    /// How many fields are part of no frame.
    pub(crate) fn unpaired(&self) -> u64
        requires { self.now.frames < 2 ^ 32 }
        ensures { result ≡ unpaired_of (playback_state self.now) }
    {
        if self.header.fields {
            self.pictures.saturating_sub(2 * self.frames)
        } else {
            0
        }
    }

    // The frame that a picture completes: itself or, with field coding, the field that waits and it.
    fn completed(&mut self, alloc: Global, picture: Picture) -> Result<Option<[Plane; 3]>, NoMemory>
        requires shape { HasShape (playback_state self.old) }
        requires picture { HaveShape (picture_shape (sequence_of self.old.header))
            (planes_in picture.planes) }
        ensures value { IfOk result (CompletesFrame
            (playback_state self.old) (picture_of picture) (playback_state self.new)) }
        ensures shape { OnOk result (HasShape (playback_state self.new)) }
    {
        if !self.header.fields {
            return Ok(Some(picture.planes));
        }
        match self.waiting.take() {
            Some(earlier) if is_pair(&earlier, &picture) => {
                let frame = weave(alloc, earlier.planes, picture.planes, self.header.top_first)?;
                Ok(Some(frame))
            }
            _ => {
                self.waiting = waits(picture);
                Ok(None)
            }
        }
    }
}
