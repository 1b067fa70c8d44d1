ghost use Rattle.std.specs.Prelude.{◌≡◌, IfOk, IfSome, OnOk, is_some, None, Some};
ghost use Rattle.std.specs.Option.{option_map, option_copied, option_and_then};
ghost use Rattle.link_model.specs.Books.{book_whole};
ghost use Rattle.receiver_model.specs.Receptions.{answers_without};
ghost use Rattle.receiver_model.specs.Releasing.{released_planes};
ghost use Rattle.receiver_model.specs.WholeBooks.{ArePicturePlanes};
ghost use Rattle.link_receiver.specs.Shown.{shown_picture, shown_frames, shown_bytes, written_behind_shown};
ghost use Rattle.link_receiver.specs.Shown.{WaitsIn, IsSeen, StepWrites};
ghost use Rattle.fill_model.specs.Filled.{last_frame};
ghost use Rattle.link_pictures.specs.Writing.{writes_picture};
ghost use Rattle.link_pictures.specs.declared.written.Written.TheVariants.{Frames, Filled, Units};
ghost use Rattle.vc_types.specs.Planes.{planes_in};

use crate::fault::StepFault;
use link_pictures::{
    Answers, FilledFrames, FrameOutput, ReleasedPicture, Shown, StreamOutput, Written,
};
use link_window::{PictureBook, Standing};
use std::thread::Threads;
use vc_ports::Sink;
use vc_types::{NoMemory, Plane};

/// What a released picture came to, and whether it is complete and sound.
#[derive(Clone, Copy)]
pub(crate) struct Seen {
    pub(crate) is_sound: bool,
    pub(crate) shown: Shown,
}

/// Releases the answers of a picture, and writes the frame of which it is the last, with repeats of the one
/// before it where gaps are filled, or the units of that frame's pictures. What waits for a second field is
/// the same.
pub(crate) fn show<H: Threads + Copy, O: Sink>(
    answers: &mut Answers<H>,
    field: &mut FrameOutput,
    written: &mut Written,
    standing: &Standing,
    number: u64,
    sink: &mut O,
) -> Result<Seen, StepFault>
    requires waiting { WaitsIn standing.now field.old }
    ensures seen { IfOk result
        (IsSeen standing.now number answers.old field.old answers.new field.new) }
    ensures kept { OnOk result (written.new
        ≡ written_behind_shown written.old standing.now answers.old field.old number) }
    ensures wrote { StepWrites O.held O.faults sink.old sink.new result
        (shown_bytes written.old standing.now answers.old field.old number) }
{
    match written {
        Written::Frames => show_frame(answers, field, standing, number, sink),
        Written::Filled(frames) => show_filled(answers, field, frames, standing, number, sink),
        Written::Units(stream) => show_units(answers, field, stream, standing, number, sink),
    }
}

fn show_frame<H: Threads + Copy, O: Sink>(
    answers: &mut Answers<H>,
    field: &mut FrameOutput,
    standing: &Standing,
    number: u64,
    sink: &mut O,
) -> Result<Seen, StepFault>
    requires waiting { WaitsIn standing.now field.old }
    ensures seen { IfOk result
        (IsSeen standing.now number answers.old field.old answers.new field.new) }
    ensures wrote { StepWrites O.held O.faults sink.old sink.new result
        (shown_bytes Frames standing.now answers.old field.old number) }
{
    let planes = take_planes(answers, standing, number)?;
    let is_sound = planes.is_some();
    let shown = field.release(standing.header(), number, planes, sink)?;
    hand_back(answers, field);
    Ok(Seen { is_sound, shown })
}

fn show_filled<H: Threads + Copy, O: Sink>(
    answers: &mut Answers<H>,
    field: &mut FrameOutput,
    frames: &mut FilledFrames,
    standing: &Standing,
    number: u64,
    sink: &mut O,
) -> Result<Seen, StepFault>
    requires waiting { WaitsIn standing.now field.old }
    ensures seen { IfOk result
        (IsSeen standing.now number answers.old field.old answers.new field.new) }
    ensures kept { OnOk result (frames.new ≡ last_frame frames.old
        (shown_frames standing.now answers.old field.old number)) }
    ensures wrote { StepWrites O.held O.faults sink.old sink.new result
        (shown_bytes (Filled frames.old) standing.now answers.old field.old number) }
{
    let planes = take_planes(answers, standing, number)?;
    let is_sound = planes.is_some();
    let shown = frames.release(field, standing.header(), number, planes, sink)?;
    hand_back(answers, field);
    Ok(Seen { is_sound, shown })
}

// Later planes may be made in the memory of those that were written.
fn hand_back<H>(answers: &mut Answers<H>, field: &mut FrameOutput)
    ensures answers { answers.new ≡ answers.old }
    ensures field { field.new ≡ field.old }
{
    if let Some(planes) = field.take_done() {
        answers.reuse(planes);
    }
}

fn show_units<H: Threads + Copy, O: Sink>(
    answers: &mut Answers<H>,
    field: &mut FrameOutput,
    stream: &mut StreamOutput,
    standing: &Standing,
    number: u64,
    sink: &mut O,
) -> Result<Seen, StepFault>
    requires waiting { WaitsIn standing.now field.old }
    ensures seen { IfOk result
        (IsSeen standing.now number answers.old field.old answers.new field.new) }
    ensures stream { OnOk result (stream.new ≡ writes_picture stream.old
        (shown_picture standing.now answers.old field.old number)) }
    ensures wrote { StepWrites O.held O.faults sink.old sink.new result
        (shown_bytes (Units stream.old) standing.now answers.old field.old number) }
{
    let whole = whole_bytes(standing.book(number))?;
    let seen = pass(answers, field, standing, number)?;
    let waits = standing.header().fields && number % 2 == 0 && seen.is_sound;
    let picture = ReleasedPicture {
        number,
        whole,
        has_frame: seen.shown.has_frame,
        waits,
    };
    stream.release(picture, sink)?;
    Ok(seen)
}

// The frame itself isn't made, and planes only of a first field, which waits.
fn pass<H: Threads + Copy>(
    answers: &mut Answers<H>,
    field: &mut FrameOutput,
    standing: &Standing,
    number: u64,
) -> Result<Seen, NoMemory>
    requires waiting { WaitsIn standing.now field.old }
    ensures seen { IfOk result
        (IsSeen standing.now number answers.old field.old answers.new field.new) }
{
    let header = standing.header();
    if header.fields && number % 2 == 0 {
        let planes = take_planes(answers, standing, number)?;
        let is_sound = planes.is_some();
        let shown = field.pass(header, number, planes);
        return Ok(Seen { is_sound, shown });
    }
    let is_sound = take_soundness(answers, standing, number)?;
    let shown = field.pass_unbuilt(header, number, is_sound);
    Ok(Seen { is_sound, shown })
}

// The planes of a picture, whose answers are forgotten.
fn take_planes<H: Threads + Copy>(
    answers: &mut Answers<H>,
    standing: &Standing,
    number: u64,
) -> Result<Option<[Plane; 3]>, NoMemory>
    ensures planes { IfOk result (λ planes. option_map planes_in planes
        ≡ released_planes answers.old standing.now.window number) }
    ensures value { OnOk result (answers.new ≡ answers_without answers.old number) }
    ensures shape { IfOk result (λ planes. IfSome planes
        (λ planes. ArePicturePlanes standing.now.session.sequence (planes_in planes))) }
{
    answers.take_planes(number, standing.book(number))
}

// Whether a picture has planes, which aren't built; its answers are forgotten.
fn take_soundness<H>(
    answers: &mut Answers<H>,
    standing: &Standing,
    number: u64,
) -> Result<bool, NoMemory>
    ensures sound { IfOk result (λ sound. sound
        ≡ is_some (released_planes answers.old standing.now.window number)) }
    ensures value { OnOk result (answers.new ≡ answers_without answers.old number) }
{
    answers.take_soundness(number, standing.book(number))
}

// The parameters and slices of a picture that is complete.
fn whole_bytes(book: Option<&PictureBook>) -> Result<Option<Vec<u8>>, NoMemory>
    ensures { IfOk result (λ whole. option_map (λ bytes. bytes.items) whole
        ≡ option_and_then book_whole (option_copied book.entry)) }
{
    let Some(book) = book else {
        return Ok(None);
    };
    if !book.is_complete() {
        return Ok(None);
    }
    Ok(Some(book.whole_bytes()?))
}
