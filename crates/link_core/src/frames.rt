ghost use Rattle.std.specs.Prelude.{◌≡◌, ℕ, false, IfOk, IfSome};
ghost use Rattle.std.specs.List.{range_with_len};
ghost use Rattle.std.specs.Option.{option_map};
ghost use Rattle.frame_writer.specs.Samples.{HaveByteSamples};
ghost use Rattle.link_core.specs.Frames.{answered_book_planes, window_planes, window_frame};
ghost use Rattle.link_core.specs.Frames.{window_bytes, IsAnsweredBook, HasAnsweredBooks};
ghost use Rattle.frame_writer.specs.Shapes.{HaveShape};
ghost use Rattle.machine_model.specs.Feeding as feeding;
ghost use Rattle.vc_types.specs.Planes.{planes_in};
ghost use Rattle.vc_types.specs.RawFrames.{frame_bytes, is_wide};
ghost use Rattle.vc_types.specs.SequenceHeader.{Sequence, picture_shape};

use crate::answers::{KeptAnswer, answer_in};
use crate::session::OpenSession;
use field_pairs::weave;
use frame_writer::{is_wide, write_frame};
use link_window::PictureBook;
use picture_build::build;
use std::alloc::Global;
use vc_ports::MemSink;
use vc_slice::SliceCoeffs;
use vc_types::{NoMemory, Plane};

// The coefficients of so many slices, if each has an answer and it is sound.
fn sound_answers(
    alloc: Global,
    answers: &[KeptAnswer],
    number: u64,
    count: u32,
) -> Result<Option<Vec<SliceCoeffs>>, NoMemory>
    ensures { IfOk result (λ slices. option_map (λ s. s.items) slices
        ≡ feeding.sound_answers answers.now number (range_with_len 0 count)) }
{
    let mut slices = Vec::new(alloc);
    for index in 0..count {
        let Some(kept) = answer_in(answers, number, index) else {
            return Ok(None);
        };
        let Some(coefficients) = kept.coefficients() else {
            return Ok(None);
        };
        slices.push(coefficients.copy(alloc)?)?;
    }
    Ok(Some(slices))
}

// The planes of the answers to a picture's slices, if each has one and it is sound.
fn book_planes(
    alloc: Global,
    answers: &[KeptAnswer],
    number: u64,
    book: &PictureBook,
) -> Result<Option<[Plane; 3]>, NoMemory>
    requires answered { (s : Sequence) × IsAnsweredBook answers.now s number book.now }
    ensures value { IfOk result (λ planes. option_map planes_in planes
        ≡ answered_book_planes answers.now number book.now) }
    ensures shape { (s : Sequence) → IsAnsweredBook answers.now s number book.now
        → IfOk result (λ planes. IfSome planes (λ p. HaveShape (picture_shape s) (planes_in p))) }
{
    let Some(plan) = book.plan() else {
        return Ok(None);
    };
    let count = plan.slices_x * plan.slices_y;
    let Some(slices) = sound_answers(alloc, answers, number, count)? else {
        return Ok(None);
    };
    Ok(Some(build(alloc, &plan, slices)?))
}

// The planes of a picture of the session.
fn planes(
    alloc: Global,
    answers: &[KeptAnswer],
    session: &OpenSession,
    number: u64,
) -> Result<Option<[Plane; 3]>, NoMemory>
    requires answered { HasAnsweredBooks answers.now session.now }
    ensures value { IfOk result (λ planes. option_map planes_in planes
        ≡ window_planes answers.now session.now.window number) }
    ensures shape { let shape = picture_shape session.now.session.sequence in
        IfOk result (λ planes. IfSome planes (λ p. HaveShape shape (planes_in p))) }
{
    match session.book(number) {
        Some(book) => book_planes(alloc, answers, number, book),
        None => Ok(None),
    }
}

// The frame of which a picture is the last one.
fn frame(
    alloc: Global,
    answers: &[KeptAnswer],
    session: &OpenSession,
    number: u64,
) -> Result<Option<[Plane; 3]>, NoMemory>
    requires answered { HasAnsweredBooks answers.now session.now }
    ensures value { IfOk result (λ planes. option_map planes_in planes
        ≡ window_frame answers.now session.now number) }
    ensures narrow { is_wide (picture_shape session.now.session.sequence) ≡ false
        → IfOk result (λ planes. IfSome planes (λ p. HaveByteSamples (planes_in p))) }
{
    if !session.header().fields {
        return planes(alloc, answers, session, number);
    }
    if number % 2 == 0 {
        return Ok(None);
    }
    let Some(first) = planes(alloc, answers, session, number - 1)? else {
        return Ok(None);
    };
    let Some(second) = planes(alloc, answers, session, number)? else {
        return Ok(None);
    };
    let frame = weave(alloc, first, second, session.header().top_first)?;
    Ok(Some(frame))
}

// Room for the bytes of a frame.
fn room(planes: &[Plane; 3]) -> usize {
    let [y, c1, c2] = planes;
    let samples = y.samples().len().saturating_add(c1.samples().len());
    samples.saturating_add(c2.samples().len()).saturating_mul(2)
}

// The raw bytes of a frame.
fn raw_bytes(alloc: Global, planes: &[Plane; 3], two: bool) -> Result<Vec<u8>, NoMemory>
    requires { (two ≡ false) → HaveByteSamples (planes_in planes.now) }
    ensures { IfOk result (λ bytes. bytes.items ≡ frame_bytes (planes_in planes.now) two) }
{
    let mut sink = MemSink::new(alloc, room(planes), Vec::new(alloc))?;
    match write_frame(alloc, &mut sink, planes, two) {
        Ok(()) => Ok(Vec::from_slice(alloc, sink.bytes())?),
        Err(_) => Err(NoMemory),
    }
}

/// The bytes of the frame of which a picture is the last one.
pub(crate) fn frame_bytes(
    alloc: Global,
    answers: &[KeptAnswer],
    session: &OpenSession,
    number: u64,
) -> Result<Vec<u8>, NoMemory>
    requires answered { HasAnsweredBooks answers.now session.now }
    ensures value { IfOk result (λ bytes. bytes.items
        ≡ window_bytes answers.now session.now number) }
{
    match frame(alloc, answers, session, number)? {
        Some(planes) => raw_bytes(alloc, &planes, is_wide(&session.header().shape())),
        None => Ok(Vec::new(alloc)),
    }
}
