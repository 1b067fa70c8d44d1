ghost use Rattle.std.specs.Prelude.{◌≡◌, ◌==◌, ◌&&◌, is_some, IfOk, Some};
ghost use Rattle.std.specs.List.{list_all, range_with_len};
ghost use Rattle.std.specs.Option.{option_copied, option_map};
ghost use Rattle.link_core.specs.Pictures.{slice_answer, book_ready};
ghost use Rattle.machine_model.specs.Feeders.{answer_in};
ghost use Rattle.machine_model.specs.Feeding.{sound_answer};
ghost use Rattle.link_slices.specs.Jobs.{answered};

use link_window::PictureBook;
use std::alloc::Global;
use std::marker::Model;
use vc_slice::{SliceCoeffs, SliceDone};
use vc_types::{NoMemory, Unsound};

/// The answer to a slice of a picture.
#[derive(Drop)]
pub(crate) struct KeptAnswer {
    number: u64,
    index: u32,
    answer: Result<SliceCoeffs, Unsound>,
}

impl Model for KeptAnswer {
    ghost use Rattle.machine_model.specs.Feeders.{SliceAnswer};

    ghost Value = { SliceAnswer };

    ghost view = { λ a. record { number = a.number; index = a.index; answer = a.answer } };
}

fn copied_answer(
    alloc: Global,
    answer: &Result<SliceCoeffs, Unsound>,
) -> Result<Result<SliceCoeffs, Unsound>, NoMemory>
    ensures { IfOk result (λ copy. copy ≡ answer.now) }
{
    match answer {
        Ok(c) => Ok(Ok(c.copy(alloc)?)),
        Err(unsound) => Ok(Err(*unsound)),
    }
}

impl KeptAnswer {
    pub(crate) fn of(done: SliceDone) -> KeptAnswer
        ensures { result ≡ slice_answer (answered done) }
    {
        KeptAnswer {
            number: done.job.number,
            index: done.job.index,
            answer: done.answer,
        }
    }

    pub(crate) fn copy_of(alloc: Global, done: &SliceDone) -> Result<KeptAnswer, NoMemory>
        ensures { IfOk result (λ kept. kept ≡ slice_answer (answered done.now)) }
    {
        Ok(KeptAnswer {
            number: done.job.number,
            index: done.job.index,
            answer: copied_answer(alloc, &done.answer)?,
        })
    }

    fn is_to(&self, number: u64, index: u32) -> bool
        ensures { result ≡ (self.now.number == number && self.now.index == index) }
    {
        self.number == number && self.index == index
    }

    /// The coefficients, if the slice is sound.
    pub(crate) fn coefficients(&self) -> Option<&SliceCoeffs>
        ensures { option_copied result ≡ sound_answer (Some self.now.answer) }
    {
        match &self.answer {
            Ok(c) => Some(c),
            Err(_) => None,
        }
    }
}

/// The answer to a slice.
pub(crate) fn answer_in(answers: &[KeptAnswer], number: u64, index: u32) -> Option<&KeptAnswer>
    ensures { option_map (λ a. a.answer) (option_copied result)
        ≡ answer_in answers.now number index }
{
    for kept in answers {
        if kept.is_to(number, index) {
            return Some(kept);
        }
    }
    None
}

fn is_answered(answers: &[KeptAnswer], number: u64, index: u32) -> bool
    ensures { result ≡ is_some (answer_in answers.now number index) }
{
    answer_in(answers, number, index).is_some()
}

// Whether each of so many slices has an answer.
fn has_answers(answers: &[KeptAnswer], number: u64, count: u32) -> bool
    ensures { result ≡ list_all (λ i. is_some (answer_in answers.now number i))
        (range_with_len 0 count) }
{
    for index in 0..count {
        if !is_answered(answers, number, index) {
            return false;
        }
    }
    true
}

/// Whether each slice of a picture has an answer, if each is there.
pub(crate) fn is_ready(answers: &[KeptAnswer], number: u64, book: &PictureBook) -> bool
    ensures { result ≡ book_ready answers.now number book.now }
{
    let Some(plan) = book.plan() else {
        return true;
    };
    !book.is_complete() || has_answers(answers, number, plan.slices_x * plan.slices_y)
}
