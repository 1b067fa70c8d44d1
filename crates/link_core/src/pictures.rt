ghost use Rattle.std.specs.Prelude.{◌≡◌, ◌≤◌, ℕ, Bool, List, IfOk, Some, slice_get};
ghost use Rattle.std.specs.Option.{option_copied, option_map};
ghost use Rattle.link_core.specs.Hearing.{session_windows, book_among, closed_among, AreHeard};
ghost use Rattle.link_core.specs.Pictures.{IsPictureBook, job_in_book};
ghost use Rattle.machine_model.specs.Feeders as feeders;
ghost use Rattle.machine_model.specs.Feeders.{let_go_pictures, not_released};
ghost use Rattle.link_model.specs.Output as output;
ghost use Rattle.machine_model.specs.Places.{Job};
ghost use Rattle.link_model.specs.Session.{HeardSession};
ghost use Rattle.link_slices.specs.Jobs.{job_of};

use crate::session::{OpenSession, session_of_picture};
use link_window::PictureBook;
use vc_slice::SliceJob;
use vc_types::NoMemory;

/// The book of a picture that is opened in one of the sessions.
pub(crate) fn book_of_picture(sessions: &[OpenSession], number: u64) -> Option<&PictureBook>
    ensures { option_copied result ≡ book_among sessions.now number }
{
    session_of_picture(sessions, number)?.book(number)
}

// The job of a slice that a picture keeps.
fn job_in_book(book: &PictureBook, number: u64, index: u32) -> Result<Option<SliceJob>, NoMemory>
    requires book { IsPictureBook book.now }
    ensures { IfOk result (λ job. option_map job_of job ≡ job_in_book book.now number index) }
{
    let (Some(plan), Some(bytes)) = (book.plan(), book.slice(index)) else {
        return Ok(None);
    };
    let Ok(bytes) = bytes.clone() else {
        return Err(NoMemory);
    };
    Ok(Some(SliceJob {
        plan,
        number,
        index,
        bytes,
    }))
}

/// The job of a slice that a picture keeps.
pub(crate) fn kept_job(
    sessions: &[OpenSession],
    number: u64,
    index: u32,
) -> Result<Option<SliceJob>, NoMemory>
    requires heard { (size : ℕ) × AreHeard size sessions.now }
    ensures { (size : ℕ) (hs : List HeardSession) → sessions.now ≡ session_windows size hs
        → IfOk result (λ job. option_map job_of job
        ≡ feeders.kept_job size hs number index) }
{
    match book_of_picture(sessions, number) {
        Some(book) => job_in_book(book, number, index),
        None => Ok(None),
    }
}

// Whether a picture is opened before the last session, or its window has passed the number.
fn closed_among(sessions: &[OpenSession], size: u8, number: u64) -> bool
    ensures { result ≡ closed_among size sessions.now number }
{
    let Some((last, earlier)) = sessions.split_first() else {
        return false;
    };
    book_of_picture(earlier, number).is_some() || last.has_passed(size, number)
}

/// Whether a picture of which a slice is kept is closed by a later one of its session, or by the
/// next session.
pub(crate) fn is_closed_in(sessions: &[OpenSession], size: u8, number: u64) -> bool
    ensures { (hs : List HeardSession) (index : ℕ) (job : Job)
        → sessions.now ≡ session_windows size hs
        → feeders.kept_job size hs number index ≡ Some job
        → result ≡ output.is_closed_in size hs number }
{
    closed_among(sessions, size, number)
}

/// The least picture that is let go and isn't among those that were released.
pub(crate) fn next_in(
    mut sessions: Vec<OpenSession>,
    has_ended: bool,
    released: &[u64],
) -> Option<u64>
    ensures { (size : ℕ) (hs : List HeardSession) → sessions.items ≡ session_windows size hs
        → result
        ≡ slice_get (not_released released.now (let_go_pictures size has_ended hs)) 0 }
{
    if sessions.is_empty() {
        return None;
    }
    let last = sessions.remove(0);
    if let Some(number) = next_in(sessions, true, released) {
        return Some(number);
    }
    last.next_release(has_ended, released)
}
