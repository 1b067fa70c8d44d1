ghost use Rattle.std.specs.Prelude.{◌≡◌, ◌≤◌, ◌<◌, ◌+◌, ◌-◌, ◌^◌, ◌&&◌, ℕ, List, IfOk, IfSome, OnOk};
ghost use Rattle.std.specs.Prelude.{Ok, Some, None, true, false, length, map};
ghost use Rattle.std.specs.Option.{option_copied, option_map, option_map_or};
ghost use Rattle.machine_model.specs.Feeding.{is_same_job};
ghost use Rattle.link_model.specs.Judgement.{header_outcome};
ghost use Rattle.link_model.specs.Session.{is_other, session_with};
ghost use Rattle.link_model.specs.Windows as windows;
ghost use Rattle.link_model.specs.Windows.{window_enters};
ghost use Rattle.receiver_model.specs.Exchanging.{offered_jobs, unreleased_job};
ghost use Rattle.receiver_model.specs.Judging.{is_over};
ghost use Rattle.receiver_model.specs.WholeBooks.{IsWholeBook};
ghost use Rattle.link_slices.specs.Jobs.{job_in_run, job_of, jobs_of_run};
ghost use Rattle.std.specs.List.{list_all};
ghost use Rattle.link_window.specs.Openings.{session_of};
ghost use Rattle.link_window.specs.Views.{sent_fragment, releasable_of};
ghost use Rattle.vc_types.specs.SequenceHeader.{coded_header, coded_whole_header_of};
ghost use Rattle.vc_types.specs.SequenceHeader.{high_quality_profile, sequence_of};

use crate::heard::Opening;
use crate::jobs::{has_job, has_run, has_slice_of, jobs_of};
use crate::{Fragment, Released, Window};
use link_gather::PictureBook;
use link_model::Outcome;
use std::alloc::Global;
use std::marker::Model;
use vc_slice::{RunJob, SliceJob};
use vc_types::{Header, NoMemory, Presentation};

/// The session that stands: its source, its sequence, how its frames are meant to be shown, whether it has had
/// its end, and its window.
#[derive(Drop)]
pub struct Standing {
    alloc: Global,
    ssrc: u32,
    presentation: Presentation,
    has_ended: bool,
    window: Window,
}

impl Model for Standing {
    ghost use Rattle.receiver_model.specs.Receptions.{StandingSession};
    ghost use Rattle.link_window.specs.Pasts.{IsSessionWindow};

    ghost Value = { StandingSession };

    ghost view = { λ s. record {
      session = record {
        ssrc = s.ssrc;
        sequence = s.window.sequence;
        presentation = s.presentation;
      };
      has_ended = s.has_ended;
      window = s.window;
    } };

    ghost invariant = { λ s. IsSessionWindow s.window.sequence s.window };
}

/// What became of a fragment, and the jobs of the slices that it brought, in raster order.
#[derive(Drop)]
pub struct Entered {
    pub outcome: Outcome,
    pub jobs: Vec<SliceJob>,
}

impl Standing {
    /// The session that a datagram opens, after sessions whose highest number is this. Up to `size` pictures
    /// may be open at a time, from 2 to 8.
    pub fn new(alloc: Global, opening: Opening, size: u8, greatest: u64) -> Standing
        requires least { 2 ≤ size }
        requires most { size ≤ 8 }
        requires fits { greatest < 2 ^ 64 - 16 }
        ensures { result ≡ record {
          session = session_of opening;
          has_ended = false;
          window = windows.new_window (sequence_of opening.header) size greatest;
        } }
    {
        Standing {
            alloc,
            ssrc: opening.ssrc,
            presentation: opening.presentation,
            has_ended: false,
            window: Window::after(alloc, opening.header, size, greatest),
        }
    }

    /// The header of the session's sequence.
    pub fn header(&self) -> &Header
        ensures { sequence_of result.now ≡ self.now.session.sequence }
    {
        self.window.header()
    }

    /// How the session's frames are meant to be shown, as the header that opened it says.
    pub fn presentation(&self) -> &Presentation
        ensures { result.now ≡ self.now.session.presentation }
    {
        &self.presentation
    }

    pub(crate) fn ssrc(&self) -> u32
        ensures { result ≡ self.now.session.ssrc }
    {
        self.ssrc
    }

    /// The greatest number of a picture, or of the sessions before where there is none.
    pub fn greatest(&self) -> u64
        ensures value { result ≡ self.now.window.top }
        ensures fits { result < 2 ^ 64 - 16 }
    {
        self.window.greatest()
    }

    /// How many pictures the window keeps.
    pub fn open_pictures(&self) -> usize
        ensures { result ≡ length self.now.window.books }
    {
        self.window.open_pictures()
    }

    /// Whether a datagram that begins this session opens it behind the one that stands.
    pub(crate) fn is_followed_by(&self, opening: &Opening) -> bool
        ensures { result ≡ (self.now.has_ended
            && is_other self.now.session (session_of opening.now)) }
    {
        self.has_ended && !(self.ssrc == opening.ssrc && self.header().is_same(&opening.header))
    }

    /// The outcome of a sequence header of the session's source that opens no session.
    pub(crate) fn header_outcome(&self, opening: Option<Opening>) -> Outcome
        ensures { (ssrc : ℕ) (body : List ℕ)
            → option_map session_of opening
            ≡ session_with ssrc (coded_whole_header_of high_quality_profile body)
            → result ≡ header_outcome self.now.session.sequence (coded_header body) }
    {
        match opening {
            Some(opening) => self.outcome_of(&opening.header),
            None => Outcome::HeaderBad,
        }
    }

    // The outcome of a header that was read.
    fn outcome_of(&self, header: &Header) -> Outcome
        ensures { (used : ℕ) → result
            ≡ header_outcome self.now.session.sequence (Ok (sequence_of header.now, used)) }
    {
        if self.header().is_same(header) {
            Outcome::HeaderSame
        } else {
            Outcome::HeaderOther
        }
    }

    /// Takes a fragment into the window, and makes the jobs of the slices that it brings. After
    /// `NoMemory` the pictures of the window may be lost.
    pub fn enter(&mut self, f: Fragment) -> Result<Entered, NoMemory>
        requires { self.old.window.is_ended ≡ false }
        ensures value { OnOk result (self.new ≡ record self.old {
          window = window_enters self.old.window (sent_fragment f);
        }) }
        ensures outcome { IfOk result (λ entered. entered.outcome
            ≡ windows.window_outcome self.old.window (sent_fragment f)) }
        ensures jobs { let w = self.old.window in IfOk result (λ entered.
            map job_of entered.jobs.items
            ≡ offered_jobs w (window_enters w (sent_fragment f)) (sent_fragment f)) }
        ensures running { OnOk result (self.new.window.is_ended ≡ false) }
    {
        let Some(number) = self.window.number_of(f.number) else {
            return Ok(Entered {
                outcome: Outcome::Late,
                jobs: Vec::new(self.alloc),
            });
        };
        let taken = self.window.keep(number, f.part)?;
        let jobs = jobs_of(self.alloc, number, taken.slices)?;
        Ok(Entered {
            outcome: taken.outcome,
            jobs,
        })
    }

    /// The session has its end.
    pub fn end(&mut self)
        ensures { self.new ≡ record self.old { has_ended = true } }
    {
        self.has_ended = true;
    }

    /// Closes all pictures.
    pub fn finish(&mut self)
        ensures { self.new ≡ is_over self.old }
    {
        self.window.finish();
    }

    /// The least picture that is opened and not released, if it may be released.
    pub fn next_release(&self) -> Option<Released>
        ensures { option_map releasable_of result ≡ windows.next_release self.now.window }
    {
        self.window.next_release()
    }

    /// Releases the picture that `next_release` names.
    pub fn release(&mut self, number: u64)
        requires { option_map (λ r. r.number) (windows.next_release self.old.window)
            ≡ Some number }
        ensures { self.new ≡ record self.old {
          window = windows.releases self.old.window number;
        } }
    {
        self.window.release(number);
    }

    /// The book of a picture that the window keeps.
    pub fn book(&self, number: u64) -> Option<&PictureBook>
        ensures value { option_copied result ≡ windows.book_at self.now.window.books number }
        ensures whole { IfSome result
            (λ book. IsWholeBook self.now.session.sequence book.now) }
    {
        self.window.book(number)
    }

    /// Whether a job is that of a slice which a picture that isn't released keeps. Takes no memory.
    pub fn is_own(&self, job: &SliceJob) -> bool
        ensures { result ≡ option_map_or (is_same_job (job_of job.now))
            (unreleased_job self.now job.now.number job.now.index) false }
    {
        if self.window.is_released(job.number) {
            return false;
        }
        match self.window.book(job.number) {
            Some(book) => has_job(book, job),
            None => false,
        }
    }

    /// The same of slice number `k` of a run.
    pub fn is_own_slice(&self, run: &RunJob, k: usize) -> bool
        requires { k < length run.now.slices.items }
        ensures { result ≡ option_map_or (is_same_job (job_in_run run.now k))
            (unreleased_job self.now run.now.number (run.now.first + k)) false }
    {
        if self.window.is_released(run.number) {
            return false;
        }
        match self.window.book(run.number) {
            Some(book) => has_slice_of(book, run, k),
            None => false,
        }
    }

    /// The same of all slices of a run.
    pub fn are_own(&self, run: &RunJob) -> bool
        ensures { result ≡ list_all (λ job. option_map_or (is_same_job job)
            (unreleased_job self.now job.number job.index) false) (jobs_of_run run.now) }
    {
        if self.window.is_released(run.number) {
            return false;
        }
        match self.window.book(run.number) {
            Some(book) => has_run(book, run),
            None => false,
        }
    }
}
