ghost use Rattle.std.specs.Prelude.{◌≡◌, ◌≤◌, ℕ, [], IfOk, OnOk, OnErr, Some};
ghost use Rattle.std.specs.Option.{option_map, option_map_or};
ghost use Rattle.link_core.specs.Hearing.{session_windows};
ghost use Rattle.machine_model.specs.Feeders.{new_feeder, is_decoded, has_released, is_closed_now};
ghost use Rattle.machine_model.specs.Feeders.{next_to_release, slice_job};
ghost use Rattle.machine_model.specs.Feeding.{hears_datagram, hears_end, has_job, takes_answer};
ghost use Rattle.machine_model.specs.Feeding.{with_answer, built_bytes, releases_picture, session_now};
ghost use Rattle.machine_model.specs.Interleavings.{AreOwnAnswers};
ghost use Rattle.machine_model.specs.Machine.{has_answers};
ghost use Rattle.machine_model.specs.Places.{Job, own_answer};
ghost use Rattle.link_model.specs.Session.{sessions_of};
ghost use Rattle.link_slices.specs.Jobs.{job_of, answered};

use crate::answers::{KeptAnswer, answer_in, is_ready};
use crate::frames::frame_bytes;
use crate::pictures::{book_of_picture, is_closed_in, kept_job, next_in};
use crate::session::{OpenSession, heard_sessions, session_of_picture};
use bytes::Bytes;
use link_slices::same_job;
use std::alloc::Global;
use std::marker::Model;
use vc_slice::{SliceDone, SliceJob, decode};
use vc_types::NoMemory;

/// What the feeder has: the datagrams that it heard, the answers that it got, the last one first,
/// the pictures that it released, and the bytes that it wrote.
#[derive(Drop)]
pub(crate) struct FeederPart {
    heard: Vec<Bytes>,
    has_ended: bool,
    decoded: Vec<KeptAnswer>,
    released: Vec<u64>,
    written: Vec<u8>,
}

impl Model for FeederPart {
    ghost use Rattle.machine_model.specs.Feeders.{Feeder};

    ghost Value = { Feeder };

    ghost view = { λ f. record {
      heard = f.heard.items;
      has_ended = f.has_ended;
      decoded = f.decoded.items;
      released = f.released.items;
      written = f.written.items;
    } };
}

impl FeederPart {
    pub(crate) fn new(alloc: Global) -> FeederPart
        ensures { result ≡ new_feeder }
    {
        FeederPart {
            heard: Vec::new(alloc),
            has_ended: false,
            decoded: Vec::new(alloc),
            released: Vec::new(alloc),
            written: Vec::new(alloc),
        }
    }

    pub(crate) fn written(&self) -> &[u8]
        ensures { result.now ≡ self.now.written }
    {
        &self.written
    }

    pub(crate) fn has_ended(&self) -> bool
        ensures { result ≡ self.now.has_ended }
    {
        self.has_ended
    }

    pub(crate) fn hear(&mut self, datagram: Bytes) -> Result<(), NoMemory>
        ensures heard { OnOk result (self.new ≡ hears_datagram self.old datagram) }
        ensures unchanged { OnErr result (self.new ≡ self.old) }
    {
        self.heard.push(datagram)?;
        Ok(())
    }

    pub(crate) fn end(&mut self)
        ensures { self.new ≡ hears_end self.old }
    {
        self.has_ended = true;
    }

    /// Whether there is an answer to the slice.
    pub(crate) fn is_decoded(&self, number: u64, index: u32) -> bool
        ensures { result ≡ is_decoded self.now number index }
    {
        answer_in(&self.decoded, number, index).is_some()
    }

    pub(crate) fn has_released(&self, number: u64) -> bool
        ensures { result ≡ has_released self.now number }
    {
        self.released.contains(&number)
    }

    // The sessions of what was heard, the last one first.
    fn sessions(&self, alloc: Global, window: u8) -> Result<Vec<OpenSession>, NoMemory>
        requires least { 2 ≤ window }
        requires most { window ≤ 8 }
        ensures { IfOk result (λ sessions. sessions.items
            ≡ session_windows window (sessions_of self.now.heard)) }
    {
        heard_sessions(alloc, window, &self.heard)
    }

    /// The job of a slice that was heard and is kept.
    pub(crate) fn slice_job(
        &self,
        alloc: Global,
        window: u8,
        number: u64,
        index: u32,
    ) -> Result<Option<SliceJob>, NoMemory>
        requires least { 2 ≤ window }
        requires most { window ≤ 8 }
        ensures { IfOk result (λ job. option_map job_of job
            ≡ slice_job window self.now number index) }
    {
        let sessions = self.sessions(alloc, window)?;
        kept_job(&sessions, number, index)
    }

    /// Whether a picture of which a slice is kept is closed.
    pub(crate) fn is_closed(&self, alloc: Global, window: u8, number: u64) -> Result<bool, NoMemory>
        requires least { 2 ≤ window }
        requires most { window ≤ 8 }
        ensures { (index : ℕ) (job : Job) → slice_job window self.now number index ≡ Some job
            → IfOk result (λ closed. closed ≡ is_closed_now window self.now number) }
    {
        if self.has_ended {
            return Ok(true);
        }
        let sessions = self.sessions(alloc, window)?;
        Ok(is_closed_in(&sessions, window, number))
    }

    /// The least picture that is let go and isn't released.
    pub(crate) fn next_to_release(&self, alloc: Global, window: u8) -> Result<Option<u64>, NoMemory>
        requires least { 2 ≤ window }
        requires most { window ≤ 8 }
        ensures { IfOk result (λ next. next ≡ next_to_release window self.now) }
    {
        let sessions = self.sessions(alloc, window)?;
        Ok(next_in(sessions, self.has_ended, &self.released))
    }

    /// Whether each slice of a picture has an answer, if the picture is complete.
    pub(crate) fn has_answers(
        &self,
        alloc: Global,
        window: u8,
        number: u64,
    ) -> Result<bool, NoMemory>
        requires least { 2 ≤ window }
        requires most { window ≤ 8 }
        ensures { IfOk result (λ all. all ≡ has_answers window self.now number) }
    {
        let sessions = self.sessions(alloc, window)?;
        match book_of_picture(&sessions, number) {
            Some(book) => Ok(is_ready(&self.decoded, number, book)),
            None => Ok(true),
        }
    }

    /// Decodes a slice that is kept.
    pub(crate) fn redo(&mut self, alloc: Global, job: SliceJob) -> Result<(), NoMemory>
        ensures redone { OnOk result (self.new ≡ with_answer self.old (own_answer (job_of job))) }
        ensures unchanged { OnErr result (self.new ≡ self.old) }
    {
        let done = decode(alloc, job)?;
        self.decoded.insert(0, KeptAnswer::of(done))?;
        Ok(())
    }

    // Whether a picture isn't released, has the job's plan and keeps the job's bytes.
    fn has_job(&self, alloc: Global, window: u8, job: &SliceJob) -> Result<bool, NoMemory>
        requires least { 2 ≤ window }
        requires most { window ≤ 8 }
        ensures { IfOk result (λ has. has ≡ has_job window self.now (job_of job.now)) }
    {
        if self.has_released(job.number) {
            return Ok(false);
        }
        match self.slice_job(alloc, window, job.number, job.index)? {
            Some(kept) => Ok(same_job(job, &kept)),
            None => Ok(false),
        }
    }

    /// Takes what was decoded as the answer to its slice, if the slice has none, and if its picture
    /// isn't released and has this very job.
    pub(crate) fn accept(
        &mut self,
        alloc: Global,
        window: u8,
        done: &SliceDone,
    ) -> Result<(), NoMemory>
        requires least { 2 ≤ window }
        requires most { window ≤ 8 }
        ensures taken { OnOk result (self.new ≡ takes_answer window self.old (answered done.now)) }
        ensures unchanged { OnErr result (self.new ≡ self.old) }
    {
        if !self.has_job(alloc, window, &done.job)? {
            return Ok(());
        }
        if self.is_decoded(done.job.number, done.job.index) {
            return Ok(());
        }
        let answer = KeptAnswer::copy_of(alloc, done)?;
        self.decoded.insert(0, answer)?;
        Ok(())
    }

    // What is written when a picture is released.
    fn frame_bytes(&self, alloc: Global, window: u8, number: u64) -> Result<Vec<u8>, NoMemory>
        requires least { 2 ≤ window }
        requires most { window ≤ 8 }
        requires own { AreOwnAnswers window (sessions_of self.now.heard) self.now.decoded }
        ensures { IfOk result (λ bytes. bytes.items
            ≡ option_map_or (built_bytes self.now.decoded number)
            (session_now window self.now number) []) }
    {
        let sessions = self.sessions(alloc, window)?;
        match session_of_picture(&sessions, number) {
            Some(session) => frame_bytes(alloc, &self.decoded, session, number),
            None => Ok(Vec::new(alloc)),
        }
    }

    /// Releases a picture: where it is the last one of a frame, the frame is written.
    pub(crate) fn release(&mut self, alloc: Global, window: u8, number: u64) -> Result<(), NoMemory>
        requires least { 2 ≤ window }
        requires most { window ≤ 8 }
        requires own { AreOwnAnswers window (sessions_of self.old.heard) self.old.decoded }
        ensures released { OnOk result (self.new ≡ releases_picture window self.old number) }
        ensures unchanged { OnErr result (self.new ≡ self.old) }
    {
        let frame = self.frame_bytes(alloc, window, number)?;
        self.released.reserve(1)?;
        self.written.extend_from_slice(&frame)?;
        match self.released.push(number) {
            Ok(()) => Ok(()),
            Err(_) => unreachable!(),
        }
    }
}
