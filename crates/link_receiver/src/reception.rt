ghost use Rattle.std.specs.Prelude.{◌≡◌, ◌≤◌, IfOk, OnOk, map, None, is_none};
ghost use Rattle.std.specs.Option.{option_map};
ghost use Rattle.receiver_model.specs.Entering.{datagram_jobs, gives_up_field, opens_session};
ghost use Rattle.receiver_model.specs.Judging.{judged, keeps_datagram, session_opened, ends_input};
ghost use Rattle.receiver_model.specs.Receptions.{new_reception};
ghost use Rattle.link_receiver.specs.States.{IsRunning};
ghost use Rattle.link_window.specs.Openings.{session_of};
ghost use Rattle.link_slices.specs.Jobs.{job_of};

use crate::counting::{with_outcome, with_unpaired};
use crate::keeping::{close, greatest, keep_heard};
use crate::kept::Kept;
use bytes::Bytes;
use link_model::Tally;
use link_pictures::{Answers, FrameOutput};
use link_slices::RunsOut;
use link_window::{Opening, Standing, hear};
use run_counts::MissingFrames;
use std::alloc::Global;
use std::marker::Model;
use vc_types::NoMemory;

/// What a receiver has of the datagrams that it took. After a fault nothing is promised of it.
#[derive(Drop)]
pub(crate) struct Reception<H> {
    pub(crate) alloc: Global,
    pub(crate) size: u8,
    pub(crate) standing: Option<Standing>,
    pub(crate) counts: Tally,
    pub(crate) answers: Answers<H>,
    pub(crate) out: RunsOut,
    // Memory of strips that came back, for other runs.
    pub(crate) rooms: Vec<Vec<i32>>,
    pub(crate) field: FrameOutput,
    pub(crate) has_ended: bool,
    // Which frames weren't written. No clause speaks of it.
    pub(crate) missing: MissingFrames,
}

impl<H> Model for Reception<H> {
    ghost use Rattle.receiver_model.specs.Receptions as receptions;

    ghost Value = { receptions.Reception };

    ghost view = { λ r. record {
      size = r.size;
      standing = r.standing;
      counts = r.counts;
      answers = r.answers;
      out = r.out;
      field = r.field;
      has_ended = r.has_ended;
    } };
}

impl<H> Reception<H> {
    pub(crate) fn new(alloc: Global, threads: Option<H>, size: u8) -> Reception<H>
        ensures { result ≡ new_reception size }
    {
        Reception {
            alloc,
            size,
            standing: None,
            counts: Tally::default(),
            answers: Answers::new(alloc, threads),
            out: RunsOut::new(alloc),
            rooms: Vec::new(alloc),
            field: FrameOutput::new(alloc),
            has_ended: false,
            missing: MissingFrames::new(),
        }
    }

    pub(crate) fn has_ended(&self) -> bool
        ensures { result ≡ self.now.has_ended }
    {
        self.has_ended
    }

    /// Whether no session has opened.
    pub(crate) fn is_idle(&self) -> bool
        ensures { result ≡ is_none self.now.standing }
    {
        self.standing.is_none()
    }

    pub(crate) fn counts(&self) -> &Tally
        ensures { result.now ≡ self.now.counts }
    {
        &self.counts
    }

    pub(crate) fn missing(&self) -> &MissingFrames {
        &self.missing
    }

    /// Keeps what a datagram brings, and counts it.
    #[tactic(auto, unfolding(receiver_model::specs::Judging::keeps_datagram, receiver_model::specs::Judging::judged, receiver_model::specs::Entering::datagram_jobs))]
    pub(crate) fn keep(&mut self, datagram: &Bytes) -> Result<Kept, NoMemory>
        requires { IsRunning self.old.standing }
        ensures value { OnOk result (self.new ≡ keeps_datagram self.old datagram.now) }
        ensures outcome { IfOk result (λ kept. kept.outcome ≡ judged self.old datagram.now) }
        ensures jobs { IfOk result (λ kept. map job_of kept.jobs.items
            ≡ datagram_jobs self.old datagram.now) }
        ensures opening { IfOk result (λ kept. option_map session_of kept.opening
            ≡ session_opened self.old datagram.now) }
        ensures running { IfOk result (λ kept. kept.opening ≡ None
            → IsRunning self.new.standing) }
        ensures out { self.new.out ≡ self.old.out }
    {
        let heard = hear(self.standing.as_ref(), datagram)?;
        let kept = keep_heard(self.alloc, &mut self.standing, heard)?;
        self.counts = with_outcome(&self.counts, kept.outcome)?;
        Ok(kept)
    }

    /// The input ends, which closes all pictures.
    pub(crate) fn end_input(&mut self)
        ensures { self.new ≡ ends_input self.old }
    {
        close(&mut self.standing);
        self.has_ended = true;
    }

    /// A first field that waits is alone.
    pub(crate) fn give_up_field(&mut self) -> Result<(), NoMemory>
        ensures value { OnOk result (self.new ≡ gives_up_field self.old) }
        ensures out { self.new.out ≡ self.old.out }
    {
        let has_waited = self.field.give_up();
        self.counts = with_unpaired(&self.counts, has_waited)?;
        Ok(())
    }

    /// Opens a session, if one is given.
    pub(crate) fn open(&mut self, opening: Option<Opening>) -> Result<(), NoMemory>
        requires least { 2 ≤ self.old.size }
        requires most { self.old.size ≤ 8 }
        ensures value { OnOk result (self.new
            ≡ opens_session (option_map session_of opening) self.old) }
        ensures out { self.new.out ≡ self.old.out }
    {
        match opening {
            Some(opening) => self.open_session(opening),
            None => Ok(()),
        }
    }

    fn open_session(&mut self, opening: Opening) -> Result<(), NoMemory>
        requires least { 2 ≤ self.old.size }
        requires most { self.old.size ≤ 8 }
        ensures value { OnOk result (self.new
            ≡ opens_session (Some (session_of opening)) self.old) }
        ensures out { self.new.out ≡ self.old.out }
    {
        self.give_up_field()?;
        let greatest = greatest(&self.standing);
        self.standing = Some(Standing::new(self.alloc, opening, self.size, greatest));
        self.missing.open_session();
        Ok(())
    }
}
