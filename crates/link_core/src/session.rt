ghost use Rattle.std.specs.Prelude.{◌≡◌, ◌≤◌, ◌<◌, ◌+◌, ◌-◌, ◌^◌, nat_le, OnOk, IfOk, false};
ghost use Rattle.std.specs.Option.{option_copied, option_map};
ghost use Rattle.link_core.specs.Hearing.{opened_session, session_windows, session_hears};
ghost use Rattle.link_core.specs.Hearing.{opens_beside, greatest_among, sessions_hear};
ghost use Rattle.link_core.specs.Hearing.{AreHeard, session_among};
ghost use Rattle.link_model.specs.Session.{begins, is_other, sessions_of};
ghost use Rattle.machine_model.specs.Feeders.{not_released};
ghost use Rattle.link_model.specs.Windows.{WindowPast, StandsForPast, book_at, new_window};
ghost use Rattle.link_model.specs.Windows.{first_of, releasable_numbers};
ghost use Rattle.vc_types.specs.SequenceHeader.{sequence_of};

use crate::datagram::Opening;
use bytes::Bytes;
use link_window::{PictureBook, Window};
use std::alloc::Global;
use std::marker::Model;
use vc_types::{Header, NoMemory};

/// A session that was heard, and the window behind its fragments, from which nothing is released.
#[derive(Drop)]
pub(crate) struct OpenSession {
    opening: Opening,
    has_ended: bool,
    window: Window,
}

impl Model for OpenSession {
    ghost use Rattle.link_core.specs.Hearing.{SessionWindow, opened_session};

    ghost Value = { SessionWindow };

    ghost view = { λ s. record {
      session = opened_session s.opening;
      has_ended = s.has_ended;
      window = s.window;
    } };
}

impl OpenSession {
    fn new(alloc: Global, opening: Opening, size: u8, greatest: u64) -> OpenSession
        requires least { 2 ≤ size }
        requires most { size ≤ 8 }
        requires fits { greatest < 2 ^ 64 - 16 }
        ensures { let s = opened_session opening in result ≡ record {
          session = s;
          has_ended = false;
          window = new_window s.sequence size greatest;
        } }
    {
        OpenSession {
            opening,
            has_ended: false,
            window: Window::after(alloc, opening.header, size, greatest),
        }
    }

    fn hear(&mut self, alloc: Global, datagram: &[u8]) -> Result<(), NoMemory>
        requires { self.old.window.is_ended ≡ false }
        ensures { OnOk result (self.new ≡ session_hears self.old datagram.now) }
    {
        let fragment = self.opening.fragment_in(alloc, datagram)?;
        if self.opening.is_ended_by(datagram) {
            self.has_ended = true;
        }
        if let Some(fragment) = fragment {
            self.window.enter(fragment)?;
        }
        Ok(())
    }

    pub(crate) fn header(&self) -> &Header
        ensures { sequence_of result.now ≡ self.now.session.sequence }
    {
        &self.opening.header
    }

    /// The book of a picture that is opened in the session.
    pub(crate) fn book(&self, number: u64) -> Option<&PictureBook>
        ensures { option_copied result ≡ book_at self.now.window.books number }
    {
        self.window.book(number)
    }

    /// Whether the window has passed a number.
    pub(crate) fn has_passed(&self, size: u8, number: u64) -> bool
        ensures { result ≡ nat_le (number + size) self.now.window.top }
    {
        u128::from(number) + u128::from(size) <= u128::from(self.window.greatest())
    }

    /// The least picture that is let go and isn't among those that were released. All are let go
    /// where the session is over.
    pub(crate) fn next_release(self, is_over: bool, released: &[u64]) -> Option<u64>
        ensures { (p : WindowPast) → StandsForPast self.window p → p.is_ended ≡ false
            → result ≡ first_of (not_released released.now
            (releasable_numbers (record p { is_ended = is_over }))) }
    {
        let mut window = self.window;
        if is_over {
            window.finish();
        }
        next_release(window, released)
    }

    // Whether a header is another session's, or another sequence's.
    fn is_other(&self, opening: &Opening) -> bool
        ensures { result ≡ is_other self.now.session (opened_session opening.now) }
    {
        !(self.opening.ssrc == opening.ssrc && self.opening.header.is_same(&opening.header))
    }
}

// The least picture that the window lets go and that isn't among those that were released.
fn next_release(mut window: Window, released: &[u64]) -> Option<u64>
    ensures { (p : WindowPast) → StandsForPast window p
        → result ≡ first_of (not_released released.now (releasable_numbers p)) }
{
    while let Some(next) = window.next_release() {
        if !released.contains(&next.number) {
            return Some(next.number);
        }
        window.release(next.number);
    }
    None
}

// The session that a datagram opens behind these: the first one any, a later one where the last has
// ended and it is another.
fn opened(sessions: &[OpenSession], datagram: &[u8]) -> Option<Opening>
    ensures { option_map opened_session result ≡ opens_beside sessions.now (begins datagram.now) }
{
    let opening = Opening::read(datagram)?;
    match sessions.first() {
        None => Some(opening),
        Some(last) if last.has_ended && last.is_other(&opening) => Some(opening),
        Some(_) => None,
    }
}

// The greatest number of their pictures.
fn greatest(sessions: &[OpenSession]) -> u64
    ensures { result ≡ greatest_among sessions.now }
{
    match sessions.first() {
        None => 0,
        Some(last) => last.window.greatest(),
    }
}

// A datagram more: it opens the next session, or belongs to the last.
fn hear(
    alloc: Global,
    size: u8,
    sessions: &mut Vec<OpenSession>,
    datagram: &[u8],
) -> Result<(), NoMemory>
    requires least { 2 ≤ size }
    requires most { size ≤ 8 }
    requires heard { AreHeard size sessions.old.items }
    ensures { OnOk result (sessions.new.items
        ≡ sessions_hear size sessions.old.items datagram.now) }
{
    if let Some(opening) = opened(sessions, datagram) {
        let greatest = greatest(sessions);
        sessions.insert(0, OpenSession::new(alloc, opening, size, greatest))?;
        return Ok(());
    }
    match sessions.first_mut() {
        Some(last) => last.hear(alloc, datagram),
        None => Ok(()),
    }
}

/// The sessions of datagrams, the last one first.
pub(crate) fn heard_sessions(
    alloc: Global,
    size: u8,
    datagrams: &[Bytes],
) -> Result<Vec<OpenSession>, NoMemory>
    requires least { 2 ≤ size }
    requires most { size ≤ 8 }
    ensures { IfOk result (λ sessions. sessions.items
        ≡ session_windows size (sessions_of datagrams.now)) }
{
    let mut sessions = Vec::new(alloc);
    for datagram in datagrams {
        hear(alloc, size, &mut sessions, datagram.as_slice())?;
    }
    Ok(sessions)
}

/// The session in which a picture is opened.
pub(crate) fn session_of_picture(sessions: &[OpenSession], number: u64) -> Option<&OpenSession>
    ensures { option_copied result ≡ session_among sessions.now number }
{
    for session in sessions {
        if session.book(number).is_some() {
            return Some(session);
        }
    }
    None
}
