ghost use Rattle.std.specs.Prelude.{◌≡◌, ◌<◌, ℕ, List, [], ◌∷◌, ◌++◌};
ghost use Rattle.cmd_record.specs.Signs.{session_of};
ghost use Rattle.cmd_record.specs.Watching.{Watches, may_follow, is_open, watch_behind};

use crate::sign::{Opening, Sign, sign_of};

/// Follows the sessions of the datagrams that come, and counts those that are still to end.
#[derive(Clone, Copy)]
pub(crate) struct SessionWatch {
    /// So many are still to end.
    pub(crate) left: u32,
    // What began the last session, and whether that has had its end.
    last: Option<Opening>,
    has_ended: bool,
}

impl SessionWatch {
    /// So many are to end, and no datagram has come.
    pub(crate) fn new(sessions: u32) -> SessionWatch
        ensures none { Watches result sessions [] }
        ensures left { result.left ≡ sessions }
    {
        SessionWatch {
            left: sessions,
            last: None,
            has_ended: false,
        }
    }

    /// Takes a datagram more.
    pub(crate) fn take(&mut self, datagram: &[u8])
        requires left { 0 < self.old.left }
        ensures { (sessions : ℕ) (datagrams : List (List ℕ)) → Watches self.old sessions datagrams
            → Watches self.new sessions (datagrams ++ datagram.now ∷ []) }
    {
        let sign = sign_of(datagram);
        self.follow(sign);
    }

    fn follow(&mut self, sign: Sign)
        requires left { 0 < self.old.left }
        ensures { self.new ≡ watch_behind self.old sign }
    {
        match sign {
            Sign::Begins(opening) => {
                if self.is_followed_by(&opening) {
                    self.last = Some(opening);
                    self.has_ended = false;
                }
            }
            Sign::Ends { ssrc } => {
                if self.is_open(ssrc) {
                    self.left -= 1;
                    self.has_ended = true;
                }
            }
            Sign::Nothing => {}
        }
    }

    // Whether a sequence header begins the next session, or the first one.
    fn is_followed_by(&self, opening: &Opening) -> bool
        ensures { result ≡ may_follow self.now.last self.now.has_ended (session_of opening.now) }
    {
        match &self.last {
            Some(last) => {
                self.has_ended
                    && !(last.ssrc == opening.ssrc && last.header.is_same(&opening.header))
            }
            None => true,
        }
    }

    // Whether an end of this source ends the last session.
    fn is_open(&self, ssrc: u32) -> bool
        ensures { result ≡ is_open self.now.last self.now.has_ended ssrc }
    {
        match &self.last {
            Some(last) => ssrc == last.ssrc && !self.has_ended,
            None => false,
        }
    }
}
