ghost use Rattle.std.specs.Prelude.{◌≡◌, ℕ, ◌<◌, List, [], ◌∷◌, ◌++◌};
ghost use Rattle.link_model.specs.Judgement.{outcome_behind};
ghost use Rattle.cmd_receive.specs.Ends.{Counts, count_behind};

use link_model::Outcome;

/// Counts the sessions that are still to end, as their datagrams are judged one after another.
#[derive(Clone, Copy)]
pub struct SessionCount {
    /// So many are still to end.
    pub left: u32,
    // The last session that began has not had its end.
    is_open: bool,
}

impl SessionCount {
    /// So many are to end, and no datagram was heard.
    pub fn new(sessions: u32) -> SessionCount
        ensures { Counts result sessions [] }
    {
        SessionCount {
            left: sessions,
            is_open: false,
        }
    }

    /// Takes what became of one datagram more.
    pub fn judge(&mut self, outcome: Outcome)
        requires left { 0 < self.old.left }
        ensures { (sessions window : ℕ) (datagrams : List (List ℕ)) (datagram : List ℕ)
            → Counts self.old sessions datagrams
            → outcome ≡ outcome_behind window datagrams datagram
            → Counts self.new sessions (datagrams ++ datagram ∷ []) }
    {
        self.count(outcome);
    }

    fn count(&mut self, outcome: Outcome)
        requires left { 0 < self.old.left }
        ensures { self.new ≡ count_behind self.old outcome }
    {
        match outcome {
            Outcome::HeaderNew => self.is_open = true,
            Outcome::End if self.is_open => {
                self.left -= 1;
                self.is_open = false;
            }
            _ => {}
        }
    }
}
