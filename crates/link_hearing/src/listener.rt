ghost use Rattle.std.specs.Prelude.{◌≡◌, ℕ, ◌≤◌, List, [], ◌∷◌, ◌++◌, length, IsTrue, IsFalse, OnOk, IfErr};
ghost use Rattle.link_hearing.specs.Hearing.{fault_ending, has_broken};

use bytes::Bytes;
use link_report::Ending;

/// Why a listener broke off.
#[derive(Clone, Copy)]
pub enum ListenerFault {
    NoMemory,
    /// A write to its output failed.
    Output,
}

impl From<ListenerFault> for Ending {
    ghost from_gives = { λ fault ending. ending ≡ fault_ending fault };

    fn from(fault: ListenerFault) -> Ending {
        match fault {
            ListenerFault::NoMemory => Ending::NoMemory,
            ListenerFault::Output => Ending::OutputFailed,
        }
    }
}

/// Whether this is how a listener broke off, so that it can hear nothing more.
pub fn has_broken(ending: &Ending) -> bool
    ensures { result ≡ has_broken ending.now }
{
    matches!(ending, Ending::NoMemory | Ending::OutputFailed)
}

/// What hears datagrams one after another.
pub trait Listener {
    ghost use Rattle.link_hearing.specs.declared.listener.ListenerFault.{ListenerFault};

    /// It can hear a datagram, where it wants one.
    ghost is_ready: { Self → Type 0 };

    /// It wants one more.
    ghost wants_one: { Self → Type 0 };

    /// It has heard enough.
    ghost has_enough: { Self → Type 0 };

    /// It heard these datagrams, one after another.
    ghost heard: { Self → Self → List (List ℕ) → Type 0 };

    /// It was given these, and then broke off so: it can hear nothing more.
    ghost broke: { Self → Self → List (List ℕ) → ListenerFault → Type 0 };

    /// Whether it wants a datagram more.
    fn wants_more(&self) -> bool
        ensures more { IsTrue result → wants_one self.now }
        ensures enough { IsFalse result → has_enough self.now };

    /// Takes a datagram, and answers whether it was of use: one that wasn't doesn't keep a wire from ending
    /// by silence.
    fn hear(&mut self, datagram: Bytes) -> Result<bool, ListenerFault>
        requires ready { is_ready self.old }
        requires wanted { wants_one self.old }
        ensures ready { OnOk result (is_ready self.new) }
        ensures heard { OnOk result (heard self.old self.new (datagram ∷ [])) }
        ensures broke { IfErr result (λ fault. broke self.old self.new (datagram ∷ []) fault) };

    // It heard nothing where it is as it was.
    ghost none: { (x : Self) → heard x x [] };

    // Datagrams, and then more of them.
    ghost more: { (x y z : Self) (first second : List (List ℕ))
        → heard x y first → heard y z second → heard x z (first ++ second) };

    // Datagrams, and then some at which it broke off.
    ghost breaks_then: { (x y z : Self) (first second : List (List ℕ)) (fault : ListenerFault)
        → heard x y first → broke y z second fault → broke x z (first ++ second) fault };

    // Datagrams, and then perhaps one for which there was no memory.
    ghost loses_last: { (x y : Self) (first lost : List (List ℕ)) → length lost ≤ 1
        → heard x y first → broke x y (first ++ lost) ListenerFault.NoMemory };
}
