ghost use Rattle.std.specs.Prelude.{ℕ, ◌+◌, List, [], ◌∷◌, ◌++◌, Option, OnOk};
ghost use Rattle.link_hearing.specs.Inlets.{Brings};

use bytes::Bytes;
use link_report::Ending;

/// Where datagrams come from one after another.
pub trait Inlet {
    ghost use Rattle.link_report.specs.declared.ending.Ending.{Ending};

    /// It can be asked so many times.
    ghost is_ready: { Self → ℕ → Type 0 };

    /// These datagrams came, one after another.
    ghost came: { Self → Self → List (List ℕ) → Type 0 };

    /// These came, and then no more will come, or why none did.
    ghost stopped: { Self → Self → List (List ℕ) → Option Ending → Type 0 };

    /// Asks for a datagram, and answers None where no more will come.
    fn next(&mut self) -> Result<Option<Bytes>, Ending>
        requires ready { (more : ℕ) × is_ready self.old (more + 1) }
        ensures ready { (more : ℕ) → is_ready self.old (more + 1) → OnOk result (is_ready self.new more) }
        ensures brings { Brings (came self.old self.new) (stopped self.old self.new []) result };

    /// Is told whether the datagram that came last was of use.
    fn note(&mut self, was_of_use: bool)
        ensures ready { (more : ℕ) → is_ready self.old more → is_ready self.new more }
        ensures none { came self.old self.new [] };

    // Nothing came where it is as it was.
    ghost none: { (x : Self) → came x x [] };

    // Datagrams, and then more of them.
    ghost more: { (x y z : Self) (first second : List (List ℕ))
        → came x y first → came y z second → came x z (first ++ second) };

    // Datagrams, and then no more.
    ghost stops_then: { (x y z : Self) (first : List (List ℕ)) (end : Option Ending)
        → came x y first → stopped y z [] end → stopped x z first end };
}
