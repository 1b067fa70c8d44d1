ghost use Rattle.std.specs.Prelude.{◌≡◌, ℕ, ◌<◌, ◌≤◌, ◌^◌, List, [], ◌∷◌, ◌++◌, length, IfOk};

use crate::piece::Piece;
use vc_types::NoMemory;

/// What has something to write for datagrams that come one after another, and at their end. Its facts speak
/// of what it was at first, before any datagram, and of what it is now.
pub trait Scribe {
    ghost use Rattle.link_model.specs.Output.{IsPrefixOf};
    ghost use Rattle.cmd_rtcp.specs.Due.{Due};
    ghost use Rattle.cmd_rtcp.specs.Pieces.{EntryFits, piece_bytes};

    /// It has heard these datagrams.
    ghost has_heard: { Self → Self → List (List ℕ) → Type 0 };

    /// It has heard these datagrams, and that they are all.
    ghost has_ended: { Self → Self → List (List ℕ) → Type 0 };

    /// What one that was so at first is to write.
    ghost due: { Self → Due };

    /// Hears the next datagram, of at most 2^32, and says what to write behind it.
    fn take(&mut self, datagram: &[u8]) -> Result<Piece, NoMemory>
        requires few { (first : Self) × (heard : List (List ℕ))
            × has_heard first self.old heard × (length heard < 2 ^ 32) }
        ensures fits { IfOk result EntryFits }
        ensures takes { IfOk result (λ piece. (first : Self) (heard : List (List ℕ))
            → has_heard first self.old heard → has_heard first self.new (heard ++ datagram.now ∷ [])
            × ((due first).so_far (heard ++ datagram.now ∷ [])
            ≡ (due first).so_far heard ++ piece_bytes piece)) };

    /// Hears that no more come, and says what to write at the end.
    fn end(&mut self) -> Result<Piece, NoMemory>
        requires few { (first : Self) × (heard : List (List ℕ))
            × has_heard first self.old heard × (length heard ≤ 2 ^ 32) }
        ensures fits { IfOk result EntryFits }
        ensures ends { IfOk result (λ piece. (first : Self) (heard : List (List ℕ))
            → has_heard first self.old heard → has_ended first self.new heard
            × ((due first).in_all heard ≡ (due first).so_far heard ++ piece_bytes piece)) };

    // Nothing is due of no datagrams.
    ghost none: { (first : Self) → (due first).so_far [] ≡ [] };

    // What is due of datagrams is due of one more.
    ghost more: { (first : Self) (heard : List (List ℕ)) (datagram : List ℕ)
        → IsPrefixOf ((due first).so_far heard) ((due first).so_far (heard ++ datagram ∷ [])) };

    // It is due of them all.
    ghost all: { (first : Self) (heard : List (List ℕ))
        → IsPrefixOf ((due first).so_far heard) ((due first).in_all heard) };
}
