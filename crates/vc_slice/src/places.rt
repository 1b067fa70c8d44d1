ghost use Rattle.std.specs.Prelude.{◌≡◌, ℕ, ◌<◌, IfOk, IfErr, OnErr};
ghost use Rattle.std.specs.declared.option.Option.{Option};
ghost use Rattle.vc_slice.specs.Asked.{Told, Grows, offering, taking, withdrawing, leaving, starting};

use crate::run::{RunDone, RunLoad};
use vc_types::NoMemory;

/// Places where runs of slices wait until they are decoded, numbered from 0. No call waits.
pub trait Places {
    /// Each place is below it.
    ghost bound: { Self → ℕ };

    /// What was asked and answered up to now, where that is told.
    ghost told: { Self → Option Told };

    /// Offers a run to be decoded. It has a place then, or is handed back.
    fn put(&mut self, load: RunLoad) -> Result<u32, RunLoad>
        ensures told { Grows (told self.old) (told self.new) (offering load.job result) }
        ensures bound { bound self.new ≡ bound self.old }
        ensures place { IfOk result (λ place. place < bound self.old) }
        ensures back { IfErr result (λ back. back.job ≡ load.job) };

    /// The decoded run of a place, if it is decoded by now. The place is free then.
    fn take(&mut self, place: u32) -> Option<RunDone>
        requires place { place < bound self.old }
        ensures told { Grows (told self.old) (told self.new) (taking place result) }
        ensures bound { bound self.new ≡ bound self.old };

    /// Takes a run back that nobody decodes yet. The place is free then.
    fn withdraw(&mut self, place: u32) -> Option<RunLoad>
        requires place { place < bound self.old }
        ensures told { Grows (told self.old) (told self.new) (withdrawing place result) }
        ensures bound { bound self.new ≡ bound self.old };

    /// Frees a place, whose run isn't wanted any more.
    fn leave(&mut self, place: u32)
        requires place { place < bound self.old }
        ensures told { Grows (told self.old) (told self.new) (leaving place) }
        ensures bound { bound self.new ≡ bound self.old };
}

/// Places, and workers that decode what is put there.
pub trait Hands: Places {
    /// No workers were started.
    ghost is_free: { Self → Type 0 };

    /// Starts `workers` workers. After NoMemory none runs.
    fn start_workers(&mut self, workers: u32) -> Result<(), NoMemory>
        requires free { is_free self.old }
        ensures told { Grows (Self.told self.old) (Self.told self.new) (starting workers result) }
        ensures unchanged { OnErr result (is_free self.new
            × (Self.bound self.new ≡ Self.bound self.old)
            × (Self.told self.new ≡ Self.told self.old)) };
}
