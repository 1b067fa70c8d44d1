ghost use Rattle.std.specs.Prelude.{◌≡◌, ◌++◌, ◌∷◌, [], OnOk, OnErr, IfErr};

use std::alloc::Global;
use std::marker::Model;
use vc_slice::Strip;

/// A run of a picture whose strip isn't in its places yet: its first slice, and how many it has.
#[derive(Drop)]
pub(crate) struct WaitingRun {
    pub(crate) first: u32,
    pub(crate) count: u32,
    pub(crate) strip: Strip,
}

/// The runs of a picture that wait, in the order in which they came. It keeps the memory of strips that
/// wait no longer.
#[derive(Drop)]
pub(crate) struct WaitingRuns {
    runs: Vec<WaitingRun>,
    // Runs that are in their places.
    spent: Vec<WaitingRun>,
}

impl Model for WaitingRuns {
    ghost use Rattle.std.specs.Prelude.{List};
    ghost use Rattle.picture_build.specs.declared.waiting.WaitingRun.{WaitingRun};

    ghost Value = { List WaitingRun };

    ghost view = { λ s. s.runs.items };
}

impl WaitingRuns {
    /// No run waits.
    pub(crate) fn new(alloc: Global) -> WaitingRuns
        ensures { result ≡ [] }
    {
        WaitingRuns {
            runs: Vec::new(alloc),
            spent: Vec::new(alloc),
        }
    }

    pub(crate) fn runs(&self) -> &[WaitingRun]
        ensures { result.now ≡ self.now }
    {
        &self.runs
    }

    /// A run more waits, or it comes back where memory runs out.
    pub(crate) fn push(&mut self, run: WaitingRun) -> Result<(), WaitingRun>
        ensures waits { OnOk result (self.new ≡ self.old ++ run ∷ []) }
        ensures back { IfErr result (λ back. back ≡ run) }
        ensures unchanged { OnErr result (self.new ≡ self.old) }
    {
        match self.runs.push(run) {
            Ok(()) => Ok(()),
            Err(refused) => Err(refused.value),
        }
    }

    /// No run waits any longer. Where there is no memory to keep theirs, it is let go.
    pub(crate) fn clear(&mut self)
        ensures { self.new ≡ [] }
    {
        let _ = self.spent.append(&mut self.runs);
        self.runs.clear();
    }

    /// The memory of a strip that waits no longer, if there is one.
    pub(crate) fn spare_room(&mut self) -> Option<Vec<i32>>
        ensures unchanged { self.new ≡ self.old }
    {
        let run = self.spent.pop()?;
        Some(run.strip.into_room())
    }
}
