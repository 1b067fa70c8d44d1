ghost use Rattle.std.specs.Prelude.{◌≡◌, OnOk};
ghost use Rattle.cmd_probe.specs.Stamps.{no_stamps, with_stamp};

use crate::steps::Steps;
use std::alloc::Global;
use vc_types::NoMemory;

/// The timestamps of pictures, each that of the first packet of the picture.
#[derive(Drop)]
pub(crate) struct Stamps {
    pub(crate) first: u32,
    pub(crate) last: u32,
    pub(crate) steps: Steps,
}

impl Stamps {
    /// Before any picture.
    pub(crate) fn new(alloc: Global) -> Stamps
        ensures { result ≡ no_stamps }
    {
        Stamps {
            first: 0,
            last: 0,
            steps: Steps::new(alloc),
        }
    }

    /// Takes the timestamp of the next picture.
    #[tactic(auto, unfolding(crate::specs::Stamps::with_stamp))]
    pub(crate) fn take(&mut self, is_first: bool, timestamp: u32) -> Result<(), NoMemory>
        ensures { OnOk result (self.new ≡ with_stamp self.old is_first timestamp) }
    {
        if is_first {
            self.first = timestamp;
        } else {
            self.steps.count(timestamp.wrapping_sub(self.last))?;
        }
        self.last = timestamp;
        Ok(())
    }
}
