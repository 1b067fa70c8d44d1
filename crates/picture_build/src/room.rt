ghost use Rattle.std.specs.Prelude.{◌≡◌, IfOk, OnOk, length};

use std::alloc::Global;
use std::mem::replace;
use vc_types::{NoMemory, Plane};

/// Memory to make the planes of a component in, one after another. A list that hasn't the length that a plane
/// needs is replaced.
#[derive(Drop)]
pub struct Room {
    pub(crate) cells: Vec<i32>,
    // Of a plane that is done with.
    samples: Vec<u16>,
}

impl Room {
    /// No memory yet.
    pub fn new(alloc: Global) -> Room {
        Room {
            cells: Vec::new(alloc),
            samples: Vec::new(alloc),
        }
    }

    /// The memory of a plane that is done with serves the next one.
    pub fn keep(&mut self, plane: Plane) {
        self.samples = plane.into_samples();
    }

    /// Has so many cells to work in.
    pub(crate) fn fit(&mut self, alloc: Global, len: usize) -> Result<(), NoMemory>
        ensures { OnOk result (length self.new.cells.items ≡ len) }
    {
        if self.cells.len() != len {
            self.cells = vec![in alloc; 0i32; len]?;
        }
        Ok(())
    }

    /// So many samples, which are anything.
    pub(crate) fn take_samples(&mut self, alloc: Global, len: usize) -> Result<Vec<u16>, NoMemory>
        ensures samples { IfOk result (λ samples. length samples.items ≡ len) }
        ensures cells { self.new.cells ≡ self.old.cells }
    {
        let samples = replace(&mut self.samples, Vec::new(alloc));
        if samples.len() == len {
            return Ok(samples);
        }
        Ok(vec![in alloc; 0u16; len]?)
    }
}
