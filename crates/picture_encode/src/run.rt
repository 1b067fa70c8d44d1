ghost use Rattle.std.specs.Prelude.{◌≡◌, ◌<◌, ◌≤◌, [], ◌∷◌, ◌++◌, IfOk, OnOk, OnErr, length, slice_index_or};
ghost use Rattle.picture_encode.specs.IndexedSlices.{indexed_slice, start_in_run};
ghost use Rattle.picture_encode.specs.Encoded.{bytes_of_slices};

use crate::slices::EncodedSlice;
use std::alloc::Global;
use std::marker::Model;
use vc_types::NoMemory;

/// Where a slice ends among the bytes of a run, and the quantisation index that it has.
#[derive(Clone, Copy)]
pub(crate) struct SliceEnd {
    pub(crate) index: u8,
    pub(crate) end: usize,
}

/// Encoded slices that follow one another in a picture, their bytes one behind another. Contracts see the
/// list of the slices.
#[derive(Drop)]
pub struct EncodedRun {
    bytes: Vec<u8>,
    ends: Vec<SliceEnd>,
}

impl Model for EncodedRun {
    ghost use Rattle.std.specs.Prelude.{List, length};
    ghost use Rattle.picture_encode.specs.IndexedSlices.{AreEnds, IndexedSlice, run_slices_from};

    ghost Value = { List IndexedSlice };

    ghost view = { λ run. run_slices_from 0 run.ends.items run.bytes.items };

    ghost invariant = { λ run. AreEnds 0 run.ends.items (length run.bytes.items) };
}

impl EncodedRun {
    /// No slice yet, and room to know so many.
    pub(crate) fn with_room(alloc: Global, count: usize) -> Result<EncodedRun, NoMemory>
        ensures { IfOk result (λ run. run ≡ []) }
    {
        let ends = Vec::with_capacity(alloc, count)?;
        Ok(EncodedRun {
            bytes: Vec::new(alloc),
            ends,
        })
    }

    /// Adds a slice at the end.
    pub(crate) fn push(&mut self, slice: &EncodedSlice) -> Result<(), NoMemory>
        ensures ok { OnOk result (self.new ≡ self.old ++ indexed_slice slice.now ∷ []) }
        ensures err { OnErr result (self.new ≡ self.old) }
    {
        let before = self.bytes.len();
        self.bytes.extend_from_slice(&slice.bytes)?;
        let end = SliceEnd {
            index: slice.index,
            end: self.bytes.len(),
        };
        match self.ends.push(end) {
            Ok(()) => Ok(()),
            Err(_) => {
                self.bytes.truncate(before);
                Err(NoMemory)
            }
        }
    }

    /// How many slices there are.
    pub fn count(&self) -> usize
        ensures { result ≡ length self.now }
    {
        self.ends.len()
    }

    /// The bytes of one of the slices, by its number in the run.
    pub fn slice(&self, number: usize) -> &[u8]
        requires { number < length self.now }
        ensures { result.now ≡ slice_index_or (bytes_of_slices self.now) number [] }
    {
        let start = start_of(&self.ends, number);
        let end = self.ends[number].end;
        &self.bytes[start..end]
    }
}

// Where the slice with a number begins among the bytes of a run.
fn start_of(ends: &[SliceEnd], number: usize) -> usize
    requires { number ≤ length ends.now }
    ensures { result ≡ start_in_run 0 ends.now number }
{
    if number == 0 { 0 } else { ends[number - 1].end }
}
