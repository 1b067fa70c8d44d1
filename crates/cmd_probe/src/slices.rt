ghost use Rattle.std.specs.Prelude.{◌≡◌};
ghost use Rattle.cmd_probe.specs.Indices.{indices_with, no_indices, with_index};

use vc_slice::coded_slice;

/// The least and the greatest quantisation index of slices; the least is above the greatest where none came.
#[derive(Clone, Copy)]
pub(crate) struct Indices {
    pub(crate) least: u8,
    pub(crate) most: u8,
}

impl Indices {
    /// Before any slice.
    pub(crate) fn new() -> Indices
        ensures { result ≡ no_indices }
    {
        Indices {
            least: 255,
            most: 0,
        }
    }

    // Takes one index more.
    fn take(&mut self, index: u8)
        ensures { self.new ≡ with_index self.old index }
    {
        self.least = self.least.min(index);
        self.most = self.most.max(index);
    }

    /// Takes those of so many slices, as far as the bytes hold them.
    pub(crate) fn take_slices(&mut self, prefix: u16, scaler: u16, count: u16, bytes: &[u8])
        ensures { self.new ≡ indices_with prefix scaler count bytes.now self.old }
    {
        let mut rest = bytes;
        for _slice in 0..count {
            match coded_slice(u32::from(prefix), u32::from(scaler), rest) {
                Some((slice, behind)) => {
                    self.take(slice.index);
                    rest = behind;
                }
                None => return,
            }
        }
    }
}
