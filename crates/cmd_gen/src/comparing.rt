ghost use Rattle.std.specs.Prelude.{◌≡◌, ◌∷◌, ◌++◌, ℕ, List, []};
ghost use Rattle.cmd_gen.specs.Counting.{counted_with_samples, counted_with};
ghost use Rattle.cmd_gen.specs.Differences.{differences};
ghost use Rattle.vc_types.specs.SenderSettings.{generating_view};

use crate::comparison::Comparison;
use crate::{frame_shape, next_state, sample_of, samples_of};
use frame_writer::is_wide;
use vc_types::GenSettings;

impl Comparison {
    /// Nothing came yet.
    pub fn new(g: &GenSettings) -> Comparison
        ensures { (bytes : List ℕ) → counted_with result bytes
            ≡ differences (generating_view g.now) bytes }
    {
        let shape = frame_shape(g);
        Comparison {
            depth: shape.luma_depth,
            wide: is_wide(&shape),
            state: u64::from(g.seed),
            left: samples_of(g),
            low: None,
            different: 0,
        }
    }

    /// Takes the next bytes.
    pub fn take(&mut self, bytes: &[u8])
        ensures { (more : List ℕ) → counted_with self.new more
            ≡ counted_with self.old (bytes.now ++ more) }
    {
        for byte in bytes {
            self.take_byte(*byte);
        }
    }

    /// How many samples differ, those that did not come among them.
    pub fn different(&self) -> u64
        ensures { result ≡ counted_with self.now [] }
    {
        self.different + self.left
    }

    fn take_byte(&mut self, byte: u8)
        ensures { (more : List ℕ) → counted_with self.new more
            ≡ counted_with self.old (byte ∷ more) }
    {
        if !self.wide {
            self.compare(u16::from(byte));
            return;
        }
        match self.low.take() {
            None => self.low = Some(byte),
            Some(low) => self.compare(u16::from(low) + 256 * u16::from(byte)),
        }
    }

    // Compares the next sample. One behind the last is no part of a frame.
    fn compare(&mut self, sample: u16)
        ensures wide { self.new.wide ≡ self.old.wide }
        ensures low { self.new.low ≡ self.old.low }
        ensures counted { (samples : List ℕ) → counted_with_samples self.new samples
            ≡ counted_with_samples self.old (sample ∷ samples) }
    {
        if self.left == 0 {
            return;
        }
        let state = next_state(self.state);
        let same = sample == sample_of(self.depth, state);
        self.state = state;
        self.left -= 1;
        self.different += u64::from(!same);
    }
}
