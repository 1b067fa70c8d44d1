ghost use Rattle.std.specs.Prelude.{◌≡◌, ◌<◌, length, None};
ghost use Rattle.vc_ports.specs.Adapters.{PassesRead};
ghost use Rattle.vc_ports.specs.Faults.{HasCause};
ghost use Rattle.vc_ports.specs.Reading.{Reads};

use crate::source::{Got, Source};
use std::io::Read;

// How many bytes one read takes at most.
const PIECE: usize = 65_536;

/// Any reader of std. It tells nothing.
#[derive(Drop)]
pub struct StdSource<R> {
    reader: R,
    // A reader may write past what it gives, so it writes into a buffer of its own.
    piece: [u8; PIECE],
    faults: u64,
    ends: u64,
}

impl<R: Read> StdSource<R> {
    /// The adapter of this reader, with no fault and no end so far.
    pub fn new(reader: R) -> StdSource<R>
        ensures faults { result.faults ≡ 0 }
        ensures ends { result.ends ≡ 0 }
    {
        StdSource {
            reader,
            piece: [0; PIECE],
            faults: 0,
            ends: 0,
        }
    }
}

impl<R: Read> Source for StdSource<R> {
    ghost left = { λ _. None };

    ghost faults = { λ s. s.faults };

    ghost ends = { λ s. s.ends };

    fn read(&mut self, buf: &mut [u8]) -> Got
        requires { 0 < length buf.old }
        ensures bytes { Reads None None buf.old buf.new result }
        ensures cause { HasCause self.old.faults self.new.faults (result ≡ Got.Failed) }
        ensures end { HasCause self.old.ends self.new.ends (result ≡ Got.End) }
        ensures passed { PassesRead (R.remaining self.old.reader)
            (R.remaining self.new.reader) buf.new result }
    {
        let room = buf.len().min(PIECE);
        let piece = &mut self.piece[..];
        match self.reader.read(&mut piece[..room]) {
            Ok(0) => {
                self.ends = self.ends.saturating_add(1);
                Got::End
            }
            Ok(count) => {
                buf[..count].copy_from_slice(&piece[..count]);
                Got::Bytes(count)
            }
            Err(_) => {
                self.faults = self.faults.saturating_add(1);
                Got::Failed
            }
        }
    }
}
