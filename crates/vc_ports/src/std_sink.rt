ghost use Rattle.std.specs.Prelude.{◌≡◌, ◌<◌, length, None};
ghost use Rattle.vc_ports.specs.Adapters.{PassesWrite};
ghost use Rattle.vc_ports.specs.Faults.{HasCause};
ghost use Rattle.vc_ports.specs.Writing.{Writes};

use crate::sink::{Sink, Took};
use std::io::Write;

/// Any writer of std. It tells nothing. A write that takes no byte is a fault.
#[derive(Drop)]
pub struct StdSink<W> {
    writer: W,
    faults: u64,
}

impl<W: Write> StdSink<W> {
    /// The adapter of this writer, with no fault so far.
    pub fn new(writer: W) -> StdSink<W>
        ensures { result.faults ≡ 0 }
    {
        StdSink { writer, faults: 0 }
    }
}

impl<W: Write> Sink for StdSink<W> {
    ghost held = { λ _. None };

    ghost faults = { λ s. s.faults };

    fn write(&mut self, piece: &[u8]) -> Took
        requires { 0 < length piece.now }
        ensures bytes { Writes None None piece.now result }
        ensures cause { HasCause self.old.faults self.new.faults (result ≡ Took.Failed) }
        ensures passed { PassesWrite (W.contents self.old.writer)
            (W.contents self.new.writer) piece.now result }
    {
        match self.writer.write(piece) {
            Ok(count) if count > 0 => Took::Bytes(count),
            _ => {
                self.faults = self.faults.saturating_add(1);
                Took::Failed
            }
        }
    }
}
