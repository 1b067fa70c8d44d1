ghost use Rattle.std.specs.Prelude.{None};

use crate::sink::{Sink, Took};

/// A sink that drops what it is given and never fails. It tells nothing.
#[derive(Clone, Copy)]
pub struct PlainSink;

impl PlainSink {
    /// The one such sink.
    pub fn new() -> PlainSink {
        PlainSink
    }
}

impl Sink for PlainSink {
    ghost held = { λ _. None };

    ghost faults = { λ _. 0 };

    fn write(&mut self, piece: &[u8]) -> Took {
        Took::Bytes(piece.len())
    }
}
