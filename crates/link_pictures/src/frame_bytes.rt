ghost use Rattle.std.specs.Prelude.{◌≡◌, ◌<◌, [], length, Some};
ghost use Rattle.vc_ports.specs.Faults.{HasCause};
ghost use Rattle.vc_ports.specs.Writing.{Writes};

use std::alloc::Global;
use vc_ports::{Sink, Took};

/// The bytes of a frame. As a sink it fails only where there is no memory.
#[derive(Drop)]
pub(crate) struct FrameBytes {
    pub(crate) bytes: Vec<u8>,
    pub(crate) faults: u64,
}

impl FrameBytes {
    /// Nothing was written.
    pub(crate) fn new(alloc: Global) -> FrameBytes
        ensures { result.bytes.items ≡ [] }
    {
        FrameBytes {
            bytes: Vec::new(alloc),
            faults: 0,
        }
    }
}

impl Sink for FrameBytes {
    ghost held = { λ w. Some w.bytes.items };

    ghost faults = { λ w. w.faults };

    #[tactic(auto, using(vc_ports::proofs::Fronts::take_whole))]
    fn write(&mut self, piece: &[u8]) -> Took
        requires { 0 < length piece.now }
        ensures bytes { Writes (Some self.old.bytes.items) (Some self.new.bytes.items)
            piece.now result }
        ensures cause { HasCause self.old.faults self.new.faults (result ≡ Took.Failed) }
    {
        match self.bytes.extend_from_slice(piece) {
            Ok(()) => Took::Bytes(piece.len()),
            Err(_) => {
                self.faults = self.faults.saturating_add(1);
                Took::Failed
            }
        }
    }
}
