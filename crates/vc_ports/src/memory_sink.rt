ghost use Rattle.std.specs.Prelude.{◌≡◌, ◌<◌, [], length, Some, IfOk};
ghost use Rattle.vc_ports.specs.Faults.{HasCause};
ghost use Rattle.vc_ports.specs.Memory.{write_answer, sink_after};
ghost use Rattle.vc_ports.specs.Writing.{Writes};

use crate::sink::{Sink, Took};
use std::alloc::Global;
use std::marker::Model;
use vc_types::NoMemory;

/// A sink in memory that fails at the calls of the given numbers, counted from 1, and at each call that would
/// pass its room. It tells the bytes that it holds.
#[derive(Drop)]
pub struct MemSink {
    bytes: Vec<u8>,
    room: usize,
    fails: Vec<u64>,
    calls: u64,
    faults: u64,
}

impl Model for MemSink {
    ghost use Rattle.std.specs.Prelude.{◌≤◌, vec_len, vec_capacity};
    ghost use Rattle.vc_ports.specs.Memory.{SinkState};

    ghost Value = { SinkState };

    ghost view = { λ s. record {
      held = s.bytes.items;
      room = s.room;
      fails = s.fails.items;
      calls = s.calls;
      faults = s.faults;
    } };

    ghost invariant = { λ s. (vec_len s.bytes ≤ s.room) × (s.room ≤ vec_capacity s.bytes) };
}

impl MemSink {
    /// A sink for `room` bytes, whose memory is taken here, and whose calls of the numbers in `fails` fail.
    pub fn new(alloc: Global, room: usize, fails: Vec<u64>) -> Result<MemSink, NoMemory>
        ensures { IfOk result
            (λ s. s ≡ record {
              held = [];
              room = room;
              fails = fails.items;
              calls = 0;
              faults = 0;
            }) }
    {
        let bytes = Vec::with_capacity(alloc, room)?;
        Ok(MemSink {
            bytes,
            room,
            fails,
            calls: 0,
            faults: 0,
        })
    }

    /// What was written.
    pub fn bytes(&self) -> &[u8]
        ensures { result.now ≡ self.now.held }
    {
        &self.bytes
    }
}

impl Sink for MemSink {
    ghost held = { λ s. Some s.held };

    ghost faults = { λ s. s.faults };

    #[tactic(auto, using(crate::proofs::Fronts::take_whole))]
    fn write(&mut self, piece: &[u8]) -> Took
        requires { 0 < length piece.now }
        ensures bytes { Writes (Some self.old.held) (Some self.new.held) piece.now result }
        ensures cause { HasCause self.old.faults self.new.faults (result ≡ Took.Failed) }
        ensures answer { result ≡ write_answer self.old piece.now }
        ensures state { self.new ≡ sink_after self.old piece.now }
    {
        self.calls = self.calls.saturating_add(1);
        if self.fails.contains(&self.calls) || self.room - self.bytes.len() < piece.len() {
            self.faults = self.faults.saturating_add(1);
            return Took::Failed;
        }
        match self.bytes.extend_from_slice(piece) {
            Ok(()) => Took::Bytes(piece.len()),
            Err(_) => unreachable!(),
        }
    }
}
