ghost use Rattle.std.specs.Prelude.{◌≡◌, ◌<◌, length, Some};
ghost use Rattle.vc_ports.specs.Faults.{HasCause};
ghost use Rattle.vc_ports.specs.Memory.{read_answer, source_after};
ghost use Rattle.vc_ports.specs.Reading.{Reads};

use crate::plain_source::PlainSource;
use crate::source::{Got, Source};
use std::marker::Model;

/// A source in memory that fails at the calls of the given numbers, counted from 1. It tells the bytes that
/// are left.
#[derive(Drop)]
pub struct MemSource {
    inner: PlainSource,
    fails: Vec<u64>,
    calls: u64,
    faults: u64,
}

impl Model for MemSource {
    ghost use Rattle.vc_ports.specs.Memory.{SourceState};

    ghost Value = { SourceState };

    ghost view = { λ s. record {
      left = s.inner.left;
      ends = s.inner.ends;
      fails = s.fails.items;
      calls = s.calls;
      faults = s.faults;
    } };
}

impl MemSource {
    /// A source of these bytes, whose calls of the numbers in `fails` fail.
    pub fn new(bytes: Vec<u8>, fails: Vec<u64>) -> MemSource
        ensures { result ≡ record {
          left = bytes.items;
          ends = 0;
          fails = fails.items;
          calls = 0;
          faults = 0;
        } }
    {
        MemSource {
            inner: PlainSource::new(bytes),
            fails,
            calls: 0,
            faults: 0,
        }
    }
}

impl Source for MemSource {
    ghost left = { λ s. Some s.left };

    ghost faults = { λ s. s.faults };

    ghost ends = { λ s. s.ends };

    fn read(&mut self, buf: &mut [u8]) -> Got
        requires { 0 < length buf.old }
        ensures bytes { Reads (Some self.old.left) (Some self.new.left) buf.old buf.new result }
        ensures cause { HasCause self.old.faults self.new.faults (result ≡ Got.Failed) }
        ensures end { HasCause self.old.ends self.new.ends (result ≡ Got.End) }
        ensures answer { result ≡ read_answer self.old (length buf.old) }
        ensures state { self.new ≡ source_after self.old (length buf.old) }
    {
        self.calls = self.calls.saturating_add(1);
        if self.fails.contains(&self.calls) {
            self.faults = self.faults.saturating_add(1);
            return Got::Failed;
        }
        self.inner.read(buf)
    }
}
