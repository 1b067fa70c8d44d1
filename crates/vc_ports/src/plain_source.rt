ghost use Rattle.std.specs.Prelude.{◌≡◌, ◌<◌, length, Some};
ghost use Rattle.vc_ports.specs.Memory.{answer_of_left, plain_read};
ghost use Rattle.vc_ports.specs.Reading.{Reads};
ghost use Rattle.vc_ports.specs.Faults.{HasCause};

use crate::front::copy_front;
use crate::source::{Got, Source};
use std::marker::Model;

/// A source in memory that never fails. It tells the bytes that are left.
#[derive(Drop)]
pub struct PlainSource {
    bytes: Vec<u8>,
    at: usize,
    ends: u64,
}

impl Model for PlainSource {
    ghost use Rattle.std.specs.Prelude.{◌≤◌, drop, vec_len};
    ghost use Rattle.vc_ports.specs.Memory.{PlainLeft};

    ghost Value = { PlainLeft };

    ghost view = { λ s. record { left = drop s.at s.bytes.items; ends = s.ends } };

    ghost invariant = { λ s. s.at ≤ vec_len s.bytes };
}

impl PlainSource {
    /// A source of these bytes.
    pub fn new(bytes: Vec<u8>) -> PlainSource
        ensures { result ≡ record { left = bytes.items; ends = 0 } }
    {
        PlainSource {
            bytes,
            at: 0,
            ends: 0,
        }
    }
}

impl Source for PlainSource {
    ghost left = { λ s. Some s.left };

    ghost faults = { λ _. 0 };

    ghost ends = { λ s. s.ends };

    #[tactic(auto, using(crate::proofs::Fronts::front_and_rest))]
    fn read(&mut self, buf: &mut [u8]) -> Got
        requires { 0 < length buf.old }
        ensures bytes { Reads (Some self.old.left) (Some self.new.left) buf.old buf.new result }
        ensures cause { HasCause 0 0 (result ≡ Got.Failed) }
        ensures end { HasCause self.old.ends self.new.ends (result ≡ Got.End) }
        ensures answer { result ≡ answer_of_left self.old.left (length buf.old) }
        ensures state { self.new ≡ plain_read self.old (length buf.old) }
    {
        let (_, rest) = self.bytes.split_at(self.at);
        if rest.is_empty() {
            self.ends = self.ends.saturating_add(1);
            return Got::End;
        }
        let count = copy_front(rest, buf);
        self.at += count;
        Got::Bytes(count)
    }
}
