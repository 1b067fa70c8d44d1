ghost use Rattle.std.specs.Prelude.{◌≡◌, ◌≤◌, ◌∷◌, [], MatchOption, length, take};
ghost use Rattle.vc_ports.specs.Faults.{HasCause};
ghost use Rattle.vc_ports.specs.MemoryWires.{AreDatagrams, came_of, plain_told, plain_received};
ghost use Rattle.vc_ports.specs.WireCounts.{sent_one, kept_one, asked_for};
ghost use Rattle.vc_ports.specs.Wires.{Comes};

use crate::datagrams::{datagram_at, give};
use crate::wire::{Came, Reached, Sent, Wire};
use crate::wire_counts::WireCounts;
use std::marker::Model;

/// A wire in memory that never fails, and always listens and is aimed. It tells the datagrams that will come
/// and those that were given, and drops what is sent.
#[derive(Drop)]
pub struct PlainWire {
    datagrams: Vec<Vec<u8>>,
    given: usize,
    counts: WireCounts,
}

impl Model for PlainWire {
    ghost use Rattle.std.specs.Prelude.{◌≤◌, length, take, drop};
    ghost use Rattle.vc_ports.specs.MemoryWires.{AreDatagrams, PlainState, datagrams_in};

    ghost Value = { PlainState };

    ghost view = { λ w. record {
      coming = drop w.given (datagrams_in w.datagrams.items);
      given = take w.given (datagrams_in w.datagrams.items);
      counts = w.counts;
    } };

    ghost invariant = { λ w. (w.given ≤ length (datagrams_in w.datagrams.items))
        × AreDatagrams (datagrams_in w.datagrams.items) };
}

impl PlainWire {
    ghost use Rattle.vc_ports.specs.MemoryWires.{datagrams_in};

    /// A wire from which these datagrams come.
    pub fn new(coming: Vec<Vec<u8>>) -> PlainWire
        requires { AreDatagrams (datagrams_in coming.items) }
        ensures { result ≡ record {
          coming = datagrams_in coming.items;
          given = [];
          counts = WireCounts.NONE;
        } }
    {
        PlainWire {
            datagrams: coming,
            given: 0,
            counts: WireCounts::NONE,
        }
    }

    // The datagram that comes next.
    fn next(&self) -> Option<&[u8]>
        ensures { MatchOption result (self.now.coming ≡ [])
            (λ one. (take 1 self.now.coming ≡ one.now ∷ []) × (length one.now ≤ 65535)) }
    {
        datagram_at(&self.datagrams, self.given)
    }
}

impl Wire for PlainWire {
    ghost told = { plain_told };

    ghost faults = { λ _. 0 };

    fn listen(&mut self, _at: &str) -> Reached
        ensures answer { result ≡ Reached.Yes }
        ensures state { self.new ≡ self.old }
    {
        Reached::Yes
    }

    fn aim(&mut self, _to: &str) -> Reached
        ensures answer { result ≡ Reached.Yes }
        ensures state { self.new ≡ self.old }
    {
        Reached::Yes
    }

    fn send(&mut self, _datagram: &[u8]) -> Sent
        ensures answer { result ≡ Sent.Yes }
        ensures state { self.new ≡ record self.old { counts = sent_one self.old.counts } }
    {
        self.counts.count_sent();
        Sent::Yes
    }

    fn end_after(&mut self, seconds: u32)
        ensures { self.new ≡ record self.old { counts = asked_for seconds self.old.counts } }
    {
        self.counts.ask(seconds);
    }

    fn keep(&mut self)
        ensures { self.new ≡ record self.old { counts = kept_one self.old.counts } }
    {
        self.counts.count_kept();
    }

    fn recv(&mut self, buf: &mut [u8]) -> Came
        requires room { length buf.old ≡ 65535 }
        ensures told { Comes (plain_told self.old) (plain_told self.new) buf.new result }
        ensures cause { HasCause 0 0 (result ≡ Came.Failed) }
        ensures answer { result ≡ came_of self.old.coming }
        ensures state { self.new ≡ plain_received self.old }
    {
        match self.next() {
            Some(datagram) => {
                let count = give(datagram, buf);
                self.given += 1;
                Came::Datagram(count)
            }
            None => {
                self.counts.count_end();
                Came::End
            }
        }
    }
}
