ghost use Rattle.std.specs.Prelude.{◌≡◌, ◌≤◌, ◌∷◌, [], length, take, IfOk, ◌+◌, ◌<◌, ◌^◌, OnSome};
ghost use Rattle.std.specs.Prelude.{MatchOption, slice_get, None, Some};
ghost use Rattle.vc_ports.specs.Faults.{HasCause};
ghost use Rattle.vc_ports.specs.MemoryWires.{AreDatagrams, memory_told, reach_answer, listen_after};
ghost use Rattle.vc_ports.specs.MemoryWires.{aim_after, send_answer, send_after, recv_answer, recv_after};
ghost use Rattle.vc_ports.specs.WireCounts.{kept_one, asked_for};
ghost use Rattle.vc_ports.specs.Wires.{Reaches, Sends, Comes, listening, aiming};

use crate::datagrams::{datagram_at, give};
use crate::meter::Meter;
use crate::store::Store;
use crate::wire::{Came, Reached, Sent, Wire};
use crate::wire_counts::WireCounts;
use std::alloc::Global;
use std::marker::Model;
use vc_types::NoMemory;

/// A wire in memory that fails at the calls of the given numbers, counted from 1, and at each call that would
/// pass its room, where a datagram that is sent and an address take their length and 2. It tells all its
/// lists.
#[derive(Drop)]
pub struct MemWire {
    datagrams: Vec<Vec<u8>>,
    // How many were given of the datagrams and, where the wire is looped, of those that were sent.
    given: usize,
    sent: Store,
    at: Store,
    to: Store,
    looped: bool,
    meter: Meter,
    counts: WireCounts,
}

impl Model for MemWire {
    ghost use Rattle.std.specs.Prelude.{◌≤◌, take, drop, length};
    ghost use Rattle.vc_ports.specs.MemoryWires.{AreDatagrams, WireState, datagrams_in, queue};

    ghost Value = { WireState };

    ghost view = { λ w. record {
      coming = drop w.given (queue (datagrams_in w.datagrams.items) w.looped w.sent.pieces);
      given = take w.given (queue (datagrams_in w.datagrams.items) w.looped w.sent.pieces);
      sent = w.sent.pieces;
      at = w.at.pieces;
      to = w.to.pieces;
      looped = w.looped;
      meter = w.meter;
      counts = w.counts;
    } };

    ghost invariant = { λ w.
        (w.given ≤ length (queue (datagrams_in w.datagrams.items) w.looped w.sent.pieces))
        × AreDatagrams (datagrams_in w.datagrams.items) × AreDatagrams w.sent.pieces
        × (w.meter.room ≤ w.sent.room) × (w.meter.room ≤ w.at.room) × (w.meter.room ≤ w.to.room) };
}

impl MemWire {
    ghost use Rattle.vc_ports.specs.MemoryWires.{datagrams_in};

    /// A wire from which these datagrams come and, where it is looped, those that are sent. Memory for `room`
    /// bytes is taken here. The calls of the numbers in `fails` fail.
    pub fn new(
        alloc: Global,
        coming: Vec<Vec<u8>>,
        looped: bool,
        room: usize,
        fails: Vec<u64>,
    ) -> Result<MemWire, NoMemory>
        requires { AreDatagrams (datagrams_in coming.items) }
        ensures { IfOk result (λ w. w ≡ record {
          coming = datagrams_in coming.items;
          given = [];
          sent = [];
          at = [];
          to = [];
          looped = looped;
          meter = record { room = room; fails = fails.items; calls = 0; faults = 0 };
          counts = WireCounts.NONE;
        }) }
    {
        Ok(MemWire {
            datagrams: coming,
            given: 0,
            sent: Store::new(alloc, room)?,
            at: Store::new(alloc, room)?,
            to: Store::new(alloc, room)?,
            looped,
            meter: Meter {
                room,
                fails,
                calls: 0,
                faults: 0,
            },
            counts: WireCounts::NONE,
        })
    }

    /// What it counted.
    pub fn counts(&self) -> &WireCounts
        ensures { result.now ≡ self.now.counts }
    {
        &self.counts
    }

    /// The datagram that was sent at this place.
    pub fn sent(&self, i: usize) -> Option<&[u8]>
        ensures { MatchOption result (slice_get self.now.sent i ≡ None)
            (λ sent. slice_get self.now.sent i ≡ Some sent.now) }
    {
        self.sent.get(i)
    }

    /// The address at this place of those to listen at.
    pub fn at(&self, i: usize) -> Option<&[u8]>
        ensures { MatchOption result (slice_get self.now.at i ≡ None)
            (λ at. slice_get self.now.at i ≡ Some at.now) }
    {
        self.at.get(i)
    }

    /// The address at this place of those to send to.
    pub fn to(&self, i: usize) -> Option<&[u8]>
        ensures { MatchOption result (slice_get self.now.to i ≡ None)
            (λ to. slice_get self.now.to i ≡ Some to.now) }
    {
        self.to.get(i)
    }

    // The datagram that comes next.
    fn next(&self) -> Option<&[u8]>
        ensures few { OnSome result (length self.now.given + 1 < 2 ^ 64) }
        ensures next { MatchOption result (self.now.coming ≡ [])
            (λ one. (take 1 self.now.coming ≡ one.now ∷ []) × (length one.now ≤ 65535)) }
    {
        match datagram_at(&self.datagrams, self.given) {
            Some(datagram) => Some(datagram),
            None if self.looped => self.sent.get(self.given - self.datagrams.len()),
            None => None,
        }
    }
}

impl Wire for MemWire {
    ghost told = { memory_told };

    ghost faults = { λ w. w.meter.faults };

    fn listen(&mut self, at: &str) -> Reached
        ensures told { Reaches (memory_told self.old) (listening (memory_told self.old) at.now)
            (memory_told self.new) result }
        ensures cause { HasCause self.old.meter.faults self.new.meter.faults
            (result ≡ Reached.Failed) }
        ensures answer { result ≡ reach_answer self.old at.now }
        ensures state { self.new ≡ listen_after self.old at.now }
    {
        if self.meter.refuses(at.len() + 2) {
            return Reached::Failed;
        }
        self.at.push(at.as_bytes());
        Reached::Yes
    }

    fn aim(&mut self, to: &str) -> Reached
        ensures told { Reaches (memory_told self.old) (aiming (memory_told self.old) to.now)
            (memory_told self.new) result }
        ensures cause { HasCause self.old.meter.faults self.new.meter.faults
            (result ≡ Reached.Failed) }
        ensures answer { result ≡ reach_answer self.old to.now }
        ensures state { self.new ≡ aim_after self.old to.now }
    {
        if self.meter.refuses(to.len() + 2) {
            return Reached::Failed;
        }
        self.to.push(to.as_bytes());
        Reached::Yes
    }

    fn send(&mut self, datagram: &[u8]) -> Sent
        requires size { length datagram.now ≤ 65507 }
        ensures told { Sends (memory_told self.old) (memory_told self.new) datagram.now result }
        ensures cause { HasCause self.old.meter.faults self.new.meter.faults (result ≡ Sent.Failed) }
        ensures answer { result ≡ send_answer self.old datagram.now }
        ensures state { self.new ≡ send_after self.old datagram.now }
    {
        if self.meter.refuses(datagram.len() + 2) {
            return Sent::Failed;
        }
        self.sent.push(datagram);
        self.counts.count_sent();
        Sent::Yes
    }

    fn end_after(&mut self, seconds: u32)
        ensures { self.new ≡ record self.old { counts = asked_for seconds self.old.counts } }
    {
        self.counts.ask(seconds);
    }

    fn keep(&mut self)
        ensures { self.new ≡ record self.old { counts = kept_one self.old.counts } }
    {
        self.counts.count_kept();
    }

    fn recv(&mut self, buf: &mut [u8]) -> Came
        requires room { length buf.old ≡ 65535 }
        ensures told { Comes (memory_told self.old) (memory_told self.new) buf.new result }
        ensures cause { HasCause self.old.meter.faults self.new.meter.faults
            (result ≡ Came.Failed) }
        ensures answer { result ≡ recv_answer self.old }
        ensures state { self.new ≡ recv_after self.old }
    {
        if self.meter.refuses(0) {
            return Came::Failed;
        }
        match self.next() {
            Some(datagram) => {
                let count = give(datagram, buf);
                self.given += 1;
                Came::Datagram(count)
            }
            None => {
                self.counts.count_end();
                Came::End
            }
        }
    }
}
