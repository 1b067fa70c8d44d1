ghost use Rattle.std.specs.Prelude.{◌≡◌, ◌≢◌, ◌↔◌, ◌+◌, ◌^◌, ◌<◌, ◌≤◌, IsNone, IfSome};
ghost use Rattle.rtcp_reports.specs.Rtcp.{LossFits};
ghost use Rattle.rtcp_reports.specs.Tracks.{fresh, restarted, packet_counted, wrapped, tried, jumped, updated};
ghost use Rattle.rtcp_reports.specs.Tracks.{loss, lost_of, fraction, block_of, reported};

use crate::block::Block;
use std::marker::Model;

// How many sequence numbers there are, and the limits of a gap in order, and of a packet that is late
// (RFC 3550, A.1: RTP_SEQ_MOD, MAX_DROPOUT, MAX_MISORDER).
const NUMBERS: u32 = 1 << 16;

const MAX_DROPOUT: u32 = 3000;

const MAX_MISORDER: u32 = 100;

// How many packets in sequence end the probation (MIN_SEQUENTIAL).
const MIN_SEQUENTIAL: u8 = 2;

// What no sequence number is.
const NO_NUMBER: u32 = NUMBERS + 1;

// What 24 bits hold.
const LEAST_LOSS: i64 = -0x80_0000;

const MOST_LOSS: i64 = 0x7F_FFFF;

/// The sequence numbers of one source, as a receiver keeps them for its reports (RFC 3550, A.1 and A.3). A
/// source is on probation until two packets with numbers in sequence have come. After that a number that is
/// far from the greatest one is ignored, unless the next number follows: then counting begins anew.
#[derive(Drop)]
pub struct Track {
    base: u16,
    greatest: u16,
    bad: u32,
    cycles: u64,
    probation: u8,
    received: u64,
    expected_prior: u64,
    received_prior: u64,
    updates: u64,
}

impl Model for Track {
    ghost use Rattle.rtcp_reports.specs.Tracks.{Tracked};

    ghost Value = { Tracked };

    ghost use Rattle.rtcp_reports.specs.Views.{tracked, HasCounted};

    ghost view = { tracked };

    ghost invariant = { λ t. HasCounted (tracked t) };
}

impl Track {
    /// A source before its first packet, whose number is given. That packet is to be given to `update` too.
    pub fn new(seq: u16) -> Track
        ensures value { result ≡ fresh seq }
        ensures updates { result.updates ≡ 0 }
    {
        Track {
            base: seq,
            greatest: seq.wrapping_sub(1),
            bad: NO_NUMBER,
            cycles: 0,
            probation: MIN_SEQUENTIAL,
            received: 0,
            expected_prior: 0,
            received_prior: 0,
            updates: 0,
        }
    }

    /// Takes the sequence number of the next packet, and answers whether the packet counts: on probation only
    /// the one that ends it does, and one that makes a very large jump does only if the last such jump was to
    /// the number before. Fewer than 2^32 packets may have come before it.
    pub fn update(&mut self, seq: u16) -> bool
        requires { self.old.updates < 2 ^ 32 }
        ensures value { updated self.old seq ≡ (self.new, result) }
        ensures updates { self.new.updates ≡ self.old.updates + 1 }
    {
        self.updates += 1;
        if self.probation > 0 {
            return self.try_out(seq);
        }
        let ahead = u32::from(seq.wrapping_sub(self.greatest));
        if ahead < MAX_DROPOUT {
            self.cycles += wrapped(self.greatest, seq);
            self.greatest = seq;
            self.received += 1;
            return true;
        }
        if ahead <= NUMBERS - MAX_MISORDER {
            return self.jump(seq);
        }
        self.received += 1;
        true
    }

    /// What a report says of the source, and the begin of the next report's interval; None, and no change, on
    /// probation.
    pub fn block(&mut self, ssrc: u32) -> Option<Block>
        ensures none_exactly { IsNone result ↔ (self.old.probation ≢ 0) }
        ensures value { IfSome result (λ block. block ≡ block_of ssrc self.old) }
        ensures fits { IfSome result LossFits }
        ensures state { self.new ≡ reported self.old }
        ensures updates { self.new.updates ≡ self.old.updates }
    {
        if self.probation > 0 {
            return None;
        }
        let extended = self.cycles + u64::from(self.greatest);
        let expected = extended + 1 - u64::from(self.base);
        let expected_since = expected - self.expected_prior;
        let received_since = self.received - self.received_prior;
        self.expected_prior = expected;
        self.received_prior = self.received;
        Some(Block {
            ssrc,
            fraction: fraction(expected_since, received_since),
            lost: loss(expected, self.received),
            highest: (extended % (1 << 32)) as u32,
        })
    }

    /// How many packets were met.
    pub fn met(&self) -> u64
        ensures { result ≡ self.now.updates }
    {
        self.updates
    }

    /// The highest number that came, or the one before the first packet's.
    pub fn greatest(&self) -> u16
        ensures { result ≡ self.now.greatest }
    {
        self.greatest
    }

    /// How many packets were lost of those that were due, as far as 24 bits hold it: 0 on probation.
    pub fn lost(&self) -> i32
        ensures { result ≡ lost_of self.now }
    {
        if self.probation > 0 {
            return 0;
        }
        loss(
            self.cycles + u64::from(self.greatest) + 1 - u64::from(self.base),
            self.received,
        )
    }

    // A packet of a source on probation.
    fn try_out(&mut self, seq: u16) -> bool
        requires probation { self.old.probation ≢ 0 }
        requires updates { 1 ≤ self.old.updates }
        ensures { tried self.old seq ≡ (self.new, result) }
    {
        if seq != self.greatest.wrapping_add(1) {
            self.probation = MIN_SEQUENTIAL - 1;
            self.greatest = seq;
            return false;
        }
        if self.probation > 1 {
            self.probation -= 1;
            self.greatest = seq;
            return false;
        }
        self.restart(seq);
        self.probation = 0;
        true
    }

    // A packet far from the greatest number.
    fn jump(&mut self, seq: u16) -> bool
        requires { 1 ≤ self.old.updates }
        ensures { jumped self.old seq ≡ (self.new, result) }
    {
        if u32::from(seq) != self.bad {
            self.bad = u32::from(seq.wrapping_add(1));
            return false;
        }
        self.restart(seq);
        true
    }

    // Begins to count anew at a packet.
    fn restart(&mut self, seq: u16)
        requires { 1 ≤ self.old.updates }
        ensures { self.new ≡ packet_counted (restarted seq self.old) }
    {
        self.base = seq;
        self.greatest = seq;
        self.bad = NO_NUMBER;
        self.cycles = 0;
        self.received = 1;
        self.expected_prior = 0;
        self.received_prior = 0;
    }
}

// What the cycles grow by from one number to another that is ahead of it.
fn wrapped(greatest: u16, seq: u16) -> u64
    ensures { result ≡ wrapped greatest seq }
{
    if seq < greatest {
        u64::from(NUMBERS)
    } else {
        0
    }
}

// How many packets were lost, as far as 24 bits hold it.
fn loss(expected: u64, received: u64) -> i32
    requires expected { expected < 2 ^ 63 }
    requires received { received < 2 ^ 63 }
    ensures { result ≡ loss expected received }
{
    (expected as i64 - received as i64).clamp(LEAST_LOSS, MOST_LOSS) as i32
}

// The share of an interval's packets that was lost.
fn fraction(expected: u64, received: u64) -> u8
    requires small { expected < 2 ^ 56 }
    requires some { 0 < expected → 0 < received }
    ensures { result ≡ fraction expected received }
{
    if expected <= received {
        return 0;
    }
    (256 * (expected - received) / expected) as u8
}
