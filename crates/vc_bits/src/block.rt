ghost use Rattle.std.specs.Prelude.{◌≡◌, ◌+◌, ◌*◌, ◌<◌, ◌≤◌, ◌++◌, ◌-◌, ◌^◌, [], drop, length, replicate};
ghost use Rattle.std.specs.Prelude.{true};
ghost use Rattle.vc_types.specs.Bits.{byte_bits, bits_of};
ghost use Rattle.vc_types.specs.Bounded.{bounded, BeginsWith};
ghost use Rattle.vc_bits.specs.Bits.{word_bits};

use crate::byte::filled;
use crate::pending::joined;
use std::marker::Model;

/// A bounded block (ST 2042-1, data coding): some bits, and ones without end behind them. It is seen as the
/// bits that are left.
#[derive(Drop)]
pub struct Block<'a> {
    // The bits that come next are the last bits of a word, and this many. Behind them come bytes, and then
    // the last bits of a tail, fewer than a byte. All are read into the word before fewer than twelve bits
    // are left there.
    word: u64,
    count: u32,
    rest: &'a [u8],
    tail: u8,
    tail_bits: u8,
}

impl<'a> Model for Block<'a> {
    ghost use Rattle.std.specs.Prelude.{◌≡◌, ◌<◌, ◌≤◌, ◌++◌, [], List, Bool};
    ghost use Rattle.vc_types.specs.Bits.{bits_of};
    ghost use Rattle.vc_bits.specs.Bits.{word_bits};

    ghost Value = { List Bool };

    ghost view = { λ b. word_bits b.count b.word ++ (bits_of b.rest.now ++ word_bits b.tail_bits b.tail) };

    ghost invariant = { λ b. (b.count ≤ 64) × (b.count < 12 → b.rest.now ≡ []) × (b.tail_bits < 8)
        × (b.count < 12 → b.tail_bits ≡ 0) };
}

impl<'a> Block<'a> {
    pub(crate) fn new(bytes: &'a [u8]) -> Block<'a>
        ensures { result ≡ bits_of bytes.now }
    {
        let (word, count, rest) = refilled(0, 0, bytes);
        Block {
            word,
            count,
            rest,
            tail: 0,
            tail_bits: 0,
        }
    }

    // The bits of bytes, and behind them a number's last bits, so many.
    pub(crate) fn with_tail(bytes: &'a [u8], tail: u8, tail_bits: u8) -> Block<'a>
        requires { tail_bits < 8 }
        ensures { result ≡ bits_of bytes.now ++ word_bits tail_bits tail }
    {
        let (word, count, rest) = refilled(0, 0, bytes);
        let (word, count, tail_bits) = ended(word, count, rest, tail, tail_bits);
        Block {
            word,
            count,
            rest,
            tail,
            tail_bits,
        }
    }

    /// The same block, to be read apart.
    pub fn copy(&self) -> Block<'a>
        ensures { result ≡ self.now }
    {
        Block {
            word: self.word,
            count: self.count,
            rest: self.rest,
            tail: self.tail,
            tail_bits: self.tail_bits,
        }
    }

    /// The next bit, past the end a one.
    #[tactic(auto, using(crate::proofs::Peeking::first_bit))]
    pub fn bit(&mut self) -> bool
        ensures bit { result ≡ bounded self.old 0 }
        ensures left { self.new ≡ drop 1 self.old }
    {
        let bit = self.peek() >= 128;
        self.skip(1);
        bit
    }

    /// The byte that the next eight bits make, past the end ones. The block stays.
    #[tactic(auto, using(crate::proofs::Words::peeks))]
    pub fn peek(&self) -> u8
        ensures { BeginsWith self.now (byte_bits result) }
    {
        if self.count >= 8 {
            ((self.word >> (self.count - 8)) % 256) as u8
        } else if self.count > 0 {
            filled(
                (self.word % (1 << self.count)) as u8,
                self.count as u8,
                true,
            )
        } else {
            255
        }
    }

    /// The number that the next twelve bits make, past the end ones. The block stays.
    #[inline(always)]
    pub fn peek_twelve(&self) -> u16
        ensures twelve { BeginsWith self.now (word_bits 12 result) }
        ensures range { result < 2 ^ 12 }
    {
        if self.count >= 12 {
            ((self.word >> (self.count - 12)) % (1 << 12)) as u16
        } else {
            filled_word(self.word, self.count)
        }
    }

    /// Goes on behind the next bits.
    #[inline(always)]
    pub fn skip(&mut self, bits: u32)
        ensures { self.new ≡ drop bits self.old }
    {
        if bits <= self.count {
            let (word, count, rest) = refilled(self.word, self.count - bits, self.rest);
            let (word, count, tail_bits) = ended(word, count, rest, self.tail, self.tail_bits);
            self.word = word;
            self.count = count;
            self.tail_bits = tail_bits;
            self.rest = rest;
        } else {
            let past = bits - self.count;
            let left = tail_left(self.rest, self.tail_bits, past);
            let (word, count, rest) = behind(self.rest, past);
            let (word, count, tail_bits) = ended(word, count, rest, self.tail, left);
            self.word = word;
            self.count = count;
            self.tail_bits = tail_bits;
            self.rest = rest;
        }
    }
}

// The last bits of a word, so many, with ones behind them.
fn filled_word(word: u64, count: u32) -> u16
    requires { count < 12 }
    ensures bits { word_bits 12 result ≡ word_bits count word ++ replicate (12 - count) true }
    ensures range { result < 2 ^ 12 }
{
    let last = (word % (1 << count)) as u16;
    let ones = (1u16 << (12 - count)) - 1;
    (last << (12 - count)) + ones
}

// The same bits, of which the word has at least twelve or all.
fn refilled<'a>(word: u64, count: u32, rest: &'a [u8]) -> (u64, u32, &'a [u8])
    requires { count ≤ 64 }
    ensures bits { word_bits result.1 result.0 ++ bits_of result.2.now
        ≡ word_bits count word ++ bits_of rest.now }
    ensures count { result.1 ≤ 64 }
    ensures few { result.1 < 12 → result.2.now ≡ [] }
{
    if count >= 12 {
        return (word, count, rest);
    }
    if rest.len() >= 4 {
        return with_four(word, count, rest);
    }
    with_bytes(word, count, rest)
}

// The same bits, of which the word has four bytes more.
#[inline(always)]
fn with_four<'a>(word: u64, count: u32, rest: &'a [u8]) -> (u64, u32, &'a [u8])
    requires count { count ≤ 32 }
    requires bytes { 4 ≤ length rest.now }
    ensures bits { word_bits result.1 result.0 ++ bits_of result.2.now
        ≡ word_bits count word ++ bits_of rest.now }
    ensures count { result.1 ≡ count + 32 }
{
    let more = u32::from_be_bytes([rest[0], rest[1], rest[2], rest[3]]);
    let (_, after) = rest.split_at(4);
    (
        word % (1 << 32) * (1 << 32) + u64::from(more),
        count + 32,
        after,
    )
}

// The same bits, of which the word has as many bytes more as it has room for.
fn with_bytes<'a>(word: u64, count: u32, rest: &'a [u8]) -> (u64, u32, &'a [u8])
    requires { count ≤ 64 }
    ensures bits { word_bits result.1 result.0 ++ bits_of result.2.now
        ≡ word_bits count word ++ bits_of rest.now }
    ensures count { result.1 ≤ 64 }
    ensures few { result.1 < 12 → result.2.now ≡ [] }
{
    let mut word = word;
    let mut count = count;
    let mut rest = rest;
    'bytes: while count <= 56 && !rest.is_empty() {
        word = word % (1 << 56) * 256 + u64::from(rest[0]);
        count += 8;
        let (_, after) = rest.split_at(1);
        rest = after;
    }
    (word, count, rest)
}

// The same bits. A word that has fewer than twelve takes the tail's too: no bytes are between then.
#[inline(always)]
fn ended(word: u64, count: u32, rest: &[u8], tail: u8, tail_bits: u8) -> (u64, u32, u8)
    requires count { count ≤ 64 }
    requires few { count < 12 → rest.now ≡ [] }
    requires tail { tail_bits < 8 }
    ensures bits { word_bits result.1 result.0 ++ (bits_of rest.now ++ word_bits result.2 tail)
        ≡ word_bits count word ++ (bits_of rest.now ++ word_bits tail_bits tail) }
    ensures count { (count ≤ result.1) × (result.1 ≤ 64) }
    ensures few { result.1 < 12 → result.2 ≡ 0 }
    ensures tail { result.2 ≤ tail_bits }
{
    if count >= 12 || tail_bits == 0 {
        return (word, count, tail_bits);
    }
    let last = u32::from(tail_bits);
    let number = u64::from(tail) % (1 << last);
    let word = joined(word, count, number, last);
    (word, count + last, 0)
}

// How many bits of a tail are left behind some of the bits of bytes and of it.
fn tail_left(rest: &[u8], tail_bits: u8, bits: u32) -> u8
    ensures { result ≡ tail_bits - (bits - 8 * length rest.now) }
{
    let past = u128::from(bits).saturating_sub(8 * rest.len() as u128);
    u128::from(tail_bits).saturating_sub(past) as u8
}

// The bits behind some others.
#[tactic(auto, using(crate::proofs::Words::behinds))]
fn behind<'a>(rest: &'a [u8], bits: u32) -> (u64, u32, &'a [u8])
    ensures bits { word_bits result.1 result.0 ++ bits_of result.2.now
        ≡ drop bits (bits_of rest.now) }
    ensures count { result.1 ≤ 64 }
    ensures few { result.1 < 12 → result.2.now ≡ [] }
{
    let bytes = (bits / 8) as usize;
    if bytes >= rest.len() {
        let (_, after) = rest.split_at(rest.len());
        return (0, 0, after);
    }
    let (_, after) = rest.split_at(bytes);
    let (_, more) = after.split_at(1);
    refilled(u64::from(after[0]), 8 - bits % 8, more)
}
