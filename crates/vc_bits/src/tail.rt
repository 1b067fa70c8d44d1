ghost use Rattle.std.specs.Prelude.{◌≡◌, ◌+◌, ◌-◌, ◌*◌, ◌%◌, ◌<◌, ◌≤◌, ◌^◌, ◌++◌, [], length, replicate};
ghost use Rattle.std.specs.Prelude.{vec_len, vec_capacity};
ghost use Rattle.vc_types.specs.Bits.{bits_of};
ghost use Rattle.vc_bits.specs.Bits.{to_edge, word_bits};

use crate::pending::{joined, push_all, push_whole, repeated};
use std::marker::Model;

/// Bits behind bytes that wait until they make another one. It is seen as these bits.
#[derive(Drop)]
pub struct BitTail {
    // They are the last bits of a word, and this many. The others are of no account.
    word: u64,
    count: u32,
}

impl Model for BitTail {
    ghost use Rattle.std.specs.Prelude.{◌<◌, List, Bool};
    ghost use Rattle.vc_bits.specs.Bits.{word_bits};

    ghost Value = { List Bool };

    ghost view = { λ w. word_bits w.count w.word };

    ghost invariant = { λ w. w.count < 8 };
}

impl BitTail {
    pub fn new() -> BitTail
        ensures { result ≡ [] }
    {
        BitTail { word: 0, count: 0 }
    }

    /// Adds the last bits of a number, up to 56 of them, the most significant first. The number has no
    /// others. The bytes have room for eight more.
    #[inline(always)]
    pub fn add(&mut self, bytes: &mut Vec<u8>, number: u64, count: u32)
        requires count { count ≤ 56 }
        requires number { number < 2 ^ count }
        requires room { vec_len bytes.old + 8 ≤ vec_capacity bytes.old }
        ensures bits { bits_of bytes.new.items ++ self.new
            ≡ (bits_of bytes.old.items ++ self.old) ++ word_bits count number }
        ensures len { 8 * vec_len bytes.new + length self.new
            ≡ 8 * vec_len bytes.old + length self.old + count }
        ensures capacity { vec_capacity bytes.new ≡ vec_capacity bytes.old }
    {
        let filled = self.count + count;
        let word = joined(self.word, self.count, number, count);
        push_whole(bytes, word, filled);
        self.count = filled % 8;
        self.word = word;
    }

    /// Puts the bits behind the bytes, and the same bit up to a whole byte. The bytes have room for four
    /// more.
    pub fn finish(self, bytes: &mut Vec<u8>, fill: bool)
        requires room { vec_len bytes.old + 4 ≤ vec_capacity bytes.old }
        ensures { bits_of bytes.new.items ≡ (bits_of bytes.old.items ++ self)
            ++ replicate (to_edge (length (bits_of bytes.old.items ++ self))) fill }
    {
        let missing = (8 - self.count) % 8;
        let word = joined(self.word, self.count, repeated(fill, missing), missing);
        push_all(bytes, word, self.count + missing);
    }
}
