ghost use Rattle.std.specs.Prelude.{◌≡◌, ◌+◌, ◌-◌, ◌*◌, ◌%◌, ◌<◌, ◌≤◌, ◌^◌, ◌++◌, ◌∷◌, [], false, length};
ghost use Rattle.std.specs.Prelude.{replicate, vec_len, vec_capacity, IfOk, OnOk, OnErr, IsOk};
ghost use Rattle.vc_types.specs.Bits.{bits_of, byte_bits};
ghost use Rattle.vc_bits.specs.Bits.{to_edge, word_bits};

use crate::pending::{joined, make_room, push_all, push_four, repeated};
use std::alloc::Global;
use std::marker::Model;
use vc_types::NoMemory;

/// Writes bits, the most significant of each byte first. It is seen as the bits that were written.
#[derive(Drop)]
pub struct BitWriter {
    bytes: Vec<u8>,
    // The last bits are those of a word, and this many; the word's others are of no account. Where there are
    // some, the vector has room for their bytes.
    word: u64,
    count: u32,
}

impl Model for BitWriter {
    ghost use Rattle.std.specs.Prelude.{◌<◌, ◌≤◌, ◌+◌, ◌++◌, List, Bool, vec_len, vec_capacity};
    ghost use Rattle.vc_types.specs.Bits.{bits_of};
    ghost use Rattle.vc_bits.specs.Bits.{word_bits};

    ghost Value = { List Bool };

    ghost view = { λ w. bits_of w.bytes.items ++ word_bits w.count w.word };

    ghost invariant = { λ w. (w.count < 32)
        × (0 < w.count → vec_len w.bytes + 4 ≤ vec_capacity w.bytes) };
}

impl BitWriter {
    #[tactic(auto, using(crate::proofs::Waiting::starts))]
    pub fn new(alloc: Global) -> BitWriter
        ensures { result ≡ [] }
    {
        BitWriter {
            bytes: Vec::new(alloc),
            word: 0,
            count: 0,
        }
    }

    /// One that has room for so many bytes.
    #[tactic(auto, using(crate::proofs::Waiting::starts))]
    pub fn with_room(alloc: Global, bytes: usize) -> Result<BitWriter, NoMemory>
        ensures { IfOk result (λ w. w ≡ []) }
    {
        let bytes = Vec::with_capacity(alloc, bytes.saturating_add(8))?;
        Ok(BitWriter {
            bytes,
            word: 0,
            count: 0,
        })
    }

    /// Adds a bit at the end.
    pub fn bit(&mut self, bit: bool) -> Result<(), NoMemory>
        ensures ok { OnOk result (self.new ≡ self.old ++ bit ∷ []) }
        ensures err { OnErr result (self.new ≡ self.old) }
    {
        self.bits(u64::from(bit), 1)
    }

    /// Adds the last bits of a number, up to 32 of them, the most significant first. The number has no
    /// others.
    #[inline]
    pub fn bits(&mut self, number: u64, count: u32) -> Result<(), NoMemory>
        requires count { count ≤ 32 }
        requires number { number < 2 ^ count }
        ensures ok { OnOk result (self.new ≡ self.old ++ word_bits count number) }
        ensures err { OnErr result (self.new ≡ self.old) }
    {
        let filled = self.count + count;
        make_room(&mut self.bytes, self.count == 0 || filled >= 32)?;
        let word = joined(self.word, self.count, number, count);
        self.word = word;
        if filled >= 32 {
            push_four(&mut self.bytes, word, filled);
            self.count = filled - 32;
        } else {
            self.count = filled;
        }
        Ok(())
    }

    /// Adds the same bit `times` times. If memory runs out, the number of bits that were added is
    /// unspecified.
    pub fn repeat(&mut self, bit: bool, times: u64) -> Result<(), NoMemory>
        ensures { OnOk result (self.new ≡ self.old ++ replicate times bit) }
    {
        let mut left = times;
        'words: while left > 0 {
            let count = left.min(32) as u32;
            self.bits(repeated(bit, count), count)?;
            left -= u64::from(count);
        }
        Ok(())
    }

    /// Adds a byte.
    #[inline]
    pub fn byte(&mut self, byte: u8) -> Result<(), NoMemory>
        ensures { OnOk result (self.new ≡ self.old ++ byte_bits byte) }
    {
        self.bits(u64::from(byte), 8)
    }

    /// Fills the last byte.
    pub fn align(&mut self, fill: bool) -> Result<(), NoMemory>
        ensures ok { OnOk result (self.new
            ≡ self.old ++ replicate (to_edge (length self.old)) fill) }
        ensures err { OnErr result (self.new ≡ self.old) }
    {
        let missing = (8 - self.count % 8) % 8;
        self.bits(repeated(fill, missing), missing)
    }

    /// The bytes of which these are the bits. The last byte is filled with zeros.
    pub fn finish(self) -> Vec<u8>
        ensures { bits_of result.items ≡ self ++ replicate (to_edge (length self)) false }
    {
        let BitWriter {
            mut bytes,
            word,
            count,
        } = self;
        let missing = (8 - count % 8) % 8;
        push_all(&mut bytes, word << missing, count + missing);
        bytes
    }
}
