ghost use Rattle.std.specs.Prelude.{◌≡◌, ◌+◌, ◌-◌, ◌*◌, ◌/◌, ◌%◌, ◌<◌, ◌≤◌, ◌^◌, ◌++◌, true, replicate, OnOk};
ghost use Rattle.std.specs.Prelude.{take, vec_len, vec_capacity};
ghost use Rattle.vc_types.specs.Bits.{bits_of};
ghost use Rattle.vc_bits.specs.Bits.{word_bits};

use vc_types::NoMemory;

// The last bits of a word, and others behind them.
#[inline(always)]
pub(crate) fn joined(word: u64, have: u32, number: u64, count: u32) -> u64
    requires count { have + count < 64 }
    requires number { number < 2 ^ count }
    ensures { word_bits (have + count) result ≡ word_bits have word ++ word_bits count number }
{
    (word << count) + number
}

// The number whose last bits are all the same.
pub(crate) fn repeated(bit: bool, count: u32) -> u64
    requires { count ≤ 32 }
    ensures value { word_bits count result ≡ replicate count bit }
    ensures range { result < 2 ^ count }
{
    if bit { (1u64 << count) - 1 } else { 0 }
}

// Room for two words of 32 bits behind the bytes, where it is needed.
#[inline(always)]
pub(crate) fn make_room(bytes: &mut Vec<u8>, needed: bool) -> Result<(), NoMemory>
    ensures items { bytes.new.items ≡ bytes.old.items }
    ensures len { vec_len bytes.new ≡ vec_len bytes.old }
    ensures capacity { vec_capacity bytes.old ≤ vec_capacity bytes.new }
    ensures room { OnOk result (needed ≡ true → vec_len bytes.new + 8 ≤ vec_capacity bytes.new) }
{
    if needed {
        bytes.reserve(8)?;
    }
    Ok(())
}

// Moves the first eight of a word's bits behind the bytes.
#[inline(always)]
fn push_first(bytes: &mut Vec<u8>, word: u64, count: u32)
    requires count { (8 ≤ count) × (count ≤ 64) }
    requires room { vec_len bytes.old < vec_capacity bytes.old }
    ensures bits { bits_of bytes.new.items ++ word_bits (count - 8) word
        ≡ bits_of bytes.old.items ++ word_bits count word }
    ensures len { vec_len bytes.new ≡ vec_len bytes.old + 1 }
    ensures capacity { vec_capacity bytes.new ≡ vec_capacity bytes.old }
{
    bytes.push_reserved(((word >> (count - 8)) % 256) as u8);
}

// Moves the first 32 of a word's bits behind the bytes.
#[inline(always)]
pub(crate) fn push_four(bytes: &mut Vec<u8>, word: u64, count: u32)
    requires count { (32 ≤ count) × (count ≤ 64) }
    requires room { vec_len bytes.old + 4 ≤ vec_capacity bytes.old }
    ensures bits { bits_of bytes.new.items ++ word_bits (count - 32) word
        ≡ bits_of bytes.old.items ++ word_bits count word }
    ensures len { vec_len bytes.new ≡ vec_len bytes.old + 4 }
    ensures capacity { vec_capacity bytes.new ≡ vec_capacity bytes.old }
{
    push_first(bytes, word, count);
    push_first(bytes, word, count - 8);
    push_first(bytes, word, count - 16);
    push_first(bytes, word, count - 24);
}

// Moves a word's bits behind the bytes, as many as make whole ones. Eight bytes are put there at once, and
// those that they don't fill are cut off again: so there is no test of how many they are.
#[inline(always)]
pub(crate) fn push_whole(bytes: &mut Vec<u8>, word: u64, count: u32)
    requires count { count < 64 }
    requires room { vec_len bytes.old + 8 ≤ vec_capacity bytes.old }
    ensures bits { bits_of bytes.new.items ++ word_bits (count % 8) word
        ≡ bits_of bytes.old.items ++ word_bits count word }
    ensures len { vec_len bytes.new ≡ vec_len bytes.old + count / 8 }
    ensures capacity { vec_capacity bytes.new ≡ vec_capacity bytes.old }
{
    let first = word << ((64 - count) % 64);
    push_four(bytes, first, 64);
    push_four(bytes, first, 32);
    cut_last(bytes, 8 - (count / 8) as usize);
}

// Cuts off so many bytes. One by one is a single subtraction once it is compiled; `truncate` would compare
// lengths.
#[inline(always)]
fn cut_last(bytes: &mut Vec<u8>, count: usize)
    requires { count ≤ vec_len bytes.old }
    ensures items { bytes.new.items ≡ take (vec_len bytes.old - count) bytes.old.items }
    ensures len { vec_len bytes.new ≡ vec_len bytes.old - count }
    ensures capacity { vec_capacity bytes.new ≡ vec_capacity bytes.old }
{
    let mut left = count;
    'last: while left > 0 {
        bytes.take_last();
        left -= 1;
    }
}

// Moves all of a word's bits behind the bytes: whole bytes, and up to four.
pub(crate) fn push_all(bytes: &mut Vec<u8>, word: u64, count: u32)
    requires count { (count ≤ 32) × (count % 8 ≡ 0) }
    requires room { 0 < count → vec_len bytes.old + 4 ≤ vec_capacity bytes.old }
    ensures bits { bits_of bytes.new.items ≡ bits_of bytes.old.items ++ word_bits count word }
{
    let mut left = count;
    'bytes: while left > 0 {
        push_first(bytes, word, left);
        left -= 8;
    }
}
