//! Rows of bits that are read and written.
ghost use Rattle.std.specs.Prelude.{◌≤◌, ◌<◌, ◌^◌, IsTrue};

use crate::codes::{add_at_once, add_signed};
use crate::said::Said;
use crate::words::{bytes_of, natural, parted};
use vc_bits::{BitReader, BitWriter, Block};
use worked_common::{Bad, NamedBytes};

// What a read is called and how many bits it is of, as in bits:3.
fn read_of(word: &str) -> Result<(&str, u32), Bad> {
    let (name, count) = word.split_once(':').unwrap_or((word, "0"));
    Ok((name, natural(count)?))
}

fn add_bits(r: &mut BitReader, count: u32, said: &mut Said) -> Result<(), Bad> {
    if count > 32 {
        return Err(Bad::NoRow);
    }
    match r.bits(count) {
        Ok(number) => said.word(number),
        Err(_) => said.word("end"),
    }
    Ok(())
}

fn add_bit(r: &mut BitReader, said: &mut Said) {
    match r.bit() {
        Ok(bit) => said.word(u8::from(bit)),
        Err(_) => said.word("end"),
    }
}

fn add_block(r: &mut BitReader, count: u32, said: &mut Said) -> Result<(), Bad> {
    if r.place() % 8 != 0 {
        return Err(Bad::NoRow);
    }
    match r.block(count as usize) {
        Ok(_) => said.word("block"),
        Err(_) => said.word("end"),
    }
    Ok(())
}

// The bits of a block of so many, and four behind its end.
fn add_bits_past(block: &Block, count: u32, said: &mut Said) {
    let mut block = block.copy();
    for _ in 0..u64::from(count) + 4 {
        let bit = u8::from(block.bit());
        write!(said, "{bit}");
    }
    said.word("");
}

// A block of so many bits: its bits, and the numbers whose codes come first, one by one and at once.
fn add_block_bits(r: &mut BitReader, count: u32, said: &mut Said) -> Result<(), Bad> {
    let Ok(block) = r.block_bits(count as usize) else {
        said.word("end");
        return Ok(());
    };
    add_bits_past(&block, count, said);
    add_signed(&block, 6, 1 << 62, said)?;
    add_at_once(&block, 6, said)
}

fn skip(r: &mut BitReader, count: u32) -> Result<(), Bad> {
    if r.bits_left() < u128::from(count) {
        return Err(Bad::NoRow);
    }
    r.skip(count);
    Ok(())
}

fn add_read(r: &mut BitReader, word: &str, said: &mut Said) -> Result<(), Bad> {
    let (name, count) = read_of(word)?;
    match name {
        "bits" => add_bits(r, count, said),
        "block" => add_block(r, count, said),
        "block-bits" => add_block_bits(r, count, said),
        "skip" => skip(r, count),
        _ => add_uncounted(r, name, said),
    }
}

// A read that needs no number of bits.
fn add_uncounted(r: &mut BitReader, name: &str, said: &mut Said) -> Result<(), Bad> {
    match name {
        "bit" => add_bit(r, said),
        "peek" => said.word(r.peek()),
        "place" => said.word(r.place()),
        "left" => said.word(r.bits_left()),
        "whole" => said.word(r.bytes_left()),
        "align" => r.align(),
        _ => return Err(Bad::NoRow),
    }
    Ok(())
}

/// What reads of bits answer, one after another.
pub(crate) fn read(parts: &[NamedBytes], given: &str, said: &mut Said) -> Result<(), Bad> {
    let (bytes, reads) = parted(given);
    let bytes = bytes_of(said.alloc(), parts, bytes)?;
    let mut r = BitReader::new(bytes.as_slice());
    for word in reads.split_whitespace() {
        add_read(&mut r, word, said)?;
    }
    Ok(())
}

fn add_block_read(block: &mut Block, word: &str, said: &mut Said) -> Result<(), Bad> {
    let (name, count) = read_of(word)?;
    match name {
        "bit" => said.word(u8::from(block.bit())),
        "peek" => said.word(block.peek()),
        "twelve" => said.word(block.peek_twelve()),
        "skip" => block.skip(count),
        _ => return Err(Bad::NoRow),
    }
    Ok(())
}

fn add_block_reads(block: Block, reads: &str, said: &mut Said) -> Result<(), Bad> {
    let mut block = block;
    for word in reads.split_whitespace() {
        add_block_read(&mut block, word, said)?;
    }
    Ok(())
}

/// What reads of a block's bits answer, one after another.
pub(crate) fn read_block(parts: &[NamedBytes], given: &str, said: &mut Said) -> Result<(), Bad> {
    let (bytes, reads) = parted(given);
    let bytes = bytes_of(said.alloc(), parts, bytes)?;
    let mut r = BitReader::new(bytes.as_slice());
    match r.block(bytes.len()) {
        Ok(block) => add_block_reads(block, reads, said),
        Err(_) => Err(Bad::NoRow),
    }
}

// Whether a number has so many bits at most.
fn has_bits(number: u64, count: u32) -> bool
    requires { count ≤ 32 }
    ensures { IsTrue result → number < 2 ^ count }
{
    number < 1 << count
}

fn write_bits(w: &mut BitWriter, number: u32, count: u32) -> Result<(), Bad> {
    if count > 32 {
        return Err(Bad::NoRow);
    }
    let number = u64::from(number);
    if !has_bits(number, count) {
        return Err(Bad::NoRow);
    }
    w.bits(number, count)?;
    Ok(())
}

// A bit as 1, a number of so many bits as 22/5, a bit so many times as 1*9, and how the last byte is
// filled, as fill:1.
fn write_word(w: &mut BitWriter, word: &str) -> Result<(), Bad> {
    if let Some((number, count)) = word.split_once('/') {
        return write_bits(w, natural(number)?, natural(count)?);
    }
    if let Some((bit, times)) = word.split_once('*') {
        w.repeat(bit == "1", u64::from(natural(times)?))?;
        return Ok(());
    }
    write_bit(w, word)
}

fn write_bit(w: &mut BitWriter, word: &str) -> Result<(), Bad> {
    match word {
        "0" => w.bit(false)?,
        "1" => w.bit(true)?,
        "fill:0" => w.align(false)?,
        "fill:1" => w.align(true)?,
        _ => return Err(Bad::NoRow),
    }
    Ok(())
}

/// The bytes of bits that are written one after another, by a writer that has room for so many bytes.
pub(crate) fn write(given: &str, said: &mut Said) -> Result<(), Bad> {
    let (room, writes) = parted(given);
    let mut w = BitWriter::with_room(said.alloc(), natural(room)? as usize)?;
    for word in writes.split_whitespace() {
        write_word(&mut w, word)?;
    }
    said.bytes(w.finish().as_slice());
    Ok(())
}
