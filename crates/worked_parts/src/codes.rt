//! Rows of the codes of numbers.
use crate::said::Said;
use crate::words::{bytes_of, long_numbers, natural, number, parted, short_numbers};
use vc_bits::{BitReader, BitWriter, Block};
use vc_golomb::{
    UintRefusal, read_sint_bounded, read_sints, read_uint, sint_codes, write_behind_zeros,
    write_sint, write_uint,
};
use worked_common::{Bad, NamedBytes};

// Ones up to a whole byte, and then what was written.
fn add_finished(w: BitWriter, said: &mut Said) -> Result<(), Bad> {
    let mut w = w;
    w.align(true)?;
    said.bytes(w.finish().as_slice());
    Ok(())
}

fn write_unsigned(w: &mut BitWriter, number: i64) -> Result<(), Bad> {
    let size = number.unsigned_abs();
    if number < 0 || size >= 1 << 62 {
        return Err(Bad::NoRow);
    }
    write_uint(w, size)?;
    Ok(())
}

/// The unsigned codes of numbers one after another, and ones up to a whole byte.
pub(crate) fn unsigned(given: &str, said: &mut Said) -> Result<(), Bad> {
    let mut w = BitWriter::new(said.alloc());
    for number in long_numbers(said.alloc(), given)?.iter() {
        write_unsigned(&mut w, *number)?;
    }
    add_finished(w, said)
}

fn write_signed(w: &mut BitWriter, number: i64) -> Result<(), Bad> {
    if number.unsigned_abs() >= 1 << 62 {
        return Err(Bad::NoRow);
    }
    write_sint(w, number)?;
    Ok(())
}

/// The signed codes of numbers one after another, and ones up to a whole byte.
pub(crate) fn signed(given: &str, said: &mut Said) -> Result<(), Bad> {
    let mut w = BitWriter::new(said.alloc());
    for number in long_numbers(said.alloc(), given)?.iter() {
        write_signed(&mut w, *number)?;
    }
    add_finished(w, said)
}

/// The same, written at once.
pub(crate) fn signed_at_once(given: &str, said: &mut Said) -> Result<(), Bad> {
    let numbers = short_numbers(said.alloc(), given)?;
    if numbers.len() >= 1 << 60 {
        return Err(Bad::NoRow);
    }
    said.bytes(sint_codes(Vec::new(said.alloc()), numbers.as_slice())?.as_slice());
    Ok(())
}

// How many zeros, and the number behind them.
fn zeros_and_last(given: &str) -> Result<(u32, i64), Bad> {
    let (zeros, last) = parted(given);
    let zeros = natural(zeros)?;
    match i64::try_from(number(last)?) {
        Ok(last) => Ok((zeros, last)),
        Err(_) => Err(Bad::NoRow),
    }
}

/// So many codes of 0 and that of a number, and ones up to a whole byte.
pub(crate) fn behind_zeros(given: &str, said: &mut Said) -> Result<(), Bad> {
    let (zeros, last) = zeros_and_last(given)?;
    if last.unsigned_abs() >= 1 << 62 {
        return Err(Bad::NoRow);
    }
    let mut w = BitWriter::new(said.alloc());
    write_behind_zeros(&mut w, u64::from(zeros), last)?;
    add_finished(w, said)
}

fn name_of(refusal: UintRefusal) -> &'static str {
    match refusal {
        UintRefusal::End => "end",
        UintRefusal::TooLarge => "large",
    }
}

fn add_unsigned(r: &mut BitReader, most: u32, said: &mut Said) -> bool {
    match read_uint(r, most) {
        Ok(number) => {
            said.word(number);
            true
        }
        Err(refusal) => {
            said.word(name_of(refusal));
            false
        }
    }
}

fn add_all(r: &mut BitReader, most: u32, said: &mut Said) -> Result<(), Bad> {
    for _ in 0..100_000u32 {
        if !add_unsigned(r, most, said) {
            return Ok(());
        }
    }
    Err(Bad::NoRow)
}

/// The numbers up to a greatest one that are read of bytes by their unsigned codes, why the next one isn't,
/// and after how many bits.
pub(crate) fn read_unsigned(parts: &[NamedBytes], given: &str, said: &mut Said) -> Result<(), Bad> {
    let (most, bytes) = parted(given);
    let most = natural(most)?;
    let bytes = bytes_of(said.alloc(), parts, bytes)?;
    let mut r = BitReader::new(bytes.as_slice());
    add_all(&mut r, most, said)?;
    said.word("at");
    said.word(r.place());
    Ok(())
}

// How many numbers there are, and the greatest magnitude that they may have.
fn count_and_most(text: &str) -> Result<(u32, u64), Bad> {
    let Some((count, most)) = text.trim().split_once(' ') else {
        return Err(Bad::NoRow);
    };
    let count = natural(count)?;
    match u64::try_from(number(most)?) {
        Ok(most) => Ok((count, most)),
        Err(_) => Err(Bad::NoRow),
    }
}

/// So many numbers, up to a greatest magnitude, that are read of a block by their signed codes.
pub(crate) fn add_signed(block: &Block, count: u32, most: u64, said: &mut Said) -> Result<(), Bad> {
    if most > 1 << 62 {
        return Err(Bad::NoRow);
    }
    let mut block = block.copy();
    for _ in 0..count {
        match read_sint_bounded(&mut block, most) {
            Ok(number) => said.word(number),
            Err(_) => said.word("large"),
        }
    }
    Ok(())
}

/// So many numbers, up to a greatest magnitude, that are read of a block by their signed codes.
pub(crate) fn read_signed(parts: &[NamedBytes], given: &str, said: &mut Said) -> Result<(), Bad> {
    let (front, bytes) = parted(given);
    let (count, most) = count_and_most(front)?;
    let bytes = bytes_of(said.alloc(), parts, bytes)?;
    let mut r = BitReader::new(bytes.as_slice());
    match r.block(bytes.len()) {
        Ok(block) => add_signed(&block, count, most, said),
        Err(_) => Err(Bad::NoRow),
    }
}

/// So many numbers that are read of a block by their signed codes at once.
pub(crate) fn add_at_once(block: &Block, count: u32, said: &mut Said) -> Result<(), Bad> {
    let count = count as usize;
    let mut out = vec![in said.alloc(); 0i32; count + 8]?;
    match read_sints(block, count, out.as_mut_slice()) {
        Ok(_) => said.words(&out.as_slice()[..count]),
        Err(_) => said.word("large"),
    }
    Ok(())
}

/// So many numbers that are read of a block by their signed codes at once.
pub(crate) fn read_signed_at_once(
    parts: &[NamedBytes],
    given: &str,
    said: &mut Said,
) -> Result<(), Bad> {
    let (count, bytes) = parted(given);
    let count = natural(count)?;
    let bytes = bytes_of(said.alloc(), parts, bytes)?;
    let mut r = BitReader::new(bytes.as_slice());
    match r.block(bytes.len()) {
        Ok(block) => add_at_once(&block, count, said),
        Err(_) => Err(Bad::NoRow),
    }
}
