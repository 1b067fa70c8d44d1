//! Rows of quantisers and quantisation matrices.
ghost use Rattle.std.specs.Prelude.{◌≤◌, All, IfOk, IsTrue, unsigned_abs};

use crate::said::Said;
use crate::words::{long_numbers, natural, number, parted, range, short_numbers};
use std::alloc::Global;
use vc_quant::{Quantiser, default_matrix, dequant, factor, last_index_with, offset, quant};
use worked_common::Bad;

// The first and the last index of a range.
fn indices(given: &str) -> Result<(u8, u8), Bad>
    ensures { IfOk result (λ x. x.1 ≤ 127) }
{
    let (first, last) = range(given)?;
    if first > 127 || last > 127 {
        return Err(Bad::NoRow);
    }
    Ok((first as u8, last as u8))
}

/// The factors of a range of indices.
pub(crate) fn factors(given: &str, said: &mut Said) -> Result<(), Bad> {
    let (first, last) = indices(given)?;
    for q in first..=last {
        said.word(factor(q));
    }
    Ok(())
}

/// The offsets of a range of indices.
pub(crate) fn offsets(given: &str, said: &mut Said) -> Result<(), Bad> {
    let (first, last) = indices(given)?;
    for q in first..=last {
        said.word(offset(q));
    }
    Ok(())
}

fn index(word: &str) -> Result<u8, Bad>
    ensures { IfOk result (λ q. q ≤ 127) }
{
    let index = natural(word)?;
    if index > 127 {
        return Err(Bad::NoRow);
    }
    Ok(index as u8)
}

// An index, and numbers.
#[derive(Drop)]
struct Indexed {
    q: u8,
    numbers: Vec<i64>,
    ghost small: { q ≤ 127 },
}

fn indexed_of(alloc: Global, given: &str) -> Result<Indexed, Bad> {
    let (index_word, numbers) = parted(given);
    let q = index(index_word)?;
    let numbers = long_numbers(alloc, numbers)?;
    Ok(Indexed { q, numbers })
}

/// The coefficients that numbers stand for at an index.
pub(crate) fn dequantised(given: &str, said: &mut Said) -> Result<(), Bad> {
    let of = indexed_of(said.alloc(), given)?;
    for m in of.numbers.iter() {
        if m.unsigned_abs() > 1 << 62 {
            return Err(Bad::NoRow);
        }
        said.word(dequant(*m, of.q));
    }
    Ok(())
}

/// The numbers that coefficients are quantised to at an index.
pub(crate) fn quantised(given: &str, said: &mut Said) -> Result<(), Bad> {
    let of = indexed_of(said.alloc(), given)?;
    for c in of.numbers.iter() {
        if c.unsigned_abs() >= 1 << 60 {
            return Err(Bad::NoRow);
        }
        said.word(quant(*c, of.q));
    }
    Ok(())
}

// Whether all magnitudes are at most so large.
fn are_within(numbers: &[i32], greatest: u32) -> bool
    ensures { IsTrue result → All (λ z. unsigned_abs z ≤ greatest) numbers.now }
{
    numbers.iter().all(|z| z.unsigned_abs() <= greatest)
}

// An index and a greatest magnitude.
fn index_and_greatest(text: &str) -> Result<(u8, u32), Bad>
    ensures { IfOk result (λ x. x.0 ≤ 127) }
{
    let Some((index_word, greatest)) = text.trim().split_once(' ') else {
        return Err(Bad::NoRow);
    };
    let q = index(index_word)?;
    let greatest = natural(greatest)?;
    Ok((q, greatest))
}

// An index, a greatest magnitude, and numbers up to that.
#[derive(Drop)]
struct Bounded {
    q: u8,
    greatest: u32,
    cells: Vec<i32>,
    ghost small: { q ≤ 127 },
    ghost within: { All (λ z. unsigned_abs z ≤ greatest) cells.items },
}

fn bounded_of(alloc: Global, given: &str) -> Result<Bounded, Bad> {
    let (front, numbers) = parted(given);
    let (q, greatest) = index_and_greatest(front)?;
    let cells = short_numbers(alloc, numbers)?;
    if !are_within(cells.as_slice(), greatest) {
        return Err(Bad::NoRow);
    }
    Ok(Bounded { q, greatest, cells })
}

/// The coefficients of numbers up to a greatest magnitude, at once, or that they may be too wide for 32 bits.
pub(crate) fn dequantised_at_once(given: &str, said: &mut Said) -> Result<(), Bad> {
    let Bounded {
        q,
        greatest,
        mut cells,
    } = bounded_of(said.alloc(), given)?;
    if Quantiser::new(q).dequant_all(cells.as_mut_slice(), greatest) {
        said.words(cells.as_slice());
    } else {
        said.word("wide");
    }
    Ok(())
}

/// The numbers of coefficients up to a greatest magnitude, at once.
pub(crate) fn quantised_at_once(given: &str, said: &mut Said) -> Result<(), Bad> {
    let Bounded { q, greatest, cells } = bounded_of(said.alloc(), given)?;
    let mut numbers = vec![in said.alloc(); 0i32; cells.len()]?;
    Quantiser::new(q).quant_to(cells.as_slice(), numbers.as_mut_slice(), greatest);
    said.words(numbers.as_slice());
    Ok(())
}

fn last_index(digits: u32, magnitude: u64) -> Result<u8, Bad> {
    if digits < 1 || digits > 60 || magnitude >= 1 << 60 || 1u64 << digits > magnitude + 1 {
        return Err(Bad::NoRow);
    }
    Ok(last_index_with(digits, magnitude))
}

fn magnitude(word: &str) -> Result<u64, Bad> {
    match u64::try_from(number(word)?) {
        Ok(magnitude) => Ok(magnitude),
        Err(_) => Err(Bad::NoRow),
    }
}

/// The last index at which magnitudes are quantised to numbers that have so many digits where 1 is added.
pub(crate) fn last_indices(given: &str, said: &mut Said) -> Result<(), Bad> {
    let (digits, magnitudes) = parted(given);
    let digits = natural(digits)?;
    for word in magnitudes.split_whitespace() {
        said.word(last_index(digits, magnitude(word)?)?);
    }
    Ok(())
}

/// The default matrix of a wavelet at a depth, if there is one.
pub(crate) fn matrix(given: &str, said: &mut Said) -> Result<(), Bad> {
    let Some((wavelet, depth)) = given.trim().split_once(' ') else {
        return Err(Bad::NoRow);
    };
    let (wavelet, depth) = (natural(wavelet)?, natural(depth)?);
    if wavelet > 6 || depth < 1 || depth > 5 {
        return Err(Bad::NoRow);
    }
    match default_matrix(wavelet as u8, depth as u8) {
        Ok(matrix) => said.words(&matrix),
        Err(_) => said.word("none"),
    }
    Ok(())
}
