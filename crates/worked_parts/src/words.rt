//! The words of rows: numbers, and bytes as pairs of digits.
use crate::said::Said;
use std::alloc::Global;
use worked_common::{Bad, NamedBytes, put};

/// A word, and how many of it, as in 0*64.
pub(crate) fn times(word: &str) -> Result<(&str, u32), Bad> {
    let (word, count) = word.split_once('*').unwrap_or((word, "1"));
    Ok((word, natural(count)?))
}

/// A number that isn't negative.
pub(crate) fn natural(word: &str) -> Result<u32, Bad> {
    match word.trim().parse::<u32>() {
        Ok(number) => Ok(number),
        Err(_) => Err(Bad::NoRow),
    }
}

/// A whole number.
pub(crate) fn number(word: &str) -> Result<i128, Bad> {
    match word.trim().parse::<i128>() {
        Ok(number) => Ok(number),
        Err(_) => Err(Bad::NoRow),
    }
}

/// Two numbers with a mark between them, as in 13x6.
pub(crate) fn two(word: &str, mark: char) -> Result<(u32, u32), Bad> {
    match word.split_once(mark) {
        Some((first, second)) => Ok((natural(first)?, natural(second)?)),
        None => Err(Bad::NoRow),
    }
}

/// The first and the last number of a range, as in 2..40.
pub(crate) fn range(word: &str) -> Result<(u32, u32), Bad> {
    match word.split_once("..") {
        Some((first, last)) => Ok((natural(first)?, natural(last)?)),
        None => Err(Bad::NoRow),
    }
}

/// What stands on either side of a colon: nothing behind it, where there is none.
pub(crate) fn parted(text: &str) -> (&str, &str) {
    text.split_once(':').unwrap_or((text, ""))
}

fn add_times(numbers: &mut Vec<i128>, word: &str) -> Result<(), Bad> {
    let (word, count) = times(word)?;
    let number = number(word)?;
    for _ in 0..count {
        numbers.push(number)?;
    }
    Ok(())
}

/// The numbers of a text.
pub(crate) fn numbers(alloc: Global, text: &str) -> Result<Vec<i128>, Bad> {
    let mut numbers = Vec::new(alloc);
    for word in text.split_whitespace() {
        add_times(&mut numbers, word)?;
    }
    Ok(numbers)
}

/// The numbers of a text, which fit 64 bits.
pub(crate) fn long_numbers(alloc: Global, text: &str) -> Result<Vec<i64>, Bad> {
    let mut fitting = Vec::new(alloc);
    for number in numbers(alloc, text)?.iter() {
        match i64::try_from(*number) {
            Ok(number) => fitting.push(number)?,
            Err(_) => return Err(Bad::NoRow),
        }
    }
    Ok(fitting)
}

/// The numbers of a text, which fit 32 bits.
pub(crate) fn short_numbers(alloc: Global, text: &str) -> Result<Vec<i32>, Bad> {
    let mut fitting = Vec::new(alloc);
    for number in numbers(alloc, text)?.iter() {
        match i32::try_from(*number) {
            Ok(number) => fitting.push(number)?,
            Err(_) => return Err(Bad::NoRow),
        }
    }
    Ok(fitting)
}

/// The samples of a text.
pub(crate) fn samples(alloc: Global, text: &str) -> Result<Vec<u16>, Bad> {
    let mut samples = Vec::new(alloc);
    for number in numbers(alloc, text)?.iter() {
        match u16::try_from(*number) {
            Ok(sample) => samples.push(sample)?,
            Err(_) => return Err(Bad::NoRow),
        }
    }
    Ok(samples)
}

/// The bytes that a text says.
pub(crate) fn bytes_of(alloc: Global, parts: &[NamedBytes], text: &str) -> Result<Vec<u8>, Bad> {
    let mut bytes = Vec::new(alloc);
    put(alloc, parts, text, &mut bytes)?;
    Ok(bytes)
}

/// The sum of numbers, each times its place, counted from 1.
pub(crate) fn weighed<N: Copy + Into<i128>>(numbers: &[N]) -> i128 {
    let mut sum: i128 = 0;
    let mut place: i128 = 1;
    for number in numbers {
        let number: i128 = (*number).into();
        sum = sum.wrapping_add(number.wrapping_mul(place));
        place = place.wrapping_add(1);
    }
    sum
}

fn spread_word(parts: &[NamedBytes], word: &str, said: &mut Said) -> Result<(), Bad> {
    if word.starts_with('@') {
        said.bytes(bytes_of(said.alloc(), parts, word)?.as_slice());
        return Ok(());
    }
    let (word, count) = times(word)?;
    for _ in 0..count {
        said.word(word);
    }
    Ok(())
}

/// The words of a text, with one space behind each: many of a word where it is as 0*64, and the bytes of
/// parts.
pub(crate) fn spread(alloc: Global, parts: &[NamedBytes], text: &str) -> Result<String, Bad> {
    let mut said = Said::new(alloc);
    for word in text.split_whitespace() {
        spread_word(parts, word, &mut said)?;
    }
    said.into_text()
}
