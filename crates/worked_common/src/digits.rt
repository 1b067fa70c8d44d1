use crate::entries::{put_entry, split_entry};
use crate::range::range_of;
use std::alloc::{AllocError, AllocFailed, Global};
use vc_types::NoMemory;

/// Why a line, or a row, can't be tried.
#[derive(Drop, Clone, Copy)]
pub enum Bad {
    NoMemory,
    NoRow,
}

impl From<AllocError> for Bad {
    fn from(_error: AllocError) -> Bad {
        Bad::NoMemory
    }
}

impl<T: Drop> From<AllocFailed<T>> for Bad {
    fn from(_error: AllocFailed<T>) -> Bad {
        Bad::NoMemory
    }
}

impl From<NoMemory> for Bad {
    fn from(_error: NoMemory) -> Bad {
        Bad::NoMemory
    }
}

/// Bytes that have a name.
#[derive(Drop)]
pub struct NamedBytes {
    pub name: String,
    pub bytes: Vec<u8>,
}

// The bytes of pairs of hexadecimal digits.
fn pairs(alloc: Global, text: &str) -> Result<Vec<u8>, Bad> {
    match hex::decode(alloc, text) {
        Ok(bytes) => Ok(bytes),
        Err(_) => Err(Bad::NoRow),
    }
}

fn part_of<'a>(parts: &'a [NamedBytes], name: &str) -> Result<&'a [u8], Bad> {
    match parts.iter().find(|part| part.name.as_str() == name) {
        Some(part) => Ok(part.bytes.as_slice()),
        None => Err(Bad::NoRow),
    }
}

// A part by its name, or entries of it by their places, as header, sent/3 and sent/0..3.
fn put_part(parts: &[NamedBytes], text: &str, into: &mut Vec<u8>) -> Result<(), Bad> {
    match text.split_once('/') {
        Some((name, places)) => put_entries(part_of(parts, name)?, places, into),
        None => Ok(into.extend_from_slice(part_of(parts, text)?)?),
    }
}

// The entries at some places, each with its length.
fn put_entries(entries: &[u8], places: &str, into: &mut Vec<u8>) -> Result<(), Bad> {
    let (first, last) = range_of(places)?;
    let mut rest = entries;
    for place in 0..=last {
        let Some((entry, more)) = split_entry(rest) else {
            return Err(Bad::NoRow);
        };
        if place >= first {
            put_entry(entry, into)?;
        }
        rest = more;
    }
    Ok(())
}

// A part as @header, or pairs of digits.
fn put_one(alloc: Global, parts: &[NamedBytes], text: &str, into: &mut Vec<u8>) -> Result<(), Bad> {
    if let Some(part) = text.strip_prefix('@') {
        return put_part(parts, part, into);
    }
    into.extend_from_slice(&pairs(alloc, text)?)?;
    Ok(())
}

// Such a one, or many of it, as 80*96.
fn put_word(
    alloc: Global,
    parts: &[NamedBytes],
    word: &str,
    into: &mut Vec<u8>,
) -> Result<(), Bad> {
    let (text, count) = word.split_once('*').unwrap_or((word, "1"));
    let Ok(count) = count.parse::<u32>() else {
        return Err(Bad::NoRow);
    };
    for _ in 0..count {
        put_one(alloc, parts, text, into)?;
    }
    Ok(())
}

/// Puts what a text says after some bytes: its words, and what is between [ and ], with its length in two
/// bytes before it.
pub fn put(alloc: Global, parts: &[NamedBytes], text: &str, into: &mut Vec<u8>) -> Result<(), Bad> {
    let mut inner: Option<Vec<u8>> = None;
    for word in text.split_whitespace() {
        match (word, inner.take()) {
            ("[", None) => inner = Some(Vec::new(alloc)),
            ("]", Some(bytes)) => put_entry(&bytes, into)?,
            (_, Some(mut bytes)) => {
                put_word(alloc, parts, word, &mut bytes)?;
                inner = Some(bytes);
            }
            (_, None) => put_word(alloc, parts, word, into)?,
        }
    }
    match inner {
        Some(_) => Err(Bad::NoRow),
        None => Ok(()),
    }
}
