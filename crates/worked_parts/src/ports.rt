//! Rows of sources and sinks in memory.
use crate::said::Said;
use crate::words::{bytes_of, natural, parted};
use std::alloc::Global;
use vc_ports::{
    Filled, Got, MemSink, MemSource, PlainSink, PlainSource, Sink, Source, Took, fill, write_all,
};
use worked_common::{Bad, NamedBytes};

/// The numbers of the calls that fail.
pub(crate) fn fails(alloc: Global, text: &str) -> Result<Vec<u64>, Bad> {
    let mut fails = Vec::new(alloc);
    for word in text.split_whitespace() {
        fails.push(u64::from(natural(word)?))?;
    }
    Ok(fails)
}

fn buffer(alloc: Global, word: &str) -> Result<Vec<u8>, Bad> {
    let size = natural(word)? as usize;
    let buffer = vec![in alloc; 9u8; size]?;
    Ok(buffer)
}

/// The front of a buffer.
pub(crate) fn add_front(buffer: &[u8], count: usize, said: &mut Said) -> Result<(), Bad> {
    match buffer.split_at_checked(count) {
        Some((front, _)) => said.bytes(front),
        None => return Err(Bad::NoRow),
    }
    Ok(())
}

fn add_read<S: Source>(source: &mut S, buffer: &mut [u8], said: &mut Said) -> Result<(), Bad> {
    if buffer.len() == 0 {
        return Err(Bad::NoRow);
    }
    match source.read(buffer) {
        Got::Bytes(count) => return add_front(buffer, count, said),
        Got::End => said.word("end"),
        Got::Failed => said.word("failed"),
    }
    Ok(())
}

fn add_reads<S: Source>(source: &mut S, sizes: &str, said: &mut Said) -> Result<(), Bad> {
    for word in sizes.split_whitespace() {
        let mut buffer = buffer(said.alloc(), word)?;
        add_read(source, buffer.as_mut_slice(), said)?;
    }
    Ok(())
}

/// A source of bytes, whose calls of these numbers fail.
pub(crate) fn failing_source(
    alloc: Global,
    parts: &[NamedBytes],
    given: &str,
) -> Result<MemSource, Bad> {
    let (numbers, bytes) = parted(given);
    let bytes = bytes_of(alloc, parts, bytes)?;
    Ok(MemSource::new(bytes, fails(alloc, numbers)?))
}

/// How many bytes a source has left, or that there are 64 or more.
pub(crate) fn add_left<S: Source>(source: &mut S, said: &mut Said) {
    match fill(source, &mut [0; 64]) {
        Filled::Whole => said.word("more"),
        Filled::End(count) | Filled::Failed(count) => write!(said, "left {count} "),
    }
}

// A source of bytes, whose calls of these numbers fail, and what stands behind.
fn source<'a>(
    alloc: Global,
    parts: &[NamedBytes],
    given: &'a str,
) -> Result<(MemSource, &'a str), Bad> {
    let (numbers, rest) = parted(given);
    let (bytes, sizes) = parted(rest);
    let bytes = bytes_of(alloc, parts, bytes)?;
    Ok((MemSource::new(bytes, fails(alloc, numbers)?), sizes))
}

/// What reads into buffers of these sizes answer, where the calls of these numbers fail.
pub(crate) fn memory_source(parts: &[NamedBytes], given: &str, said: &mut Said) -> Result<(), Bad> {
    let (mut source, sizes) = source(said.alloc(), parts, given)?;
    add_reads(&mut source, sizes, said)
}

/// The same of a source that never fails.
pub(crate) fn plain_source(parts: &[NamedBytes], given: &str, said: &mut Said) -> Result<(), Bad> {
    let (bytes, sizes) = parted(given);
    let mut source = PlainSource::new(bytes_of(said.alloc(), parts, bytes)?);
    add_reads(&mut source, sizes, said)
}

fn add_filled<S: Source>(source: &mut S, buffer: &mut [u8], said: &mut Said) -> Result<(), Bad> {
    let length = buffer.len();
    let (count, what) = match fill(source, buffer) {
        Filled::Whole => (length, "whole"),
        Filled::End(count) => (count, "end"),
        Filled::Failed(count) => (count, "failed"),
    };
    add_front(buffer, count, said)?;
    said.word(what);
    Ok(())
}

fn add_all_filled<S: Source>(source: &mut S, sizes: &str, said: &mut Said) -> Result<(), Bad> {
    for word in sizes.split_whitespace() {
        let mut buffer = buffer(said.alloc(), word)?;
        add_filled(source, buffer.as_mut_slice(), said)?;
    }
    Ok(())
}

/// What filling buffers of these sizes comes to, where the reads of these numbers fail.
pub(crate) fn filled(parts: &[NamedBytes], given: &str, said: &mut Said) -> Result<(), Bad> {
    let (mut source, sizes) = source(said.alloc(), parts, given)?;
    add_all_filled(&mut source, sizes, said)
}

// A sink of so many bytes, whose calls of these numbers fail.
fn sink(alloc: Global, text: &str) -> Result<MemSink, Bad> {
    let (room, numbers) = text.trim().split_once(' ').unwrap_or((text, ""));
    Ok(MemSink::new(alloc, natural(room)? as usize, fails(alloc, numbers)?)?)
}

// The bytes of each piece of a text, between which strokes stand.
fn pieces_of(alloc: Global, parts: &[NamedBytes], text: &str) -> Result<Vec<Vec<u8>>, Bad> {
    let mut pieces = Vec::new(alloc);
    for piece in text.split('/') {
        pieces.push(bytes_of(alloc, parts, piece)?)?;
    }
    Ok(pieces)
}

// A sink, and the bytes of each piece that is written to it.
fn sink_and_pieces(
    alloc: Global,
    parts: &[NamedBytes],
    given: &str,
) -> Result<(MemSink, Vec<Vec<u8>>), Bad> {
    let (front, pieces) = parted(given);
    Ok((sink(alloc, front)?, pieces_of(alloc, parts, pieces)?))
}

fn add_write<O: Sink>(sink: &mut O, piece: &[u8], said: &mut Said) -> Result<(), Bad> {
    if piece.is_empty() {
        return Err(Bad::NoRow);
    }
    match sink.write(piece) {
        Took::Bytes(count) => said.word(count),
        Took::Failed => said.word("failed"),
    }
    Ok(())
}

fn add_writes<O: Sink>(sink: &mut O, pieces: &[Vec<u8>], said: &mut Said) -> Result<(), Bad> {
    for piece in pieces {
        add_write(sink, piece.as_slice(), said)?;
    }
    Ok(())
}

fn add_held(sink: &MemSink, said: &mut Said) {
    said.word("held");
    said.bytes(sink.bytes());
}

/// What writes of pieces answer, and what is held then, by a sink that has room for so many bytes.
pub(crate) fn memory_sink(parts: &[NamedBytes], given: &str, said: &mut Said) -> Result<(), Bad> {
    let (mut sink, pieces) = sink_and_pieces(said.alloc(), parts, given)?;
    add_writes(&mut sink, pieces.as_slice(), said)?;
    add_held(&sink, said);
    Ok(())
}

/// What a sink that drops all answers.
pub(crate) fn plain_sink(parts: &[NamedBytes], given: &str, said: &mut Said) -> Result<(), Bad> {
    let pieces = pieces_of(said.alloc(), parts, given)?;
    add_writes(&mut PlainSink::new(), pieces.as_slice(), said)
}

fn add_whole(sink: &mut MemSink, piece: &[u8], said: &mut Said) {
    match write_all(sink, piece) {
        Ok(()) => said.word("written"),
        Err(_) => said.word("failed"),
    }
}

/// What writes of whole pieces come to, and what is held then.
pub(crate) fn written(parts: &[NamedBytes], given: &str, said: &mut Said) -> Result<(), Bad> {
    let (mut sink, pieces) = sink_and_pieces(said.alloc(), parts, given)?;
    for piece in pieces.iter() {
        add_whole(&mut sink, piece.as_slice(), said);
    }
    add_held(&sink, said);
    Ok(())
}
