//! Captures, and the words that they are decoded by.

use link_program::link_main;
use run_counts::RunCounts;
use std::alloc::Global;
use std::test::Fail;
use std::thread::Threads;
use vc_ports::{MemSink, MemWire, NoPace, Source};
use vc_slice::Hands;
use vc_types::{NoMemory, Words};

/// What the program writes to, calls and tells.
#[derive(Drop)]
pub(crate) struct Outside {
    pub(crate) output: MemSink,
    report: MemSink,
    wire: MemWire,
    pub(crate) counts: RunCounts,
}

impl Outside {
    /// An output that has room for so many bytes, a report, a wire that nothing comes from, and counts.
    pub(crate) fn new(alloc: Global, room: usize) -> Result<Outside, NoMemory> {
        Ok(Outside {
            output: MemSink::new(alloc, room, Vec::new(alloc))?,
            report: MemSink::new(alloc, 1000, Vec::new(alloc))?,
            wire: MemWire::new(alloc, Vec::new(alloc), false, 0, Vec::new(alloc))?,
            counts: RunCounts::new(),
        })
    }

    /// Does what the words ask for, and answers the status.
    pub(crate) fn run<H: Threads + Copy + Send + Sync, S: Source, P: Hands>(
        &mut self,
        rt: H,
        alloc: Global,
        words: &Words,
        input: &mut S,
        hands: &mut P,
    ) -> u8
        requires { P.is_free hands.old }
    {
        link_main(
            rt,
            alloc,
            words,
            input,
            &mut self.output,
            &mut self.report,
            &mut self.wire,
            &mut NoPace,
            Some(&self.counts),
            hands,
        )
    }
}

/// A capture whose datagrams have these payloads and one source.
pub(crate) fn capture(alloc: Global, payloads: &[&[u8]]) -> Result<Vec<u8>, Fail> {
    let mut bytes = Vec::new(alloc);
    for payload in payloads {
        let Ok(length) = u8::try_from(payload.len()) else {
            return Err(Fail::from("too long a payload"));
        };
        bytes.extend_from_slice(&[0, length.saturating_add(12), 0x80, 0x60, 0, 0])?;
        bytes.extend_from_slice(&[0, 0, 0, 0, 0, 0, 0, 1])?;
        bytes.extend_from_slice(payload)?;
    }
    Ok(bytes)
}

/// Words that spaces part.
pub(crate) fn words_of(alloc: Global, line: &str) -> Result<Words, NoMemory> {
    let mut words = Words::new(alloc);
    for word in line.split_whitespace() {
        words.push(word)?;
    }
    Ok(words)
}
