//! A worked row, by the lines of its file. Each line is a key and its text, and `#` begins a comment.
//!
//! Bytes are pairs of digits, as `80 7F`; `80*96` is 96 of them, `@NAME` a part, `@NAME/3` and `@NAME/0..3`
//! entries of one, counted from 0, and `[ .. ]` an entry: what stands between, with its length in two bytes
//! before it.
//!
//! - `part NAME BYTES` names bytes, and `counts NAME..` the lines of a tally in order.
//! - `row NAME` begins a row, and `and NAME` one more that is run on the same: of the keys below, those up
//!   to `room` stay.
//! - `words WORD..`, `in BYTES` and `comes BYTES` are the command line, in which `""` is the empty word, the
//!   input, and entries that come from the wire; `is looped`: what is sent comes back after them. `is
//!   untold`: the wire tells nothing; `is lossy`: nor does it fail to send, but loses the datagram. `hands
//!   KIND` has the kinds of hands.rt; a wire that tells nothing is run without any. `room N` is the room of
//!   the output, and of the wire.
//! - `each read|write|report|wire A..B` runs the row once for each number of that range, at which this call
//!   of the input, the output, the report or the wire fails; with `each cut A..B` the input has so many
//!   bytes, and with `each room A..B` the output has room for so many.
//! - `status N`, `out BYTES`, `line |TEXT`, `report TEXT`, `tally NAME N, ..`, `sent BYTES`, `at ADDRESS`
//!   and `to ADDRESS` are wanted: the status, or 0; the bytes of the output, or a line of it; a line of the
//!   report, or all lines of a tally, of which those that aren't named are 0; the datagrams that are sent,
//!   as entries; the addresses that the wire is asked to listen at, and to send to. What isn't named is
//!   wanted to be empty. `is end-of-report`: the report has only to end so.
//! - `left N` is wanted where it is given: so many bytes of the input aren't read.
//! - `turns T+D*N ..` is wanted where it is given: the pace was told the turns of N datagrams that go out
//!   over D ticks from timestamp T on, and of the others, one after another.
//! - `keep NAME` makes a part of the output, for later rows.
//!
//! What isn't understood stops the file.

use crate::names::Names;
use crate::numbers::Numbers;
use crate::setup::{Setup, Telling};
use crate::wants::Wants;
use std::alloc::Global;
use worked_common::Bad;

/// A worked row.
#[derive(Drop)]
pub(crate) struct Row {
    pub(crate) name: String,
    pub(crate) setup: Setup,
    pub(crate) numbers: Numbers,
    pub(crate) wants: Wants,
    /// The name that its output is kept by.
    pub(crate) keep: Option<String>,
}

impl Row {
    pub(crate) fn new(alloc: Global, name: &str) -> Result<Row, Bad> {
        Ok(Row {
            name: String::from_str(alloc, name)?,
            setup: Setup::new(alloc),
            numbers: Numbers::once(),
            wants: Wants::new(alloc),
            keep: None,
        })
    }

    /// Begins the next row, which is run on the same, but has its own numbers and wants.
    pub(crate) fn again(&mut self, alloc: Global, name: &str) -> Result<(), Bad> {
        self.name = String::from_str(alloc, name)?;
        self.numbers = Numbers::once();
        self.wants = Wants::new(alloc);
        self.keep = None;
        Ok(())
    }

    /// Takes a line of the row: its first word, and the rest.
    pub(crate) fn set(
        &mut self,
        alloc: Global,
        names: &Names,
        key: &str,
        text: &str,
    ) -> Result<(), Bad> {
        match key {
            "words" => self.setup.set_words(alloc, text),
            "in" => self.setup.set_input(alloc, names, text),
            "comes" => self.setup.set_coming(alloc, names, text),
            "room" => self.setup.set_room(text),
            "hands" => self.setup.set_hands(text),
            "each" => self.set_numbers(text),
            "is" => self.set_flag(text),
            "keep" => self.set_name(alloc, text),
            "status" => self.wants.set_status(text),
            "left" => self.wants.set_left(text),
            "out" => self.wants.add_output(alloc, names, text),
            "line" => self.wants.add_output_line(text),
            "sent" => self.wants.add_sent(alloc, names, text),
            "at" => self.wants.add_listening(text),
            "to" => self.wants.add_aiming(text),
            "turns" => self.wants.set_turns(alloc, text),
            "tally" => self.wants.add_tally(alloc, names, text),
            "report" => self.wants.add_line(text),
            _ => Err(Bad::NoRow),
        }
    }

    fn set_numbers(&mut self, text: &str) -> Result<(), Bad> {
        self.numbers = Numbers::parse(text)?;
        Ok(())
    }

    fn set_flag(&mut self, text: &str) -> Result<(), Bad> {
        match text {
            "looped" => self.setup.looped = true,
            "untold" => self.setup.telling = Telling::Nothing,
            "lossy" => self.setup.telling = Telling::NothingLost,
            "end-of-report" => self.wants.only_end = true,
            _ => return Err(Bad::NoRow),
        }
        Ok(())
    }

    fn set_name(&mut self, alloc: Global, text: &str) -> Result<(), Bad> {
        self.keep = Some(String::from_str(alloc, text)?);
        Ok(())
    }
}
