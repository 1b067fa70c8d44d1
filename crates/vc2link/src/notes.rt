use link_net::{BacklogNotes, WireNotes};
use link_words::explain;
use run_counts::{Gap, MissingFrames};
use std::alloc::{AllocError, Global};
use std::io;
use vc_ports::{Sink, write_all};
use vc_types::{NoMemory, Words};

/// Says after the report what the network did, each on a line of its own. A line for which there is no
/// memory, or that can't be written, is left out.
pub(crate) fn say_notes<E: Sink>(
    alloc: Global,
    notes: &WireNotes,
    has_failed: bool,
    report: &mut E,
) {
    if has_failed {
        say_error(alloc, notes, report);
    }
    let unsent = notes.unsent;
    if unsent > 0 {
        say(
            report,
            format!(in alloc; "the network refused {unsent} datagrams\n"),
        );
    }
    if let Some(backlog) = notes.backlog {
        say_backlog(alloc, backlog, report);
    }
}

// What the system said, as `127.0.0.1:5004: Address already in use (os error 98)`, or that the address can't
// be read.
fn say_error<E: Sink>(alloc: Global, notes: &WireNotes, report: &mut E) {
    match (&notes.address, notes.error) {
        (Some(address), Some(error)) => {
            say(report, format!(in alloc; "{address}: {error}\n"));
            if is_no_address(&error) {
                let _ = write_all(report, b"an address is HOST:PORT, as 127.0.0.1:5004\n");
            }
        }
        (None, Some(error)) => say(report, format!(in alloc; "{error}\n")),
        (_, None) => {}
    }
}

// The text of an address was refused before the system was asked.
fn is_no_address(error: &io::Error) -> bool {
    error.kind() == io::ErrorKind::InvalidInput && error.raw_os_error().is_none()
}

// How many datagrams found no room, and how large a buffer the system gave.
fn say_backlog<E: Sink>(alloc: Global, backlog: BacklogNotes, report: &mut E) {
    let dropped = backlog.dropped;
    match backlog.system {
        Some(bytes) => say(
            report,
            format!(in alloc; "no room for {dropped} datagrams, system buffer {bytes} bytes\n"),
        ),
        None => say(
            report,
            format!(in alloc; "no room for {dropped} datagrams\n"),
        ),
    }
}

/// Says after the report which frames weren't written between the first and the last that were, if there are
/// such: numbers and ranges of them.
pub(crate) fn say_missing<E: Sink>(alloc: Global, missing: &MissingFrames, report: &mut E) {
    if missing.gaps().is_empty() {
        return;
    }
    let _ = write_all(report, b"missing");
    for gap in missing.gaps() {
        let Gap { first, last } = *gap;
        if first == last {
            say(report, format!(in alloc; " {first}"));
        } else {
            say(report, format!(in alloc; " {first}-{last}"));
        }
    }
    if missing.has_more() {
        let _ = write_all(report, b" and more");
    }
    let _ = write_all(report, b"\n");
}

/// Says after the report how many frames were written in the place of missing ones.
pub(crate) fn say_filled<E: Sink>(alloc: Global, missing: Option<MissingFrames>, report: &mut E) {
    if let Some(missing) = missing {
        let filled = missing.filled();
        say(report, format!(in alloc; "filled {filled}\n"));
    }
}

/// Says after a report of words that are outside the grammar what is wrong with them, and where the grammar
/// stands.
pub(crate) fn say_mistake<E: Sink>(alloc: Global, words: &Words, report: &mut E) {
    match explain(alloc, words) {
        Ok(text) => {
            let _ = write_all(report, text.as_bytes());
        }
        Err(NoMemory) => say_help(report),
    }
}

fn say_help<E: Sink>(report: &mut E) {
    let _ = write_all(report, b"see vc2link --help\n");
}

/// Says that a word isn't text, and so is outside the grammar.
pub(crate) fn say_no_text<E: Sink>(report: &mut E) {
    let _ = write_all(report, b"a word isn't text of UTF-8\n");
    say_help(report);
}

fn say<E: Sink>(report: &mut E, line: Result<String, AllocError>) {
    if let Ok(line) = line {
        let _ = write_all(report, line.as_bytes());
    }
}
