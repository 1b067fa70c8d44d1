use crate::bench::Ran;
use crate::datagrams::{are_sent, listens_at, sends_to};
use crate::names::Names;
use std::alloc::Global;
use vc_ports::MemWire;
use vc_types::Words;
use worked_common::{Bad, put};

/// What is wanted of a run.
#[derive(Drop)]
pub(crate) struct Wants {
    pub(crate) status: u8,
    output: Vec<u8>,
    report: Vec<u8>,
    /// Only the end of the report is wanted.
    pub(crate) only_end: bool,
    /// The datagrams that are sent, as entries.
    sent: Vec<u8>,
    /// The addresses to listen at.
    at: Words,
    /// Those to send to.
    to: Words,
    /// How many bytes of the input aren't read, where the row says so.
    left: Option<usize>,
    /// The turns that the pace is told, where the row says so.
    turns: Option<String>,
}

impl Wants {
    pub(crate) fn new(alloc: Global) -> Wants {
        Wants {
            status: 0,
            output: Vec::new(alloc),
            report: Vec::new(alloc),
            only_end: false,
            sent: Vec::new(alloc),
            at: Words::new(alloc),
            to: Words::new(alloc),
            left: None,
            turns: None,
        }
    }

    pub(crate) fn set_status(&mut self, text: &str) -> Result<(), Bad> {
        let Ok(status) = text.parse::<u8>() else {
            return Err(Bad::NoRow);
        };
        self.status = status;
        Ok(())
    }

    pub(crate) fn set_left(&mut self, text: &str) -> Result<(), Bad> {
        let Ok(left) = text.parse::<usize>() else {
            return Err(Bad::NoRow);
        };
        self.left = Some(left);
        Ok(())
    }

    pub(crate) fn set_turns(&mut self, alloc: Global, text: &str) -> Result<(), Bad> {
        self.turns = Some(String::from_str(alloc, text)?);
        Ok(())
    }

    pub(crate) fn add_output(
        &mut self,
        alloc: Global,
        names: &Names,
        text: &str,
    ) -> Result<(), Bad> {
        put(alloc, names.parts.as_slice(), text, &mut self.output)
    }

    /// Adds a line of text to the output; what is before a bar is not of it.
    pub(crate) fn add_output_line(&mut self, text: &str) -> Result<(), Bad> {
        let line = text.strip_prefix('|').unwrap_or(text);
        self.output.extend_from_slice(line.as_bytes())?;
        self.output.extend_from_slice(b"\n")?;
        Ok(())
    }

    pub(crate) fn add_sent(&mut self, alloc: Global, names: &Names, text: &str) -> Result<(), Bad> {
        put(alloc, names.parts.as_slice(), text, &mut self.sent)
    }

    pub(crate) fn add_listening(&mut self, address: &str) -> Result<(), Bad> {
        Ok(self.at.push(address)?)
    }

    pub(crate) fn add_aiming(&mut self, address: &str) -> Result<(), Bad> {
        Ok(self.to.push(address)?)
    }

    /// Adds a line to the report, as `frames 1`.
    pub(crate) fn add_line(&mut self, text: &str) -> Result<(), Bad> {
        self.report.extend_from_slice(text.as_bytes())?;
        self.report.extend_from_slice(b"\n")?;
        Ok(())
    }

    /// Adds the lines of a tally: each name, with the number after it in the text, or 0.
    pub(crate) fn add_tally(
        &mut self,
        alloc: Global,
        names: &Names,
        text: &str,
    ) -> Result<(), Bad> {
        let mut found = 0usize;
        for name in names.counts.split_whitespace() {
            let number = number_of(text, name);
            if number.is_some() {
                found = found.saturating_add(1);
            }
            let number = number.unwrap_or("0");
            let line = format!(in alloc; "{name} {number}")?;
            self.add_line(line.as_str())?;
        }
        // A name that is none of them would go unseen.
        if text.is_empty() || found == text.split(',').count() {
            return Ok(());
        }
        Err(Bad::NoRow)
    }

    /// What differs from what is wanted, if something does.
    pub(crate) fn differs(&self, ran: &Ran) -> Option<&'static str> {
        if ran.status != self.status {
            return Some("status");
        }
        if ran.bench.output.bytes() != self.output.as_slice() {
            return Some("output");
        }
        if !self.is_report(ran.bench.report.bytes()) {
            return Some("report");
        }
        if self.left.is_some_and(|left| left != ran.left) {
            return Some("number of bytes left");
        }
        if !ran.gave_back {
            return Some("number of answers that the hands gave back");
        }
        if let Some(turns) = &self.turns {
            if !ran.bench.pace.are(turns.as_str()) {
                return Some("list of turns");
            }
        }
        self.differs_on_wire(&ran.wire)
    }

    fn differs_on_wire(&self, wire: &MemWire) -> Option<&'static str> {
        if !are_sent(wire, self.sent.as_slice()) {
            return Some("list of datagrams sent");
        }
        if !listens_at(wire, &self.at) {
            return Some("address to listen at");
        }
        if !sends_to(wire, &self.to) {
            return Some("address to send to");
        }
        None
    }

    fn is_report(&self, report: &[u8]) -> bool {
        let wanted = self.report.as_slice();
        report == wanted || self.only_end && report.ends_with(wanted)
    }
}

// The number after a name in a text as `frames 1, datagrams 3`.
fn number_of<'a>(text: &'a str, name: &str) -> Option<&'a str> {
    for count in text.split(',') {
        if let Some((key, number)) = count.trim().split_once(' ') {
            if key == name {
                return Some(number);
            }
        }
    }
    None
}
