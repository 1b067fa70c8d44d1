ghost use Rattle.std.specs.Prelude.{◌≡◌, ◌++◌, IfOk, OnOk, map};
ghost use Rattle.std.specs.String.{string_bytes};
ghost use Rattle.vc_ports.specs.Changes.{output_of};
ghost use Rattle.link_report.specs.Answers.{answer_of, answer_status, answer_text, Says, Reports};
ghost use Rattle.link_report.specs.Answers.{ending_line};
ghost use Rattle.link_report.specs.Report.{named, record_lines};
ghost use Rattle.link_report.specs.declared.answer.Answer.{Answer};

use crate::counts::{Count, push_counts};
use crate::ending::Ending;
use crate::summary::Summary;
use std::alloc::Global;
use vc_ports::{Sink, WriteFault, write_all};
use vc_types::NoMemory;

const DONE: u8 = 0;

const REPORT_FAULT: u8 = 7;

/// The result of a command.
#[derive(Clone, Copy)]
pub enum Answer {
    /// It came to its end.
    Done(Summary),
    /// It stopped.
    Stopped(Ending),
    /// It stopped early, but judged and wrote everything that it had received.
    Drained(Summary, Ending),
    /// Either of a pcap file, of which so many records were read; `other` of them carry no datagram. Without
    /// an ending it came to its end.
    WithRecords {
        summary: Summary,
        records: u32,
        other: u32,
        ending: Option<Ending>,
    },
}

impl From<Result<Summary, Ending>> for Answer {
    ghost from_gives = { λ outcome answer. answer ≡ answer_of outcome };

    fn from(outcome: Result<Summary, Ending>) -> Answer {
        match outcome {
            Ok(summary) => Answer::Done(summary),
            Err(ending) => Answer::Stopped(ending),
        }
    }
}

impl Answer {
    fn status(&self) -> u8
        ensures { result ≡ answer_status self.now }
    {
        match self {
            Answer::Done(_) | Answer::WithRecords { ending: None, .. } => DONE,
            Answer::Stopped(ending)
            | Answer::Drained(_, ending)
            | Answer::WithRecords {
                ending: Some(ending),
                ..
            } => ending.status(),
        }
    }

    fn text(&self, alloc: Global) -> Result<String, NoMemory>
        ensures { IfOk result (λ text. string_bytes text ≡ answer_text self.now) }
    {
        let mut text = String::new(alloc);
        match self {
            Answer::Done(summary) => summary.push_to(&mut text)?,
            Answer::Stopped(ending) => ending.push_to(&mut text)?,
            Answer::Drained(summary, ending) => {
                summary.push_to(&mut text)?;
                ending.push_to(&mut text)?;
            }
            Answer::WithRecords {
                summary,
                records,
                other,
                ending,
            } => {
                summary.push_to(&mut text)?;
                push_counts(&mut text, &recorded(*records, *other))?;
                push_ending(&mut text, ending)?;
            }
        }
        Ok(text)
    }
}

// What was read of a pcap file.
fn recorded(records: u32, other: u32) -> [Count; 2]
    ensures { map named result ≡ record_lines records other }
{
    [
        Count("records", u64::from(records)),
        Count("other", u64::from(other)),
    ]
}

// Adds the line of an ending to a text, where there is one.
fn push_ending(text: &mut String, ending: &Option<Ending>) -> Result<(), NoMemory>
    ensures { OnOk result (string_bytes text.new ≡ string_bytes text.old ++ ending_line ending.now) }
{
    match ending {
        Some(ending) => ending.push_to(text),
        None => Ok(()),
    }
}

/// Says in the report what a command came to, and answers the status. The text is made whole before any of
/// it is written; want of memory for it is status 3. A fault of the report is status 7 where the status
/// would be 0.
#[tactic(auto, unfolding(crate::specs::Report::status_line))]
pub fn write_answer<E: Sink>(alloc: Global, report: &mut E, answer: &Answer) -> u8
    ensures { Reports answer.now result (output_of E.held E.faults report.old report.new) }
{
    match answer.text(alloc) {
        Ok(text) => say(report, text.as_bytes(), answer.status()),
        Err(NoMemory) => say(report, b"no memory\n", Ending::NoMemory.status()),
    }
}

fn say<E: Sink>(report: &mut E, text: &[u8], status: u8) -> u8
    ensures { Says text.now status result (output_of E.held E.faults report.old report.new) }
{
    match write_all(report, text) {
        Err(WriteFault) if status == DONE => REPORT_FAULT,
        _ => status,
    }
}
