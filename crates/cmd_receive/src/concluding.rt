ghost use Rattle.std.specs.Prelude.{◌≡◌};
ghost use Rattle.cmd_receive.specs.Concluding.{Concludes, recorded, with_record_counts};
ghost use Rattle.cmd_receive.specs.Playouts.{IsWell, playout_state};

use crate::playout::Playout;
use link_hearing::{RecordCounts, has_broken};
use link_report::{Answer, Ending, Summary};
use std::thread::Threads;
use vc_ports::Sink;
use vc_slice::Places;

/// Ends the receiver's input, unless it broke off, and says what the command came to.
pub(crate) fn conclude<H: Threads + Copy, O: Sink, P: Places>(
    playout: &mut Playout<H, O, P>,
    heard: Result<(), Ending>,
) -> Answer
    requires well { IsWell (playout_state O.held O.faults P.told P.bound playout.old) }
    ensures borrows_output { playout.new.output.ghost_name ≡ playout.old.output.ghost_name }
    ensures borrows_places { playout.new.places.ghost_name ≡ playout.old.places.ghost_name }
    ensures concludes { Concludes (playout_state O.held O.faults P.told P.bound playout.old)
        (playout_state O.held O.faults P.told P.bound playout.new) heard result }
{
    match heard {
        Err(ending) if has_broken(&ending) => Answer::Stopped(ending),
        Err(ending) => match playout.drain() {
            Ok(tally) => Answer::Drained(Summary::Judged { tally }, ending),
            Err(fault) => Answer::Stopped(Ending::from(fault)),
        },
        Ok(()) => match playout.drain() {
            Ok(tally) => Answer::Done(Summary::Judged { tally }),
            Err(fault) => Answer::Stopped(Ending::from(fault)),
        },
    }
}

/// The same answer with the counts of a pcap file's records, where there are such and it counts anything.
pub(crate) fn with_record_counts(counts: Option<RecordCounts>, answer: Answer) -> Answer
    ensures { result ≡ with_record_counts counts answer }
{
    match counts {
        Some(RecordCounts { records, other }) => recorded(records, other, answer),
        None => answer,
    }
}

fn recorded(records: u32, other: u32, answer: Answer) -> Answer
    ensures { result ≡ recorded records other answer }
{
    match answer {
        Answer::Done(summary) => Answer::WithRecords {
            summary,
            records,
            other,
            ending: None,
        },
        Answer::Drained(summary, ending) => Answer::WithRecords {
            summary,
            records,
            other,
            ending: Some(ending),
        },
        answer => answer,
    }
}
