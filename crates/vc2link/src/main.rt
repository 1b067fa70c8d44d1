//! vc2link: a studio link for VC-2 pictures.
#![tactic(auto)]

mod beginning;
mod clock_pace;
mod last_report;
mod limited;
mod notes;
mod plan;
mod ports;
mod running;
mod std_streams;
mod wrong_input;

use beginning::{Beginning, Kept};
use clock_pace::ClockPace;
use last_report::LastReport;
use limited::Limited;
use link_net::{Launcher, Limits, LiveWire, Reader, WireNotes};
use link_program::{link_main, print_page};
use link_report::Ending;
use link_words::{Settings, read_words};
use notes::{say_filled, say_missing, say_mistake, say_no_text, say_notes};
use plan::Plan;
use run_counts::{MissingFrames, RunCounts};
use running::RunningLines;
use slice_pool::{Crew, Worker};
use std::alloc::Global;
use std::io::{BufReader, IsTerminal};
use std::net::Net;
use std::process::ExitCode;
use std::sync::{Arc, Wait};
use std::thread::Threads;
use std::time::Clock;
use std::{env, io};
use std_streams::{Awaited, hold_closed};
use vc_ports::{NoGate, Sink, Source, StdSink, StdSource};
use vc_types::{NoMemory, Words};
use wrong_input::{Seen, bytes_to_see, say_input};

// Nearly the 32 MiB beyond which glibc takes each block from the system alone.
const LARGE_BLOCK: usize = 33_488_896;

// Takes a large block and lets it go. From then on glibc keeps the blocks up to this size that are let go, in
// place of giving them back to the system, so that a picture's planes lie where those of the picture before
// did. Under another C library nothing changes.
fn keep_large_blocks(alloc: Global) -> Result<(), NoMemory> {
    let _block: Vec<u8> = Vec::with_capacity(alloc, LARGE_BLOCK)?;
    Ok(())
}

// The status where the words are outside the grammar.
fn usage_status() -> u8 {
    Ending::Usage { place: 0 }.status()
}

// The words behind the program's name, or the status without them. Words that aren't text are outside the
// grammar.
fn words_of(rt: &HostRuntime) -> Result<Words, u8> {
    let args = match env::args(rt) {
        Ok(args) => args,
        Err(error) if error.kind() == io::ErrorKind::OutOfMemory => {
            return Err(Ending::NoMemory.status());
        }
        Err(_) => return Err(usage_status()),
    };
    let mut words = Words::new(rt.alloc());
    for word in args.skip(1) {
        let Ok(()) = words.push(word.as_str()) else {
            return Err(Ending::NoMemory.status());
        };
    }
    Ok(words)
}

// How many bytes are read ahead where nobody reads behind a command.
const AHEAD: usize = 65_536;

// How many bytes of standard input are read ahead. `decode` and `unpack` read a capture in many small pieces,
// and to its end, so that nobody reads behind them. With `--packets` they may stop before, and the rest is
// left to whoever reads next: without it the number is the greatest.
fn read_ahead(words: &Words) -> usize {
    match read_words(words) {
        Ok(Settings::Decode { packets, .. } | Settings::Unpack { packets, .. })
            if packets == u32::MAX => AHEAD,
        _ => 0,
    }
}

// Of what comes from the network: how many bytes are kept, and how many the system is asked to keep.
const LIMITS: Limits = Limits {
    room: 64 << 20,
    system: 64 << 20,
    seconds: 0,
    frames: 0,
};

// The streams of a run, each borrowed.
#[derive(Drop)]
struct Streams<'a, 'b, 'c, S, O, E> {
    input: &'a mut S,
    output: &'b mut O,
    report: &'c mut E,
}

// What a run has beside them: a way to start the thread that receives, and what the words ask for beside the
// command.
#[derive(Drop)]
struct Beside {
    launcher: Launcher,
    plan: Plan,
}

// What a run came to: its status, and what its wire has to say.
#[derive(Drop)]
struct Ended {
    status: u8,
    notes: WireNotes,
}

// Says behind the report what is known beside it.
fn say_rest<E: Sink>(
    alloc: Global,
    words: &Words,
    ended: &Ended,
    missing: Option<MissingFrames>,
    report: &mut E,
) {
    let has_wire_failed = ended.status == Ending::WireFailed.status();
    say_notes(alloc, &ended.notes, has_wire_failed, report);
    if let Some(missing) = missing {
        say_missing(alloc, &missing, report);
    }
    if ended.status == usage_status() {
        say_mistake(alloc, words, report);
    }
}

// Prints the page that the words ask for. Otherwise does what they say with a crew and a wire at hand, which
// are stopped whatever that came to, tells counts meanwhile, and says behind the report what is known beside
// it.
fn run<H: Threads + Wait + Net + Clock + Copy + Send + Sync + 'static, S: Source, O: Sink, E: Sink>(
    rt: H,
    alloc: Global,
    words: &Words,
    streams: Streams<S, O, E>,
    beside: Beside,
    counts: &RunCounts,
) -> u8 {
    let Streams {
        input,
        output,
        report,
    } = streams;
    if let Some(status) = print_page(alloc, words, output) {
        return status;
    }
    let Ok(gate) = Arc::new(alloc, NoGate) else {
        return Ending::NoMemory.status();
    };
    let Beside { launcher, plan } = beside;
    let mut wire = LiveWire::new(rt, alloc, plan.limits(LIMITS), launcher, Some(counts));
    let mut pace = ClockPace::new(rt, counts);
    let mut crew = Crew::new(rt, alloc, |worker: Worker| worker.start(rt, &gate));
    let status = link_main(
        rt,
        alloc,
        words,
        input,
        output,
        report,
        &mut wire,
        &mut pace,
        Some(counts),
        &mut crew,
    );
    crew.stop();
    let ended = Ended {
        status,
        notes: wire.stop(),
    };
    let missing = if plan.says_missing {
        counts.missing()
    } else {
        None
    };
    say_rest(alloc, words, &ended, missing, report);
    if plan.says_filled && status != usage_status() {
        say_filled(alloc, missing, report);
    }
    status
}

// Begins the lines that say how far a command is, if there are to be any and can be.
fn lines_of<H, L: Sink + Drop + Send + 'static>(
    rt: H,
    alloc: Global,
    plan: &Plan,
    counts: &Arc<RunCounts>,
    lines: L,
) -> Option<RunningLines>
where
    H: Threads + Wait + Clock + Copy + Send + Sync + 'static,
{
    let form = plan.lines?;
    let counts = Arc::try_clone(counts).ok()?;
    RunningLines::start(rt, alloc, form, counts, lines)
}

fn main(rt: HostRuntime) -> ExitCode {
    hold_closed();
    // Where there is no room for the block, blocks come and go as they would.
    let _ = keep_large_blocks(rt.alloc());
    let mut said = Beginning::new(rt.alloc(), 16);
    let mut report = StdSink::new(Kept::new(Awaited::new(rt.stderr(), 2), &mut said));
    let words = match words_of(&rt) {
        Ok(words) => words,
        Err(status) => {
            if status == usage_status() {
                say_no_text(&mut report);
            }
            return ExitCode::from(status);
        }
    };
    let plan = Plan::of(&words, rt.stderr().is_terminal());
    let mut read = Beginning::new(rt.alloc(), bytes_to_see(&words));
    let stdin = Limited {
        stream: Kept::new(Awaited::new(rt.stdin(), 0), &mut read),
        left: plan.most,
    };
    // With no room a read goes straight to the stream.
    let Ok(stdin) = BufReader::with_capacity(rt.alloc(), read_ahead(&words), stdin) else {
        return ExitCode::from(Ending::NoMemory.status());
    };
    let Ok(start) = Box::new(rt.alloc(), move |reader: Reader| reader.start(rt)) else {
        return ExitCode::from(Ending::NoMemory.status());
    };
    let mut input = StdSource::new(stdin);
    let mut output = StdSink::new(Awaited::new(rt.stdout(), 1));
    let Ok(counts) = Arc::new(rt.alloc(), RunCounts::new()) else {
        return ExitCode::from(Ending::NoMemory.status());
    };
    let lines = StdSink::new(Awaited::new(rt.stderr(), 2));
    let mut last = LastReport {
        report,
        rt,
        lines: lines_of(rt, rt.alloc(), &plan, &counts, lines),
    };
    let streams = Streams {
        input: &mut input,
        output: &mut output,
        report: &mut last,
    };
    let beside = Beside {
        launcher: Launcher::new(start),
        plan,
    };
    let status = run(rt, rt.alloc(), &words, streams, beside, &counts);
    drop(input);
    last.stop();
    let seen = Seen {
        input: read.bytes(),
        report: said.bytes(),
    };
    let mut notes = StdSink::new(Awaited::new(rt.stderr(), 2));
    say_input(rt.alloc(), &words, status, seen, &mut notes);
    ExitCode::from(status)
}
