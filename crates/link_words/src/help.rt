ghost use Rattle.std.specs.Prelude.{◌≡◌, Some};
ghost use Rattle.link_words.specs.Options.{command_of};

use crate::meanings::{COMMANDS, NAMES};
use crate::options::{Command, Name, Values, command_of, names_of, option_row};
use std::alloc::Global;
use vc_types::NoMemory;

const HEAD: [&str; 7] = [
    "vc2link: VC-2 pictures over RTP (SMPTE ST 2042-1, RFC 8450)",
    "",
    "usage: vc2link COMMAND [--NAME VALUE]..",
    "       vc2link --help",
    "       vc2link COMMAND --help",
    "       vc2link --version",
    "",
];

const ALL_COMMANDS: &str = "Commands, each with what it reads and writes and its options\n";

const COMMANDS_ALONE: &str = "Commands, each with what it reads and writes\n";

const FILES: [&str; 10] = [
    "",
    "Files",
    "  raw frames: the planes Y, C1 and C2 of each frame, row by row; a sample has one byte where it has",
    "    8 bits, and else two, the lowest first (ffmpeg: yuv422p10le with --sampling 422 --range 3)",
    "  capture: the datagrams one after another, each after its length in two bytes, the higher first",
    "  pcap: a file of libpcap, of Ethernet frames or Linux cooked packets; pcapng is converted by",
    "    editcap -F pcap or tshark -F pcap",
    "  elementary stream: the data units of ST 2042-1, section 10",
    "Input is standard input, output standard output; the report goes to standard error: its lines are",
    "a name and a number each.",
];

const STATUSES: [&str; 16] = [
    "",
    "Statuses",
    "  0   the command completed",
    "  2   the argument that the report names, counted from 0, isn't valid",
    "  3   memory ran out",
    "  4   a read of the input failed",
    "  5   a write to the output failed",
    "  6   the network failed",
    "  7   a write to the report failed",
    "  8   the capture ends within an entry, or the pcap file within a record",
    "  9   there is more than --packets allows",
    "  10  the raw frames end within a frame",
    "  11  a sample has more bits than its --range",
    "  12  a slice is too large for its lengths or for a datagram: try --fit, --scaler or --size",
    "  13  the stream is damaged or of another profile, the file isn't a pcap file, or an entry is \
     too long to be sent",
    "  14  there are more frames than --frames allows",
];

const ELSEWHERE: [&str; 2] = [
    "",
    "See vc2link --help for the files, the statuses and the other commands.",
];

const OPTIONS_ELSEWHERE: [&str; 2] = [
    "",
    "See vc2link COMMAND --help for a command's options, and vc2link --help for all that there is.",
];

const EXAMPLES: [&str; 7] = [
    "",
    "Examples",
    "  vc2link encode --width 1920 --height 1080 <in.yuv >out.cap",
    "  vc2link decode <out.cap >out.yuv",
    "  vc2link recv --at 0.0.0.0:5004 >out.yuv",
    "  vc2link send --width 1920 --height 1080 --fit 96 --to 192.0.2.1:5004 <in.yuv",
    "  vc2link gen --width 1920 --height 1080 --frames 2 --check 1",
];

/// The page that a reader asks for by `--help`: each command with its options, each option with the values
/// that it takes, its default and what it means, and the statuses. Names and values are those of the
/// grammar, by worked rows; no clause says so.
pub fn help_page(alloc: Global) -> Result<String, NoMemory> {
    let mut page = String::new(alloc);
    push_page(&mut page)?;
    Ok(page)
}

/// The page of a reader who knows no command: the head of the other one, and what each command reads and
/// writes.
pub fn overview_page(alloc: Global) -> Result<String, NoMemory> {
    let mut page = String::new(alloc);
    push_overview(&mut page)?;
    Ok(page)
}

/// The page of one command: what it reads and writes, and its options with what they mean. None where the
/// word is no command.
pub fn command_page(alloc: Global, word: &str) -> Option<Result<String, NoMemory>> {
    let command = command_of(word)?;
    let mut page = String::new(alloc);
    match push_command_page(&mut page, command) {
        Ok(()) => Some(Ok(page)),
        Err(NoMemory) => Some(Err(NoMemory)),
    }
}

fn push_command_page(page: &mut String, command: Command) -> Result<(), NoMemory> {
    for (other, job) in &COMMANDS {
        if *other == command {
            push_command(page, command, job)?;
        }
    }
    push_words(page, "\nOptions\n")?;
    for (name, meaning) in &NAMES {
        if names_of(command).contains(name) {
            push_option(page, *name, meaning)?;
        }
    }
    push_lines(page, &ELSEWHERE)
}

pub(crate) fn push_overview(page: &mut String) -> Result<(), NoMemory> {
    push_lines(page, &HEAD)?;
    push_words(page, COMMANDS_ALONE)?;
    for (command, job) in &COMMANDS {
        push_job(page, word_of(*command), job)?;
        push_words(page, "\n")?;
    }
    push_lines(page, &OPTIONS_ELSEWHERE)
}

fn push_page(page: &mut String) -> Result<(), NoMemory> {
    push_lines(page, &HEAD)?;
    push_words(page, ALL_COMMANDS)?;
    push_commands(page)?;
    push_options(page)?;
    push_lines(page, &FILES)?;
    push_lines(page, &STATUSES)?;
    push_lines(page, &EXAMPLES)
}

fn push_commands(page: &mut String) -> Result<(), NoMemory> {
    for (command, job) in &COMMANDS {
        push_command(page, *command, job)?;
    }
    Ok(())
}

fn push_options(page: &mut String) -> Result<(), NoMemory> {
    push_words(page, "\nOptions\n")?;
    for (name, meaning) in &NAMES {
        push_option(page, *name, meaning)?;
    }
    Ok(())
}

fn push_lines(page: &mut String, lines: &[&str]) -> Result<(), NoMemory> {
    for line in lines {
        page.push_str(line)?;
        page.push_str("\n")?;
    }
    Ok(())
}

/// The word of a command.
pub(crate) fn word_of(command: Command) -> &'static str
    ensures { command_of result.now ≡ Some command }
{
    match command {
        Command::Decode => "decode",
        Command::Encode => "encode",
        Command::Send => "send",
        Command::Recv => "recv",
        Command::Loop => "loop",
        Command::Unpack => "unpack",
        Command::Pack => "pack",
        Command::Play => "play",
        Command::Gen => "gen",
        Command::Rtcp => "rtcp",
        Command::RtcpShow => "rtcp-show",
        Command::Probe => "probe",
        Command::Record => "record",
        Command::Replay => "replay",
    }
}

// A command, what it reads and writes, and its options.
fn push_command(page: &mut String, command: Command, job: &str) -> Result<(), NoMemory> {
    push_job(page, word_of(command), job)?;
    for (i, name) in names_of(command).iter().enumerate() {
        push_name(page, if i % 7 == 0 { "\n    " } else { " " }, *name)?;
    }
    push_words(page, "\n")
}

fn push_job(page: &mut String, word: &str, job: &str) -> Result<(), NoMemory> {
    write!(page, "  {word}: {job}")?;
    Ok(())
}

fn push_name(page: &mut String, before: &str, name: Name) -> Result<(), NoMemory> {
    let (word, _) = option_row(name);
    page.push_str(before)?;
    push_words(page, word)
}

// An option with its values, and what it means.
fn push_option(page: &mut String, name: Name, meaning: &str) -> Result<(), NoMemory> {
    let (word, values) = option_row(name);
    write!(page, "  {word}: ")?;
    push_values(page, values)?;
    push_meaning(page, meaning)
}

fn push_meaning(page: &mut String, meaning: &str) -> Result<(), NoMemory> {
    write!(page, "\n    {meaning}\n")?;
    Ok(())
}

// Which values are accepted, and which is meant where none is given.
fn push_values(page: &mut String, values: Values) -> Result<(), NoMemory> {
    push_accepted(page, values)?;
    match values {
        Values::Number(_, _, default) => push_default(page, default),
        Values::Optional(_, _) => push_words(page, ", none by default"),
        Values::Required(_, _) | Values::Address => push_words(page, ", required"),
        Values::Subsampling => push_words(page, "; 422 by default"),
        Values::Pair => push_words(page, "; 16 by 8 samples each by default"),
        Values::Ratio(_) => push_words(page, "; none by default"),
        Values::Text => push_words(page, ", vc2link by default"),
    }
}

/// Which values are accepted.
pub(crate) fn push_accepted(page: &mut String, values: Values) -> Result<(), NoMemory> {
    match values {
        Values::Number(low, high, _) | Values::Optional(low, high) | Values::Required(low, high) =>
            { push_range(page, low, high) }
        Values::Subsampling => push_words(page, "444, 422 or 420"),
        Values::Pair => push_words(page, "two of 1 to 65535 with x between, as 120x135"),
        Values::Ratio(high) => push_ratio(page, high),
        Values::Address => push_words(page, "an address"),
        Values::Text => push_words(page, "1 to 255 bytes of ASCII"),
    }
}

fn push_range(page: &mut String, low: u32, high: u32) -> Result<(), NoMemory> {
    write!(page, "{low} to {high}")?;
    Ok(())
}

// The larger ones are rates of frames, the others sides of pixels.
fn push_ratio(page: &mut String, high: u32) -> Result<(), NoMemory> {
    let example = if high == u32::MAX {
        "30000:1001"
    } else {
        "12:11"
    };
    write!(page, "two of 1 to {high} with : between, as {example}")?;
    Ok(())
}

fn push_default(page: &mut String, default: u32) -> Result<(), NoMemory> {
    write!(page, ", {default} by default")?;
    Ok(())
}

pub(crate) fn push_words(page: &mut String, words: &str) -> Result<(), NoMemory> {
    page.push_str(words)?;
    Ok(())
}
