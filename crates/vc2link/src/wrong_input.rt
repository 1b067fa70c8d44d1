//! What an input seems to be that a command couldn't read, by its first bytes.

use crate::ports::Ports;
use link_words::{Settings, read_words};
use std::alloc::{AllocError, Global};
use vc_ports::{Sink, write_all};
use vc_types::{Sampling, SendSettings, Words};

/// What a command reads.
#[derive(Clone, Copy)]
enum Wanted {
    Frames(SendSettings),
    /// A capture, where the words can't say that the input is a pcap file.
    Entries,
    /// A capture, where they can, and don't.
    Capture,
    /// A pcap file, with datagrams to a port, or to any at 0.
    Pcap(u16),
    Stream,
}

/// What an input seems to be.
#[derive(Clone, Copy)]
enum Form {
    Y4m,
    Pcap,
    Pcapng,
    Stream,
    Capture,
}

// How files of a form begin. pcap files have four beginnings: two orders of bytes, and two units of time.
const MARKS: [(&[u8], Form); 7] = [
    (b"YUV4MPEG2", Form::Y4m),
    (b"BBCD", Form::Stream),
    (b"\x0A\x0D\x0D\x0A", Form::Pcapng),
    (b"\xA1\xB2\xC3\xD4", Form::Pcap),
    (b"\xD4\xC3\xB2\xA1", Form::Pcap),
    (b"\xA1\xB2\x3C\x4D", Form::Pcap),
    (b"\x4D\x3C\xB2\xA1", Form::Pcap),
];

/// The first bytes of what a command read and of what it reported.
#[derive(Clone, Copy)]
pub(crate) struct Seen<'a> {
    pub(crate) input: &'a [u8],
    pub(crate) report: &'a [u8],
}

/// How many bytes of the input tell what it is: of a pcap file enough for some records.
pub(crate) fn bytes_to_see(words: &Words) -> usize {
    match wanted_by(words) {
        Some(Wanted::Pcap(1..=u16::MAX)) => 262_144,
        _ => 16,
    }
}

/// Says after the report of a command what its input seems to be, where the status tells that something is
/// wrong with it, or how large the frames are that the command reads; and to which ports datagrams go in a
/// pcap file that has none to the port that is asked for.
pub(crate) fn say_input<E: Sink>(
    alloc: Global,
    words: &Words,
    status: u8,
    seen: Seen,
    report: &mut E,
) {
    let Some(wanted) = wanted_by(words) else {
        return;
    };
    if matches!(status, 8 | 10 | 11 | 13) {
        say_form(alloc, form_of(seen.input), wanted, report);
    }
    match wanted {
        Wanted::Pcap(1..=u16::MAX) if seen.report.starts_with(b"datagrams 0\n") => {
            let _ = say_ports(alloc, seen.input, report);
        }
        _ => {}
    }
}

fn wanted_by(words: &Words) -> Option<Wanted> {
    match read_words(words) {
        Ok(
            Settings::Encode { sender, .. }
            | Settings::Send { sender, .. }
            | Settings::Loop { sender, .. },
        ) => Some(Wanted::Frames(sender)),
        Ok(
            Settings::Decode { pcap, .. }
            | Settings::Unpack { pcap, .. }
            | Settings::Rtcp { pcap, .. }
            | Settings::RtcpShow { pcap, .. }
            | Settings::Probe { pcap, .. },
        ) => Some(match pcap {
            Some(port) => Wanted::Pcap(port),
            None => Wanted::Capture,
        }),
        Ok(Settings::Replay { .. }) => Some(Wanted::Entries),
        Ok(Settings::Play { .. } | Settings::Pack { .. }) => Some(Wanted::Stream),
        _ => None,
    }
}

fn form_of(first: &[u8]) -> Option<Form> {
    for (mark, form) in &MARKS {
        if first.starts_with(mark) {
            return Some(*form);
        }
    }
    if is_entry(first) {
        Some(Form::Capture)
    } else {
        None
    }
}

// A length of 12 to 16,383 bytes, and a datagram of RTP that names no other sources.
fn is_entry(first: &[u8]) -> bool {
    first.len() >= 3 && first[0] < 64 && (first[0] > 0 || first[1] >= 12) && first[2] == 0x80
}

fn say_form<E: Sink>(alloc: Global, form: Option<Form>, wanted: Wanted, report: &mut E) {
    match (form, wanted) {
        (Some(form), wanted) => {
            if let Some(line) = advice(form, wanted) {
                let _ = write_all(report, line.as_bytes());
            }
        }
        (None, Wanted::Frames(frames)) => say_frames(alloc, &frames, report),
        (None, _) => {}
    }
}

// What to do with an input of a form. None where the command reads that form.
fn advice(form: Form, wanted: Wanted) -> Option<&'static str> {
    match (form, wanted) {
        (Form::Pcap, Wanted::Pcap(_)) => None,
        (Form::Stream, Wanted::Stream) => None,
        (Form::Capture, Wanted::Capture | Wanted::Entries) => None,
        (Form::Y4m, _) => Some(
            "the input begins as YUV4MPEG2: make raw frames of it by ffmpeg -f rawvideo\n",
        ),
        (Form::Pcap, Wanted::Capture) => Some("the input is a pcap file: give --pcap 1\n"),
        (Form::Pcap, _) => Some("the input is a pcap file: use decode --pcap 1\n"),
        (Form::Pcapng, _) => Some("the input is a pcapng file: convert it by editcap -F pcap\n"),
        (Form::Stream, _) => Some("the input is an elementary stream: use play\n"),
        (Form::Capture, Wanted::Pcap(_)) => Some("the input is a capture: leave out --pcap 1\n"),
        (Form::Capture, _) => Some("the input is a capture: use decode\n"),
    }
}

// How many bytes a raw frame has, and what ffmpeg calls such frames.
fn say_frames<E: Sink>(alloc: Global, frames: &SendSettings, report: &mut E) {
    let bytes = frame_bytes(frames);
    let sampling = match frames.sampling {
        Sampling::S444 => "444",
        Sampling::S422 => "422",
        Sampling::S420 => "420",
    };
    let depth = match frames.range {
        1 | 2 => "",
        3 => "10le",
        _ => "12le",
    };
    let line = format!(in alloc;
        "a frame of these settings has {bytes} bytes (yuv{sampling}p{depth})\n"
    );
    if let Ok(line) = line {
        let _ = write_all(report, line.as_bytes());
    }
}

/// How many bytes a raw frame has.
pub(crate) fn frame_bytes(frames: &SendSettings) -> u64 {
    let (across, down) = match frames.sampling {
        Sampling::S444 => (1, 1),
        Sampling::S422 => (2, 1),
        Sampling::S420 => (2, 2),
    };
    let luma = u64::from(frames.width) * u64::from(frames.height);
    let colour = u64::from(frames.width / across) * u64::from(frames.height / down);
    let samples = luma.saturating_add(colour.saturating_mul(2));
    if frames.range <= 2 {
        samples
    } else {
        samples.saturating_mul(2)
    }
}

fn say_ports<E: Sink>(alloc: Global, file: &[u8], report: &mut E) -> Result<(), AllocError> {
    let bytes = Vec::from_slice(alloc, file)?;
    let ports = Ports::of_file(alloc, bytes);
    let mut line = String::from_str(alloc, "datagrams to other ports came:")?;
    for port in ports.found() {
        write!(line, " {port}")?;
    }
    line.push_str("\n")?;
    if !ports.found().is_empty() {
        let _ = write_all(report, line.as_bytes());
    }
    Ok(())
}
