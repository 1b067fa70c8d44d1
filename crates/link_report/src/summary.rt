ghost use Rattle.std.specs.Prelude.{◌≡◌, OnOk, ◌++◌, map};
ghost use Rattle.std.specs.String.{string_bytes};
ghost use Rattle.link_report.specs.Report.{named, sent_lines, packed_lines, played_lines, reported_lines};
ghost use Rattle.link_report.specs.Report.{recorded_lines, replayed_lines};

use crate::counts::{Count, push_counts, tally_counts};
use link_model::Tally;
use vc_types::NoMemory;

/// What a command counted.
#[derive(Clone, Copy)]
pub enum Summary {
    /// Datagrams were judged, and frames or units written: `decode`, `recv` and `unpack`.
    Judged {
        tally: Tally,
    },
    /// Frames were sent; `bytes` sums the datagrams' lengths: `encode` and `send`.
    Sent {
        frames: u64,
        datagrams: u64,
        bytes: u64,
    },
    /// Frames were sent and judged: `loop`.
    Looped {
        frames: u64,
        datagrams: u64,
        bytes: u64,
        tally: Tally,
    },
    /// The pictures of a stream were sent: `pack`.
    Packed {
        pictures: u64,
        datagrams: u64,
        bytes: u64,
    },
    /// The pictures of a stream were decoded: `play`.
    Played {
        pictures: u64,
        unpaired: u64,
        frames: u64,
    },
    /// Frames were generated: `gen`.
    Generated {
        frames: u64,
        samples: u64,
    },
    /// Frames were generated, sent, judged and compared: `gen` with a check.
    Compared {
        frames: u64,
        samples: u64,
        different: u64,
    },
    /// Reports were made on a source, which sent so many of the datagrams: `rtcp`.
    Reported {
        datagrams: u64,
        packets: u64,
        reports: u64,
    },
    /// Datagrams were shown as text: `rtcp-show`.
    Shown {
        datagrams: u64,
    },
    /// Datagrams were recorded, in which so many sessions had their end: `record`.
    Recorded {
        datagrams: u64,
        sessions: u64,
    },
    /// The datagrams of a capture were sent; `bytes` sums their lengths: `replay`.
    Replayed {
        datagrams: u64,
        bytes: u64,
    },
}

impl Summary {
    ghost use Rattle.link_report.specs.Report.{summary_text};

    // Adds the lines to a text.
    #[tactic(auto, using(crate::proofs::Lines::lines_append), unfolding(crate::specs::Report::summary_lines))]
    pub(crate) fn push_to(&self, text: &mut String) -> Result<(), NoMemory>
        ensures { OnOk result
            (string_bytes text.new ≡ string_bytes text.old ++ summary_text self.now) }
    {
        match *self {
            Summary::Judged { tally } => push_counts(text, &tally_counts(&tally)),
            Summary::Sent {
                frames,
                datagrams,
                bytes,
            } => push_counts(text, &sent(frames, datagrams, bytes)),
            Summary::Looped {
                frames,
                datagrams,
                bytes,
                tally,
            } => {
                push_counts(text, &sent(frames, datagrams, bytes))?;
                push_counts(text, &tally_counts(&tally))
            }
            Summary::Packed {
                pictures,
                datagrams,
                bytes,
            } => push_counts(text, &packed(pictures, datagrams, bytes)),
            Summary::Played {
                pictures,
                unpaired,
                frames,
            } => push_counts(text, &played(pictures, unpaired, frames)),
            Summary::Generated { frames, samples } => {
                push_counts(text, &[Count("frames", frames), Count("samples", samples)])
            }
            Summary::Compared {
                frames,
                samples,
                different,
            } => push_counts(
                text,
                &[
                    Count("frames", frames),
                    Count("samples", samples),
                    Count("different", different),
                ],
            ),
            Summary::Reported {
                datagrams,
                packets,
                reports,
            } => push_counts(text, &reported(datagrams, packets, reports)),
            Summary::Shown { datagrams } => push_counts(text, &[Count("datagrams", datagrams)]),
            Summary::Recorded {
                datagrams,
                sessions,
            } => push_counts(text, &recorded(datagrams, sessions)),
            Summary::Replayed { datagrams, bytes } => {
                push_counts(text, &replayed(datagrams, bytes))
            }
        }
    }
}

fn sent(frames: u64, datagrams: u64, bytes: u64) -> [Count; 3]
    ensures { map named result ≡ sent_lines frames datagrams bytes }
{
    [
        Count("frames", frames),
        Count("datagrams", datagrams),
        Count("bytes", bytes),
    ]
}

fn packed(pictures: u64, datagrams: u64, bytes: u64) -> [Count; 3]
    ensures { map named result ≡ packed_lines pictures datagrams bytes }
{
    [
        Count("pictures", pictures),
        Count("datagrams", datagrams),
        Count("bytes", bytes),
    ]
}

fn played(pictures: u64, unpaired: u64, frames: u64) -> [Count; 3]
    ensures { map named result ≡ played_lines pictures unpaired frames }
{
    [
        Count("pictures", pictures),
        Count("unpaired", unpaired),
        Count("frames", frames),
    ]
}

fn reported(datagrams: u64, packets: u64, reports: u64) -> [Count; 3]
    ensures { map named result ≡ reported_lines datagrams packets reports }
{
    [
        Count("datagrams", datagrams),
        Count("packets", packets),
        Count("reports", reports),
    ]
}

fn recorded(datagrams: u64, sessions: u64) -> [Count; 2]
    ensures { map named result ≡ recorded_lines datagrams sessions }
{
    [Count("datagrams", datagrams), Count("sessions", sessions)]
}

fn replayed(datagrams: u64, bytes: u64) -> [Count; 2]
    ensures { map named result ≡ replayed_lines datagrams bytes }
{
    [Count("datagrams", datagrams), Count("bytes", bytes)]
}
