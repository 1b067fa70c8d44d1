ghost use Rattle.std.specs.Prelude.{◌≡◌, ◌++◌, OnOk};
ghost use Rattle.std.specs.String.{string_bytes};
ghost use Rattle.link_report.specs.Report.{status_line};
ghost use Rattle.link_report.specs.declared.ending.Ending.TheVariants.{SampleTooLarge, SliceTooLarge};

use crate::counts::{Count, push_count};
use vc_types::NoMemory;

/// Why a command stopped: what the line of its status says.
#[derive(Clone, Copy)]
pub enum Ending {
    /// The words are outside the grammar from this place on.
    Usage { place: u64 },
    NoMemory,
    InputFailed,
    OutputFailed,
    WireFailed,
    /// The capture ends within the entry that begins at this byte.
    CaptureCut { place: u64 },
    PacketLimit { limit: u32 },
    /// The raw frames end within this frame, counted from 0.
    RawCut { frame: u64 },
    /// A sample, at a place of its plane, is not below 2 to the power of its depth.
    SampleTooLarge { place: u64, plane: u8, value: u16 },
    /// A slice does not fit its datagram.
    SliceTooLarge { slice: u32, bytes: u64 },
    /// The unit that begins at this byte can't be played or packed.
    StreamBad { place: u64 },
    FrameLimit { limit: u32 },
}

impl Ending {
    ghost use Rattle.link_report.specs.Report.{status_line, ending_status};

    /// The status of a command that stopped so.
    pub fn status(&self) -> u8
        ensures { result ≡ ending_status self.now }
    {
        match self {
            Ending::Usage { .. } => 2,
            Ending::NoMemory => 3,
            Ending::InputFailed => 4,
            Ending::OutputFailed => 5,
            Ending::WireFailed => 6,
            Ending::CaptureCut { .. } => 8,
            Ending::PacketLimit { .. } => 9,
            Ending::RawCut { .. } => 10,
            Ending::SampleTooLarge { .. } => 11,
            Ending::SliceTooLarge { .. } => 12,
            Ending::StreamBad { .. } => 13,
            Ending::FrameLimit { .. } => 14,
        }
    }

    // Adds the line of the status to a text.
    #[tactic(auto, unfolding(crate::specs::Report::status_line))]
    pub(crate) fn push_to(&self, text: &mut String) -> Result<(), NoMemory>
        ensures { OnOk result
            (string_bytes text.new ≡ string_bytes text.old ++ status_line self.now) }
    {
        match *self {
            Ending::Usage { place } => push_count(text, &Count("usage at", place)),
            Ending::NoMemory => push_words(text, "no memory\n"),
            Ending::InputFailed => push_words(text, "input failed\n"),
            Ending::OutputFailed => push_words(text, "output failed\n"),
            Ending::WireFailed => push_words(text, "wire failed\n"),
            Ending::CaptureCut { place } => push_count(text, &Count("capture cut at", place)),
            Ending::PacketLimit { limit } => {
                push_count(text, &Count("packet limit", u64::from(limit)))
            }
            Ending::RawCut { frame } => push_count(text, &Count("raw cut at frame", frame)),
            Ending::SampleTooLarge {
                place,
                plane,
                value,
            } => push_sample(text, place, plane, value),
            Ending::SliceTooLarge { slice, bytes } => push_slice(text, slice, bytes),
            Ending::StreamBad { place } => push_count(text, &Count("stream bad at", place)),
            Ending::FrameLimit { limit } => {
                push_count(text, &Count("frame limit", u64::from(limit)))
            }
        }
    }
}

fn push_words(text: &mut String, words: &str) -> Result<(), NoMemory>
    ensures { OnOk result (string_bytes text.new ≡ string_bytes text.old ++ words.now) }
{
    text.push_str(words)?;
    Ok(())
}

#[tactic(auto, unfolding(crate::specs::Report::status_line))]
fn push_sample(text: &mut String, place: u64, plane: u8, value: u16) -> Result<(), NoMemory>
    ensures { OnOk result (string_bytes text.new
        ≡ string_bytes text.old ++ status_line (SampleTooLarge place plane value)) }
{
    write!(text, "sample {place} of plane {plane} is {value}\n")?;
    Ok(())
}

#[tactic(auto, unfolding(crate::specs::Report::status_line))]
fn push_slice(text: &mut String, slice: u32, bytes: u64) -> Result<(), NoMemory>
    ensures { OnOk result (string_bytes text.new
        ≡ string_bytes text.old ++ status_line (SliceTooLarge slice bytes)) }
{
    write!(text, "slice {slice} needs {bytes} bytes\n")?;
    Ok(())
}
