ghost use Rattle.std.specs.Prelude.{◌<◌, length};

use crate::wrong_input::frame_bytes;
use link_net::Limits;
use link_words::{
    Settings, first_of, progress_of, read_words, says_progress, seconds_of, written_of,
};
use run_counts::{Counts, Flow};
use vc_types::Words;

/// Which datagrams the lines of a command count.
#[derive(Clone, Copy, PartialEq)]
pub(crate) enum Counted {
    // Those of frames that are encoded or decoded.
    Passed,
    // The units of an elementary stream.
    Units,
    Sent,
    Came,
}

/// What the lines say of a command while it runs.
#[derive(Clone, Copy)]
pub(crate) struct LineForm {
    pub(crate) counted: Counted,
    pub(crate) has_frames: bool,
    /// What is lost on the way in, and for how long nothing came.
    pub(crate) has_losses: bool,
    /// What is refused on the way out, and how late datagrams are.
    pub(crate) has_delays: bool,
}

impl LineForm {
    /// The datagrams, or units, that it counts.
    pub(crate) fn flow(&self, counts: &Counts) -> Flow {
        match self.counted {
            Counted::Passed | Counted::Units => counts.passed,
            Counted::Sent => counts.sent,
            Counted::Came => counts.came,
        }
    }
}

/// When the lines come.
#[derive(Clone, Copy)]
pub(crate) struct Rhythm {
    /// The seconds before the first, and from one to the next.
    pub(crate) first: u64,
    pub(crate) every: u64,
    /// Each in the place of the one before it.
    pub(crate) in_place: bool,
}

/// What is done beside a command.
#[derive(Clone, Copy)]
pub(crate) struct Plan {
    pub(crate) lines: Option<(LineForm, Rhythm)>,
    /// After how many seconds the wire listens no longer; 0: it goes on.
    pub(crate) seconds: u32,
    /// After how many frames it does; 0: it goes on.
    pub(crate) frames: u32,
    /// With how many bytes the input ends, if it is to end before its own end.
    pub(crate) most: Option<u64>,
    /// Whether it is said which frames weren't written, and how many others were written in the place of
    /// some.
    pub(crate) says_missing: bool,
    pub(crate) says_filled: bool,
}

impl Plan {
    /// What the words ask for, where the report is seen on a terminal or isn't.
    pub(crate) fn of(words: &Words, on_terminal: bool) -> Plan {
        let mut plan = Plan {
            lines: None,
            seconds: 0,
            frames: 0,
            most: None,
            says_missing: false,
            says_filled: false,
        };
        let Ok(settings) = read_words(words) else {
            return plan;
        };
        if words.len() == 0 {
            return plan;
        }
        plan.seconds = seconds_of(words);
        if matches!(settings, Settings::Recv { .. }) {
            plan.frames = written_of(words);
        }
        plan.says_missing = matches!(settings, Settings::Decode { .. } | Settings::Recv { .. });
        plan.says_filled = matches!(
            settings,
            Settings::Decode { fill: true, .. } | Settings::Recv { fill: true, .. }
        );
        plan.most = bytes_of_first(words, &settings);
        if let Some(form) = form_of(&settings) {
            if let Some(rhythm) = rhythm_of(words, on_terminal && form.counted.is_of_files()) {
                plan.lines = Some((form, rhythm));
            }
        }
        plan
    }
}

impl Plan {
    /// The limits of a wire, with the ends that the words ask for.
    pub(crate) fn limits(&self, limits: Limits) -> Limits {
        Limits {
            seconds: self.seconds,
            frames: u64::from(self.frames),
            ..limits
        }
    }
}

impl Counted {
    // Whether a command that counts these reads a file, whose end one waits for.
    fn is_of_files(self) -> bool {
        matches!(self, Counted::Passed | Counted::Units)
    }
}

// How many bytes the frames have with which the input ends.
fn bytes_of_first(words: &Words, settings: &Settings) -> Option<u64>
    requires { 0 < length words.now }
{
    let first = u64::from(first_of(words));
    if first == 0 {
        return None;
    }
    match settings {
        Settings::Encode { sender, .. }
        | Settings::Send { sender, .. }
        | Settings::Loop { sender, .. } => Some(first.saturating_mul(frame_bytes(sender))),
        _ => None,
    }
}

fn rhythm_of(words: &Words, in_place: bool) -> Option<Rhythm>
    requires { 0 < length words.now }
{
    let every = u64::from(progress_of(words));
    if every > 0 {
        Some(Rhythm {
            first: every,
            every,
            in_place: false,
        })
    } else if in_place && !says_progress(words) {
        Some(Rhythm {
            first: 2,
            every: 1,
            in_place: true,
        })
    } else {
        None
    }
}

// The form of a command's lines, if it has any.
fn form_of(settings: &Settings) -> Option<LineForm> {
    let form = LineForm {
        counted: Counted::Passed,
        has_frames: true,
        has_losses: false,
        has_delays: false,
    };
    match settings {
        Settings::Encode { .. } | Settings::Decode { .. } => Some(form),
        Settings::Play { .. } => Some(LineForm {
            counted: Counted::Units,
            ..form
        }),
        Settings::Send { .. } => Some(LineForm {
            counted: Counted::Sent,
            has_delays: true,
            ..form
        }),
        Settings::Replay { .. } => Some(LineForm {
            counted: Counted::Sent,
            has_frames: false,
            has_delays: true,
            ..form
        }),
        Settings::Recv { .. } => Some(LineForm {
            counted: Counted::Came,
            has_losses: true,
            ..form
        }),
        Settings::Loop { .. } => Some(LineForm {
            counted: Counted::Came,
            ..form
        }),
        Settings::Record { .. } => Some(LineForm {
            counted: Counted::Came,
            has_frames: false,
            ..form
        }),
        _ => None,
    }
}
