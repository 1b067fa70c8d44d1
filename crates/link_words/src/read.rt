ghost use Rattle.std.specs.Prelude.{◌≡◌, ◌<◌, length, IfOk, IfSome};
ghost use Rattle.std.specs.Option.{option_map};
ghost use Rattle.std.specs.Result.{result_map_both};
ghost use Rattle.link_words.specs.Settings.{meaning, lacks_name, settings_of};
ghost use Rattle.link_words.specs.Views.{meaning_view, CanPack, CanReport, HasWindow};

use crate::grammar::first_bad;
use crate::lookup::{given, is_set, lacks, pcap_of, rate_of, text_given, value_of};
use crate::options::{Command, Name, command_of, names_of};
use crate::sender::{generator, sender};
use crate::settings::Settings;
use crate::usage::Usage;
use vc_types::Words;

// The settings of a command whose words fit.
#[tactic(auto, unfolding(crate::specs::Settings::meaning))]
fn settings<'a>(command: Command, words: &'a Words) -> Option<Settings<'a>>
    requires { 0 < length words.now }
    ensures value { option_map meaning_view result ≡ meaning command words.now }
    ensures window { IfSome result HasWindow }
    ensures packing { IfSome result CanPack }
    ensures reporting { IfSome result CanReport }
{
    let window = given(words, Name::Window) as u8;
    let workers = given(words, Name::Workers);
    let packets = given(words, Name::Packets);
    let pcap = pcap_of(words);
    let frames = given(words, Name::Frames);
    Some(match command {
        Command::Decode => Settings::Decode {
            window,
            workers,
            packets,
            pcap,
            fill: is_set(words, Name::Fill),
        },
        Command::Encode => Settings::Encode {
            sender: sender(words)?,
            frames,
            workers,
        },
        Command::Send => Settings::Send {
            sender: sender(words)?,
            frames,
            workers,
            paced: is_set(words, Name::Pace),
            to: value_of(words, Name::To),
        },
        Command::Recv => Settings::Recv {
            window,
            workers,
            packets,
            sessions: given(words, Name::Sessions),
            idle: given(words, Name::Idle),
            fill: is_set(words, Name::Fill),
            at: value_of(words, Name::At),
        },
        Command::Loop => Settings::Loop {
            sender: sender(words)?,
            frames,
            window,
            workers,
            at: value_of(words, Name::At),
        },
        Command::Unpack => Settings::Unpack {
            window,
            workers,
            packets,
            pcap,
        },
        Command::Pack => Settings::Pack {
            packets,
            size: given(words, Name::Size),
            ssrc: given(words, Name::Ssrc),
            pt: given(words, Name::Pt) as u8,
            seq: given(words, Name::Seq),
            rate: rate_of(words),
        },
        Command::Play => Settings::Play { packets },
        Command::Gen => Settings::Gen {
            frames_of: generator(words)?,
            check: is_set(words, Name::Check),
            window,
            workers,
        },
        Command::Rtcp => Settings::Rtcp {
            every: given(words, Name::Every),
            ssrc: given(words, Name::Reporter),
            name: text_given(words, Name::Cname, "vc2link"),
            is_sender: is_set(words, Name::BySender),
            ntp: given(words, Name::Ntp),
            packets,
            pcap,
        },
        Command::RtcpShow => Settings::RtcpShow { packets, pcap },
        Command::Probe => Settings::Probe { packets, pcap },
        Command::Record => Settings::Record {
            packets,
            sessions: given(words, Name::Sessions),
            idle: given(words, Name::Idle),
            at: value_of(words, Name::At),
        },
        Command::Replay => Settings::Replay {
            packets,
            paced: is_set(words, Name::Pace),
            to: value_of(words, Name::To),
        },
    })
}

// A name that has to be given is missing.
#[tactic(auto, unfolding(crate::specs::Settings::lacks_name))]
fn lacks_name(command: Command, words: &Words) -> bool
    requires { 0 < length words.now }
    ensures { result ≡ lacks_name command words.now }
{
    names_of(command).iter().any(|name| lacks(words, *name))
}

/// Reads the arguments after the program's name: a command, and then pairs of a name and a value in any
/// order. An option that is not given has its default.
#[tactic(auto, unfolding(crate::specs::Settings::settings_of))]
pub fn read_words<'a>(words: &'a Words) -> Result<Settings<'a>, Usage>
    ensures exact { settings_of words.now
        ≡ result_map_both meaning_view (λ usage. usage.place) result }
    ensures window { IfOk result HasWindow }
    ensures packing { IfOk result CanPack }
    ensures reporting { IfOk result CanReport }
{
    if words.len() == 0 {
        return Err(Usage { place: 0 });
    }
    let Some(command) = command_of(words.word(0)) else {
        return Err(Usage { place: 0 });
    };
    let bad = first_bad(command, words);
    if bad < words.len() {
        return Err(Usage { place: bad });
    }
    if words.len() % 2 == 0 || lacks_name(command, words) {
        return Err(Usage { place: words.len() });
    }
    match settings(command, words) {
        Some(settings) => Ok(settings),
        None => Err(Usage { place: words.len() }),
    }
}
