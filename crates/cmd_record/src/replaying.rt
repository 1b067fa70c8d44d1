ghost use Rattle.std.specs.Prelude.{◌≡◌};
ghost use Rattle.vc_ports.specs.Changes.{input_of, wire_of};
ghost use Rattle.cmd_record.specs.Replayers.{CanSendAgain, PlaysCapture, replay_answer, replay_state};
ghost use Rattle.cmd_record.specs.Replaying.{Replays};

use crate::options::ReplayOptions;
use crate::replayer::Replayer;
use link_hearing::{InputForm, hear_input};
use link_report::{Answer, Ending};
use std::alloc::Global;
use vc_ports::{Pace, Reached, Source, Wire};

/// Sends the datagrams of a capture's entries to an address, each as it is, at most `options.packets` of
/// them: aims the wire, then reads entries one after another, and sends the datagram of each before the next
/// is read. It stops at an entry of more than 65,507 bytes, which no datagram can have. If the wire can't be
/// aimed, nothing is read. The pace has a datagram wait for the moment of its RTP timestamp, if it has one.
pub fn replay_capture<S: Source, N: Wire, P: Pace>(
    alloc: Global,
    options: &ReplayOptions,
    input: &mut S,
    wire: &mut N,
    pace: &mut P,
) -> Answer
    ensures { Replays options.now.packets options.now.to.now result
        (input_of S.left S.faults input.old input.new)
        (wire_of N.told N.faults wire.old wire.new) }
{
    let Reached::Yes = wire.aim(options.to) else {
        return Answer::Stopped(Ending::WireFailed);
    };
    let mut replayer = Replayer::new(wire, pace);
    replay_through(alloc, options.packets, input, &mut replayer)
}

// Sends the datagrams of entries to a wire that is aimed.
fn replay_through<S: Source, N: Wire, P: Pace>(
    alloc: Global,
    packets: u32,
    input: &mut S,
    replayer: &mut Replayer<N, P>,
) -> Answer
    requires ready { CanSendAgain (replay_state N.told N.faults replayer.old) }
    requires none { replayer.old.datagrams ≡ 0 }
    ensures borrows { replayer.new.wire.ghost_name ≡ replayer.old.wire.ghost_name }
    ensures plays { PlaysCapture packets (input_of S.left S.faults input.old input.new)
        (replay_state N.told N.faults replayer.old) (replay_state N.told N.faults replayer.new)
        result }
{
    let heard = hear_input(alloc, InputForm::Capture, packets, input, replayer);
    answer(replayer, heard.ended)
}

// What the command says of what was sent.
fn answer<N: Wire, P: Pace>(replayer: &Replayer<N, P>, heard: Result<(), Ending>) -> Answer
    ensures { result ≡ replay_answer (replay_state N.told N.faults replayer.now) heard }
{
    match heard {
        Ok(()) => Answer::Done(replayer.summary()),
        Err(Ending::NoMemory) => Answer::Stopped(Ending::NoMemory),
        Err(Ending::OutputFailed) => match replayer.long_at {
            Some(place) => Answer::Drained(replayer.summary(), Ending::StreamBad { place }),
            None => Answer::Stopped(Ending::WireFailed),
        },
        Err(ending) => Answer::Drained(replayer.summary(), ending),
    }
}
