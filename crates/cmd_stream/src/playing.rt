ghost use Rattle.std.specs.Prelude.{◌≡◌, ◌-◌, ◌^◌, None, Err, OnOk};
ghost use Rattle.std.specs.Result.{result_map_both};
ghost use Rattle.vc_ports.specs.Changes.{input_of, output_of};
ghost use Rattle.vc_ports.specs.Faults.{HasCause};
ghost use Rattle.cmd_stream.specs.PlayEndings.{reading_ended, taking_ended};
ghost use Rattle.cmd_stream.specs.PlayLooping.{PlayLoopEnded, summary_of};
ghost use Rattle.cmd_stream.specs.Playing.{Plays};
ghost use Rattle.cmd_stream.specs.PlaySteps.{state_so_far};
ghost use Rattle.cmd_stream.specs.Stream.{at_start};
ghost use Rattle.cmd_stream.specs.Taking.{CountsAtMost};
ghost use Rattle.cmd_stream.specs.PlayViews.{player_state};

use crate::machine::Machine;
use crate::play_fault::TakeFault;
use crate::player::Player;
use crate::telling::tell_played;
use cmd_send::Host;
use link_report::{Ending, Summary};
use run_counts::RunCounts;
use std::thread::Threads;
use vc_ports::{Filled, Sink, Source, fill};
use vc_types::END_OF_SEQUENCE;
use vc_units::{UnitFault, UnitReader, next_unit};

/// Why no unit more is read.
#[derive(Clone, Copy)]
pub(crate) enum Stop {
    /// The source or the sequence ended.
    Ended,
    /// So many units were read as were asked for.
    AtLimit,
}

/// Plays an elementary stream, of high quality or of low delay: reads at most `packets` data units, up to an
/// end of sequence, a unit that is refused or the end of the input, and writes the raw frames that its
/// pictures make (ST 2042-1, sequence; raw frames are this project's own). A frame is written as soon as it
/// is complete. Four threads share the transform of a picture, and only one unit, one picture and at most one
/// earlier field are kept; this is not part of the contract.
pub fn play<H: Threads + Copy + Send + Sync, S: Source, O: Sink>(
    host: Host<H>,
    packets: u32,
    input: &mut S,
    output: &mut O,
) -> Result<Summary, Ending>
    ensures { Plays packets result (input_of S.left S.faults input.old input.new)
        (output_of O.held O.faults output.old output.new) }
{
    let machine = Machine {
        rt: host.rt,
        alloc: host.alloc,
    };
    let watch = host.watch;
    let mut player = Player::new();
    match play_all(machine, packets, &watch, &mut player, input, output) {
        Ok(()) => Ok(player.summary()),
        Err(ending) => Err(ending),
    }
}

// Plays the units of a stream, and asks for the end behind the last of so many.
fn play_all<H: Threads + Copy + Send + Sync, S: Source, O: Sink>(
    host: Machine<H>,
    packets: u32,
    watch: &Option<&RunCounts>,
    player: &mut Player,
    input: &mut S,
    output: &mut O,
) -> Result<(), Ending>
    requires { player_state player.old ≡ state_so_far at_start }
    ensures few { OnOk result (CountsAtMost (2 ^ 32 - 1) (player_state player.new)) }
    ensures plays { Plays packets (result_map_both
        (λ done. summary_of (player_state player.new)) (λ ending. ending) result)
        (input_of S.left S.faults input.old input.new)
        (output_of O.held O.faults output.old output.new) }
{
    match play_units(host, packets, watch, player, input, output)? {
        Stop::Ended => Ok(()),
        Stop::AtLimit => match fill(input, &mut [0; 1]) {
            Filled::Whole => Err(Ending::PacketLimit { limit: packets }),
            Filled::End(_) => Ok(()),
            Filled::Failed(_) => Err(Ending::InputFailed),
        },
    }
}

// Plays so many units at most.
fn play_units<H: Threads + Copy + Send + Sync, S: Source, O: Sink>(
    host: Machine<H>,
    packets: u32,
    watch: &Option<&RunCounts>,
    player: &mut Player,
    input: &mut S,
    output: &mut O,
) -> Result<Stop, Ending>
    requires { player_state player.old ≡ state_so_far at_start }
    ensures ended { PlayLoopEnded packets result (player_state player.new)
        (input_of S.left S.faults input.old input.new)
        (output_of O.held O.faults output.old output.new) }
    ensures input_cause { HasCause (S.faults input.old) (S.faults input.new)
        (result ≡ Err Ending.InputFailed) }
    ensures output_cause { HasCause (O.faults output.old) (O.faults output.new)
        (result ≡ Err Ending.OutputFailed) }
{
    let mut reader = UnitReader::new(host.alloc, input);
    play_with(host, packets, watch, player, &mut reader, output)
}

fn play_with<H: Threads + Copy + Send + Sync, S: Source, O: Sink>(
    host: Machine<H>,
    packets: u32,
    watch: &Option<&RunCounts>,
    player: &mut Player,
    reader: &mut UnitReader<S>,
    output: &mut O,
) -> Result<Stop, Ending>
    requires player { player_state player.old ≡ state_so_far at_start }
    requires place { reader.old.place ≡ 0 }
    requires sound { reader.old.fault ≡ None }
    ensures borrows { reader.new.source.ghost_name ≡ reader.old.source.ghost_name }
    ensures ended { PlayLoopEnded packets result (player_state player.new)
        (input_of S.left S.faults reader.old.source.now reader.new.source.now)
        (output_of O.held O.faults output.old output.new) }
    ensures input_cause { HasCause (S.faults reader.old.source.now) (S.faults reader.new.source.now)
        (result ≡ Err Ending.InputFailed) }
    ensures output_cause { HasCause (O.faults output.old) (O.faults output.new)
        (result ≡ Err Ending.OutputFailed) }
{
    for _unit in 0..packets {
        let place = reader.place();
        match next_unit(reader) {
            Ok(Some(unit)) => {
                let is_last = unit.code == END_OF_SEQUENCE;
                let bytes = unit.body.len();
                match player.take(host, unit, output) {
                    Ok(()) if is_last => return Ok(Stop::Ended),
                    Ok(()) => tell_played(watch, bytes, player),
                    Err(fault) => return Err(taking_ended(fault, place)),
                }
            }
            Ok(None) => return Ok(Stop::Ended),
            Err(fault) => return Err(reading_ended(fault, place)),
        }
    }
    Ok(Stop::AtLimit)
}

/// How playing or packing ends where a unit that begins at a place isn't read.
pub fn reading_ended(fault: UnitFault, place: u64) -> Ending
    ensures { result ≡ reading_ended fault place }
{
    match fault {
        UnitFault::ReadFault => Ending::InputFailed,
        UnitFault::NoMemory => Ending::NoMemory,
        UnitFault::Prefix | UnitFault::Code | UnitFault::Offset | UnitFault::Short => {
            Ending::StreamBad { place }
        }
    }
}

// How playing ends where the unit isn't taken.
fn taking_ended(fault: TakeFault, place: u64) -> Ending
    ensures { result ≡ taking_ended fault place }
{
    match fault {
        TakeFault::Refused => Ending::StreamBad { place },
        TakeFault::WriteFault => Ending::OutputFailed,
        TakeFault::NoMemory => Ending::NoMemory,
    }
}
