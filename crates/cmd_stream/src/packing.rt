ghost use Rattle.std.specs.Prelude.{◌≡◌, None, Err};
ghost use Rattle.vc_ports.specs.Changes.{input_of, output_of};
ghost use Rattle.vc_ports.specs.Faults.{HasCause};
ghost use Rattle.cmd_stream.specs.PackEndings.{unpacked_ended};
ghost use Rattle.cmd_stream.specs.PackLooping.{PackLoopEnded};
ghost use Rattle.cmd_stream.specs.Packs.{Packs};
ghost use Rattle.cmd_stream.specs.PackViews.{CountsFew, IsBehindUnits};
ghost use Rattle.vc_types.specs.SenderSettings.{packing_view};

use crate::pack_fault::UnitRefusal;
use crate::reading_ended;
use crate::stream::StreamPacker;
use link_report::{Ending, Summary};
use std::alloc::Global;
use vc_ports::{Filled, Sink, Source, fill};
use vc_types::{END_OF_SEQUENCE, PackSettings};
use vc_units::{UnitReader, next_unit};

/// Why no unit more is read.
#[derive(Clone, Copy)]
pub(crate) enum Stop {
    /// The source or the sequence ended.
    Ended,
    /// So many units were read as were asked for.
    AtLimit,
}

/// Packs an elementary stream into a capture: reads at most `packets` data units, up to an end of sequence, a
/// unit that is refused or the end of the input, and writes the entries of the datagrams that carry its
/// pictures in their own bytes, and of an end of sequence after the last (RFC 8450, 4; captures are this
/// project's own). Pictures are fields if `settings.fields` says so, until a header tells. Only one unit and
/// its datagrams are kept; this is not part of the contract.
pub fn pack<S: Source, O: Sink>(
    alloc: Global,
    packets: u32,
    settings: &PackSettings,
    input: &mut S,
    output: &mut O,
) -> Result<Summary, Ending>
    ensures { Packs packets (packing_view settings.now) result
        (input_of S.left S.faults input.old input.new)
        (output_of O.held O.faults output.old output.new) }
{
    let mut packer = StreamPacker::new(alloc, *settings);
    match pack_units(alloc, packets, &mut packer, input, output)? {
        Stop::Ended => packer.finish(output),
        Stop::AtLimit => match fill(input, &mut [0; 1]) {
            Filled::Whole => Err(Ending::PacketLimit { limit: packets }),
            Filled::End(_) => packer.finish(output),
            Filled::Failed(_) => Err(Ending::InputFailed),
        },
    }
}

// Packs so many units at most.
fn pack_units<S: Source, O: Sink>(
    alloc: Global,
    packets: u32,
    packer: &mut StreamPacker,
    input: &mut S,
    output: &mut O,
) -> Result<Stop, Ending>
    requires packer { IsBehindUnits (packing_view packer.old.settings) None packer.old }
    requires few { CountsFew 0 packer.old }
    ensures ended { PackLoopEnded (packing_view packer.old.settings) packets result packer.new
        (input_of S.left S.faults input.old input.new)
        (output_of O.held O.faults output.old output.new) }
    ensures input_cause { HasCause (S.faults input.old) (S.faults input.new)
        (result ≡ Err Ending.InputFailed) }
    ensures output_cause { HasCause (O.faults output.old) (O.faults output.new)
        (result ≡ Err Ending.OutputFailed) }
{
    let mut reader = UnitReader::new(alloc, input);
    pack_with(packets, packer, &mut reader, output)
}

fn pack_with<S: Source, O: Sink>(
    packets: u32,
    packer: &mut StreamPacker,
    reader: &mut UnitReader<S>,
    output: &mut O,
) -> Result<Stop, Ending>
    requires packer { IsBehindUnits (packing_view packer.old.settings) None packer.old }
    requires few { CountsFew 0 packer.old }
    requires place { reader.old.place ≡ 0 }
    requires sound { reader.old.fault ≡ None }
    ensures borrows { reader.new.source.ghost_name ≡ reader.old.source.ghost_name }
    ensures ended { PackLoopEnded (packing_view packer.old.settings) packets result packer.new
        (input_of S.left S.faults reader.old.source.now reader.new.source.now)
        (output_of O.held O.faults output.old output.new) }
    ensures input_cause { HasCause (S.faults reader.old.source.now) (S.faults reader.new.source.now)
        (result ≡ Err Ending.InputFailed) }
    ensures output_cause { HasCause (O.faults output.old) (O.faults output.new)
        (result ≡ Err Ending.OutputFailed) }
{
    for _unit in 0..packets {
        let place = reader.place();
        match next_unit(reader) {
            Ok(Some(unit)) => {
                let is_last = unit.code == END_OF_SEQUENCE;
                match packer.take(unit, output) {
                    Ok(()) if is_last => return Ok(Stop::Ended),
                    Ok(()) => {}
                    Err(refusal) => return Err(unpacked_ended(refusal, place)),
                }
            }
            Ok(None) => return Ok(Stop::Ended),
            Err(fault) => return Err(reading_ended(fault, place)),
        }
    }
    Ok(Stop::AtLimit)
}

// How packing ends where a unit isn't packed.
fn unpacked_ended(refusal: UnitRefusal, place: u64) -> Ending
    ensures { result ≡ unpacked_ended refusal place }
{
    match refusal {
        UnitRefusal::Bad => Ending::StreamBad { place },
        UnitRefusal::TooLarge { slice, bytes } => Ending::SliceTooLarge { slice, bytes },
        UnitRefusal::WriteFault => Ending::OutputFailed,
        UnitRefusal::NoMemory => Ending::NoMemory,
    }
}
