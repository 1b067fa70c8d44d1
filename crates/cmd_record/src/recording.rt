ghost use Rattle.std.specs.Prelude.{◌≡◌, ◌≤◌, [], length, IfOk, IsTrue};
ghost use Rattle.cmd_record.specs.Recorders.{HasCounted, RecordsEach, StopsRecording};
ghost use Rattle.cmd_record.specs.Recording.{Records};
ghost use Rattle.link_hearing.specs.FromWire.{listening_at};
ghost use Rattle.vc_ports.specs.Changes.{output_of, wire_of};

use crate::options::RecordOptions;
use crate::recorder::Recorder;
use link_hearing::has_broken;
use link_outside::listen;
use link_report::{Answer, Ending};
use std::alloc::Global;
use vc_ports::{Came, Reached, Sink, Wire, WriteFault};
use vc_types::NoMemory;

// Any datagram has room in so many bytes.
const ROOM: usize = 65535;

/// Records the datagrams that come to an address, whatever they are, at most `options.packets` of them, until
/// `options.sessions` sessions have ended, and writes each as an entry of a capture before it asks for the
/// next. If the wire fails, or `options.packets` datagrams have come, the counts are still returned. A wire
/// that tells nothing ends once no datagram has come for `options.idle` seconds; with 0 it never does.
pub fn record_wire<N: Wire, O: Sink>(
    alloc: Global,
    options: &RecordOptions,
    wire: &mut N,
    output: &mut O,
) -> Answer
    ensures { Records options.now.packets options.now.sessions
        (listening_at options.now.at.now options.now.idle) result
        (wire_of N.told N.faults wire.old wire.new)
        (output_of O.held O.faults output.old output.new) }
{
    let Ok(mut buffer) = room(alloc) else {
        return Answer::Stopped(Ending::NoMemory);
    };
    let mut recorder = Recorder::new(options.sessions);
    let Reached::Yes = listen(wire, options.at, options.idle) else {
        return Answer::Drained(recorder.summary(), Ending::WireFailed);
    };
    let recorded = record_each(options.packets, &mut buffer, &mut recorder, wire, output);
    answer(&recorder, recorded)
}

fn room(alloc: Global) -> Result<Vec<u8>, NoMemory>
    ensures { IfOk result (λ buffer. length buffer.items ≡ 65535) }
{
    let mut buffer = Vec::new(alloc);
    buffer.resize(ROOM, 0)?;
    Ok(buffer)
}

// Records at most so many datagrams from a wire that listens, until the recorder has enough.
fn record_each<N: Wire, O: Sink>(
    packets: u32,
    buffer: &mut [u8],
    recorder: &mut Recorder,
    wire: &mut N,
    output: &mut O,
) -> Result<(), Ending>
    requires listens { IsTrue (N.told wire.old).listens }
    requires room { length buffer.old ≡ 65535 }
    requires none { HasCounted recorder.old recorder.old.sessions [] }
    ensures within { recorder.new.watch.left ≤ recorder.new.sessions }
    ensures records { RecordsEach packets recorder.old.sessions recorder.new result
        (wire_of N.told N.faults wire.old wire.new)
        (output_of O.held O.faults output.old output.new) }
{
    for _place in 0..packets {
        if recorder.has_enough() {
            return Ok(());
        }
        match wire.recv(buffer) {
            Came::Datagram(count) => match recorder.take(&buffer[..count], output) {
                Ok(()) => wire.keep(),
                Err(WriteFault) => return Err(Ending::OutputFailed),
            },
            Came::End => return Ok(()),
            Came::Failed => return Err(Ending::WireFailed),
        }
    }
    if recorder.has_enough() {
        Ok(())
    } else {
        Err(Ending::PacketLimit { limit: packets })
    }
}

// What the command says of what was recorded.
fn answer(recorder: &Recorder, recorded: Result<(), Ending>) -> Answer
    requires { recorder.now.watch.left ≤ recorder.now.sessions }
    ensures { StopsRecording recorder.now recorded result }
{
    match recorded {
        Err(ending) if has_broken(&ending) => Answer::Stopped(ending),
        Err(ending) => Answer::Drained(recorder.summary(), ending),
        Ok(()) => Answer::Done(recorder.summary()),
    }
}
