ghost use Rattle.std.specs.Prelude.{◌≡◌, IsTrue};
ghost use Rattle.link_outside.specs.Outlets.{SentAll, SentPart};
ghost use Rattle.cmd_send.specs.Counted.{sent_answer};
ghost use Rattle.cmd_send.specs.Sends.{SendsFrames};
ghost use Rattle.cmd_send.specs.OverWire.{SendsOver};
ghost use Rattle.vc_ports.specs.Changes.{input_of, wire_of};
ghost use Rattle.vc_types.specs.SenderSettings.{sending_view};

use crate::{FrameOptions, Host, SendOptions, Totals, send_frames};
use link_outside::WireOutlet;
use link_report::{Ending, Summary};
use std::thread::Threads;
use vc_ports::{Pace, Reached, Source, Wire};

/// Sends at most `options.sent.frames` raw frames to an address: aims the wire, then reads frames one after
/// another, up to one that is refused or the end of the input, sends the datagrams that carry each, and at
/// the end of the input that of the end of the sequence (RFC 8450). Raw frames are this project's own. If the
/// wire can't be aimed, nothing is read. `options.sent.workers` threads, at most 64, encode each frame. The
/// pace has a datagram wait for its turn.
pub fn send<H: Threads + Copy + Send + Sync, S: Source, N: Wire, P: Pace>(
    host: Host<H>,
    options: &SendOptions,
    input: &mut S,
    wire: &mut N,
    pace: &mut P,
) -> Result<Summary, Ending>
    ensures { SendsOver (sending_view options.now.sent.sender) options.now.sent.frames
        options.now.to.now result
        (input_of S.left S.faults input.old input.new)
        (wire_of N.told N.faults wire.old wire.new) }
{
    let Reached::Yes = wire.aim(options.to) else {
        return Err(Ending::WireFailed);
    };
    let mut outlet = WireOutlet::new(wire);
    send_through(host, &options.sent, input, &mut outlet, pace)
}

// Sends frames to a wire that is aimed.
fn send_through<H: Threads + Copy + Send + Sync, S: Source, N: Wire, P: Pace>(
    host: Host<H>,
    options: &FrameOptions,
    input: &mut S,
    outlet: &mut WireOutlet<N>,
    pace: &mut P,
) -> Result<Summary, Ending>
    requires aimed { IsTrue (N.told outlet.old.wire.now).aimed }
    ensures borrows { outlet.new.wire.ghost_name ≡ outlet.old.wire.ghost_name }
    ensures sends { SendsFrames (sending_view options.now.sender) options.now.frames result
        (input_of S.left S.faults input.old input.new)
        (SentAll (wire_of N.told N.faults outlet.old.wire.now outlet.new.wire.now))
        (SentPart (wire_of N.told N.faults outlet.old.wire.now outlet.new.wire.now)) }
{
    let sent = send_frames(host, options, input, outlet, pace);
    answer(sent)
}

// What the command says of frames that were sent.
fn answer(sent: Result<Totals, Ending>) -> Result<Summary, Ending>
    ensures { result ≡ sent_answer sent }
{
    match sent {
        Ok(totals) => Ok(totals.summary()),
        Err(ending) => Err(ending),
    }
}
