ghost use Rattle.std.specs.Prelude.{◌≡◌, ◌≤◌, [], false, None};
ghost use Rattle.link_report.specs.declared.summary.Summary.{Summary};
ghost use Rattle.cmd_receive.specs.Exchanges.{IsReady, loop_state};
ghost use Rattle.cmd_receive.specs.Looping.{LoopsBack, LoopsBetween};
ghost use Rattle.link_receiver.specs.HeardLists.{AsFrames, HasHeard};
ghost use Rattle.receiver_model.specs.Receptions.{new_reception};
ghost use Rattle.vc_ports.specs.Changes.{changed, input_of, output_of, wire_of};
ghost use Rattle.vc_types.specs.SenderSettings.{sending_view};

use crate::options::LoopOptions;
use crate::outlet::LoopOutlet;
use crate::playout::Playout;
use crate::wire_inlet::WireInlet;
use cmd_send::{FrameOptions, Host, Totals, send_frames};
use link_hearing::has_broken;
use link_model::Tally;
use link_outside::Inbox;
use link_receiver::{Receiver, threads_beside};
use link_report::{Ending, Summary};
use std::thread::Threads;
use vc_ports::{NoPace, Reached, Sink, Source, Wire};
use vc_slice::{Hands, Places};

/// Sends at most `options.sent.frames` raw frames over a wire, and receives them back: listens at an address
/// and aims there, then reads frames one after another, sends each datagram that carries one, and at the end
/// that of the end of the sequence (RFC 8450), and receives once after each. Up to `options.window` pictures
/// are open (2 to 8), and the raw frames of the datagrams that come are written. Each slice that a picture
/// keeps is offered to `options.sent.workers` workers, and the same number of threads, at most 64, encodes
/// each frame. With workers, each received picture is also transformed in four parts side by side. If sending
/// stops early, the frames of the datagrams received so far are still written, unless the output failed or
/// memory ran out. If listening or aiming fails, no input is read. Raw frames are this project's own.
pub fn loop_back<H: Threads + Copy + Send + Sync, S: Source, O: Sink, N: Wire, P: Hands>(
    host: Host<H>,
    options: &LoopOptions,
    input: &mut S,
    output: &mut O,
    wire: &mut N,
    hands: &mut P,
) -> Result<Summary, Ending>
    requires least { 2 ≤ options.now.window }
    requires most { options.now.window ≤ 8 }
    requires free { P.is_free hands.old }
    ensures { LoopsBack (sending_view options.now.sent.sender) options.now.sent.frames options.now.window
        options.now.sent.workers options.now.at.now result
        (input_of S.left S.faults input.old input.new)
        (output_of O.held O.faults output.old output.new)
        (wire_of N.told N.faults wire.old wire.new)
        (changed P.Places.told hands.old hands.new) }
{
    let threads = threads_beside(host.rt, options.sent.workers);
    let mut receiver = Receiver::new(host.alloc, threads, options.window);
    loop_by(host, options, &mut receiver, input, output, wire, hands)
}

// The same by a receiver that has heard nothing.
fn loop_by<H: Threads + Copy + Send + Sync, S: Source, O: Sink, N: Wire, P: Hands>(
    host: Host<H>,
    options: &LoopOptions,
    receiver: &mut Receiver<H>,
    input: &mut S,
    output: &mut O,
    wire: &mut N,
    hands: &mut P,
) -> Result<Summary, Ending>
    requires new { receiver.old.reception ≡ new_reception options.now.window }
    requires heard { HasHeard AsFrames receiver.old options.now.window [] }
    requires free { P.is_free hands.old }
    ensures { LoopsBack (sending_view options.now.sent.sender) options.now.sent.frames options.now.window
        options.now.sent.workers options.now.at.now result
        (input_of S.left S.faults input.old input.new)
        (output_of O.held O.faults output.old output.new)
        (wire_of N.told N.faults wire.old wire.new)
        (changed P.Places.told hands.old hands.new) }
{
    let Ok(()) = hands.start_workers(options.sent.workers) else {
        return Err(Ending::NoMemory);
    };
    let Ok(mut inbox) = Inbox::new(host.alloc) else {
        return Err(Ending::NoMemory);
    };
    let Reached::Yes = wire.listen(options.at) else {
        return Err(Ending::WireFailed);
    };
    let Reached::Yes = wire.aim(options.at) else {
        return Err(Ending::WireFailed);
    };
    let inlet = WireInlet::new(&mut inbox, wire);
    let watch = host.watch;
    let playout = Playout::new(receiver, output, hands, &watch);
    let mut outlet = LoopOutlet { inlet, playout };
    loop_through(host.unwatched(), &options.sent, input, &mut outlet)
}

// Sends frames, hears what comes, and then ends the receiver's input, unless it broke off.
fn loop_through<H: Threads + Copy + Send + Sync, S: Source, O: Sink, N: Wire, P: Places>(
    host: Host<H>,
    options: &FrameOptions,
    input: &mut S,
    outlet: &mut LoopOutlet<N, H, O, P>,
) -> Result<Summary, Ending>
    requires ready { IsReady
        (loop_state N.told N.faults O.held O.faults P.told P.bound outlet.old) }
    ensures borrows_wire { outlet.new.inlet.wire.ghost_name ≡ outlet.old.inlet.wire.ghost_name }
    ensures borrows_output { outlet.new.playout.output.ghost_name
        ≡ outlet.old.playout.output.ghost_name }
    ensures borrows_places { outlet.new.playout.places.ghost_name
        ≡ outlet.old.playout.places.ghost_name }
    ensures loops { LoopsBetween (sending_view options.now.sender) options.now.frames result
        (input_of S.left S.faults input.old input.new)
        (loop_state N.told N.faults O.held O.faults P.told P.bound outlet.old)
        (loop_state N.told N.faults O.held O.faults P.told P.bound outlet.new) }
{
    match send_frames(host, options, input, outlet, &mut NoPace) {
        Ok(totals) => {
            let tally = outlet.playout.drain()?;
            Ok(looped(&totals, tally))
        }
        Err(ending) if has_broken(&ending) => Err(ending),
        Err(ending) => {
            outlet.playout.drain()?;
            Err(ending)
        }
    }
}

// What is said of frames that were sent and heard.
fn looped(totals: &Totals, tally: Tally) -> Summary
    ensures { result ≡
        Summary.Looped totals.now.frames totals.now.datagrams totals.now.bytes tally }
{
    Summary::Looped {
        frames: totals.frames,
        datagrams: totals.datagrams,
        bytes: totals.bytes,
        tally,
    }
}
