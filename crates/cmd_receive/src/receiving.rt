ghost use Rattle.std.specs.Prelude.{◌≡◌, ◌≤◌, ℕ, [], IsTrue};
ghost use Rattle.cmd_receive.specs.Ends.{Counts};
ghost use Rattle.cmd_receive.specs.Playouts.{IsNew, IsWell, playout_state};
ghost use Rattle.cmd_receive.specs.Receiving.{ReceivesFrom};
ghost use Rattle.cmd_receive.specs.Sessions.{HearsWire};
ghost use Rattle.link_hearing.specs.FromWire.{listening_at};
ghost use Rattle.link_receiver.specs.HeardLists.{HasHeard, frames_form};
ghost use Rattle.receiver_model.specs.Receptions.{new_reception};
ghost use Rattle.vc_ports.specs.Changes.{changed, output_of, wire_of};

use crate::SessionCount;
use crate::concluding::conclude;
use crate::frame_receiver::frame_receiver;
use crate::options::ReceiveOptions;
use crate::playout::Playout;
use crate::session_playout::SessionPlayout;
use crate::wire_inlet::WireInlet;
use cmd_send::Host;
use link_hearing::hear_all;
use link_outside::{Inbox, listen};
use link_receiver::Receiver;
use link_report::{Answer, Ending, Summary};
use std::thread::Threads;
use vc_ports::{Reached, Sink, Wire};
use vc_slice::{Hands, Places};

/// Receives at most `options.packets` datagrams at an address, until `options.sessions` sessions have ended,
/// with up to `options.window` pictures open (2 to 8), and writes the raw frames that they make. With
/// `options.fill` gaps are filled as `decode` fills them. A frame is written as soon as its pictures are
/// released. Each slice that a picture keeps is offered to `options.workers` workers; those that they don't
/// decode in time are decoded here. With workers, each picture is also transformed in four parts side by
/// side. If the wire fails, or `options.packets` datagrams have come, the frames of the datagrams received so
/// far are still written. A wire that tells nothing ends once `options.idle` seconds have brought the session
/// nothing new; with 0 it never does.
pub fn recv<H: Threads + Copy, N: Wire, O: Sink, P: Hands>(
    host: Host<H>,
    options: &ReceiveOptions,
    wire: &mut N,
    output: &mut O,
    hands: &mut P,
) -> Answer
    requires least { 2 ≤ options.now.window }
    requires most { options.now.window ≤ 8 }
    requires free { P.is_free hands.old }
    ensures { ReceivesFrom options.now.fill options.now.window options.now.workers options.now.packets
        options.now.sessions (listening_at options.now.at.now options.now.idle) result
        (wire_of N.told N.faults wire.old wire.new)
        (output_of O.held O.faults output.old output.new)
        (changed P.Places.told hands.old hands.new) }
{
    let mut receiver = frame_receiver(&host, options.fill, options.window, options.workers);
    receive(host, options, &mut receiver, wire, output, hands)
}

// Starts the workers, and has a receiver that has heard nothing take what comes to an address.
fn receive<H: Threads + Copy, N: Wire, O: Sink, P: Hands>(
    host: Host<H>,
    options: &ReceiveOptions,
    receiver: &mut Receiver<H>,
    wire: &mut N,
    output: &mut O,
    hands: &mut P,
) -> Answer
    requires new { receiver.old.reception ≡ new_reception options.now.window }
    requires heard { HasHeard (frames_form options.now.fill) receiver.old options.now.window [] }
    requires free { P.is_free hands.old }
    ensures { ReceivesFrom options.now.fill options.now.window options.now.workers options.now.packets
        options.now.sessions (listening_at options.now.at.now options.now.idle) result
        (wire_of N.told N.faults wire.old wire.new)
        (output_of O.held O.faults output.old output.new)
        (changed P.Places.told hands.old hands.new) }
{
    let Ok(()) = hands.start_workers(options.workers) else {
        return Answer::Stopped(Ending::NoMemory);
    };
    let Ok(mut inbox) = Inbox::new(host.alloc) else {
        return Answer::Stopped(Ending::NoMemory);
    };
    let Reached::Yes = listen(wire, options.at, options.idle) else {
        let tally = *receiver.tally();
        return Answer::Drained(Summary::Judged { tally }, Ending::WireFailed);
    };
    let mut inlet = WireInlet::new(&mut inbox, wire);
    let playout = Playout::new(receiver, output, hands, &host.watch);
    let count = SessionCount::new(options.sessions);
    let mut listener = SessionPlayout { playout, count };
    let heard = hear_wire(options.packets, &mut inlet, &mut listener);
    conclude(&mut listener.playout, heard)
}

// Has a receiver that has heard nothing hear at most so many datagrams, until its sessions have ended.
fn hear_wire<H: Threads + Copy, N: Wire, O: Sink, P: Places>(
    packets: u32,
    inlet: &mut WireInlet<N>,
    listener: &mut SessionPlayout<H, O, P>,
) -> Result<(), Ending>
    requires listens { IsTrue (N.told inlet.old.wire.now).listens }
    requires new { IsNew listener.old.playout.receiver.now }
    ensures borrows_output { listener.new.playout.output.ghost_name
        ≡ listener.old.playout.output.ghost_name }
    ensures borrows_places { listener.new.playout.places.ghost_name
        ≡ listener.old.playout.places.ghost_name }
    ensures borrows_wire { inlet.new.wire.ghost_name ≡ inlet.old.wire.ghost_name }
    ensures well { IsWell (playout_state O.held O.faults P.told P.bound listener.new.playout) }
    ensures heard { (sessions : ℕ) → Counts listener.old.count sessions []
        → HearsWire packets sessions
        (wire_of N.told N.faults inlet.old.wire.now inlet.new.wire.now)
        (playout_state O.held O.faults P.told P.bound listener.old.playout)
        (playout_state O.held O.faults P.told P.bound listener.new.playout) result }
{
    hear_all(packets, inlet, listener)
}
