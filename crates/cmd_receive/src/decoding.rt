ghost use Rattle.std.specs.Prelude.{◌≡◌, ◌≤◌, ℕ, []};
ghost use Rattle.link_receiver.specs.HeardLists.{OutputForm, HasHeard};
ghost use Rattle.vc_ports.specs.Changes.{changed, input_of, output_of};
ghost use Rattle.cmd_receive.specs.Decoding.{TakesInput, Decodes, Unpacks};
ghost use Rattle.cmd_receive.specs.Playouts.{IsNew, IsWell, PlaysInput, playout_state};

use crate::concluding::{conclude, with_record_counts};
use crate::frame_receiver::frame_receiver;
use crate::playout::Playout;
use crate::settings::DecodeSettings;
use cmd_send::Host;
use link_hearing::{HeardInput, hear_input};
use link_receiver::{Receiver, threads_beside};
use link_report::{Answer, Ending};
use std::alloc::Global;
use std::thread::Threads;
use vc_ports::{Sink, Source};
use vc_slice::{Hands, Places};

/// Decodes a capture, or a pcap file: reads at most `settings.packets` entries, or records, takes their
/// datagrams with up to `settings.window` pictures open (2 to 8), and writes the raw frames that they make.
/// With `settings.fill`, where at most 250 frames in a row of a session are missing between two that are
/// written, the first of the two is written once more for each of them. A frame is written as soon as its
/// pictures are released. Each slice that a picture keeps is offered to `settings.workers` workers; those
/// that they don't decode in time are decoded here. With workers, each picture is also transformed in four
/// parts side by side. If the input fails, ends within an entry or a record, or has a byte more than these
/// entries, or if a pcap file has no head or a record that is too long, the frames of the datagrams received
/// so far are still written.
pub fn decode<H: Threads + Copy, S: Source, O: Sink, P: Hands>(
    host: Host<H>,
    settings: &DecodeSettings,
    input: &mut S,
    output: &mut O,
    hands: &mut P,
) -> Answer
    requires least { 2 ≤ settings.now.window }
    requires most { settings.now.window ≤ 8 }
    requires free { P.is_free hands.old }
    ensures { Decodes settings.now.fill settings.now.window settings.now.workers settings.now.packets
        settings.now.form result
        (input_of S.left S.faults input.old input.new)
        (output_of O.held O.faults output.old output.new)
        (changed P.Places.told hands.old hands.new) }
{
    let mut receiver = frame_receiver(&host, settings.fill, settings.window, settings.workers);
    take_input(host, settings, &mut receiver, input, output, hands)
}

/// Unpacks a capture, or a pcap file: reads it as `decode` does, and writes the elementary stream of its
/// first session. That is the session's sequence header, the pictures of the frames that `decode` would
/// write of it, each in its own bytes, and an end of sequence; without pictures it is nothing.
pub fn unpack<H: Threads + Copy, S: Source, O: Sink, P: Hands>(
    host: Host<H>,
    settings: &DecodeSettings,
    input: &mut S,
    output: &mut O,
    hands: &mut P,
) -> Answer
    requires least { 2 ≤ settings.now.window }
    requires most { settings.now.window ≤ 8 }
    requires free { P.is_free hands.old }
    ensures { Unpacks settings.now.window settings.now.workers settings.now.packets settings.now.form
        result
        (input_of S.left S.faults input.old input.new)
        (output_of O.held O.faults output.old output.new)
        (changed P.Places.told hands.old hands.new) }
{
    let threads = threads_beside(host.rt, settings.workers);
    let mut receiver = Receiver::units(host.alloc, threads, settings.window);
    take_input(
        host.unwatched(),
        settings,
        &mut receiver,
        input,
        output,
        hands,
    )
}

// Starts the workers, and has a receiver that has heard nothing take the datagrams of an input.
fn take_input<H: Threads + Copy, S: Source, O: Sink, P: Hands>(
    host: Host<H>,
    settings: &DecodeSettings,
    receiver: &mut Receiver<H>,
    input: &mut S,
    output: &mut O,
    hands: &mut P,
) -> Answer
    requires new { IsNew receiver.old }
    requires free { P.is_free hands.old }
    ensures { (writes : OutputForm) (window : ℕ) → HasHeard writes receiver.old window []
        → TakesInput writes window settings.now.workers settings.now.packets settings.now.form result
        (input_of S.left S.faults input.old input.new)
        (output_of O.held O.faults output.old output.new)
        (changed P.Places.told hands.old hands.new) }
{
    let Ok(()) = hands.start_workers(settings.workers) else {
        return Answer::Stopped(Ending::NoMemory);
    };
    let mut playout = Playout::new(receiver, output, hands, &host.watch);
    let heard = play_input(host.alloc, settings, input, &mut playout);
    with_record_counts(heard.records, conclude(&mut playout, heard.ended))
}

// Has a receiver that has heard nothing hear the datagrams of an input.
fn play_input<H: Threads + Copy, S: Source, O: Sink, P: Places>(
    alloc: Global,
    settings: &DecodeSettings,
    input: &mut S,
    playout: &mut Playout<H, O, P>,
) -> HeardInput
    requires new { IsNew playout.old.receiver.now }
    ensures borrows_output { playout.new.output.ghost_name ≡ playout.old.output.ghost_name }
    ensures borrows_places { playout.new.places.ghost_name ≡ playout.old.places.ghost_name }
    ensures well { IsWell (playout_state O.held O.faults P.told P.bound playout.new) }
    ensures heard { PlaysInput settings.now.form settings.now.packets
        (input_of S.left S.faults input.old input.new)
        (playout_state O.held O.faults P.told P.bound playout.old)
        (playout_state O.held O.faults P.told P.bound playout.new) result }
{
    hear_input(alloc, settings.form, settings.packets, input, playout)
}
