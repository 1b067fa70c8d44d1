ghost use Rattle.std.specs.Prelude.{◌≡◌, ◌≤◌, None};
ghost use Rattle.link_hearing.specs.Hearing.{HearsCapture, HearsUntil, LooksBehind, LooksOn};
ghost use Rattle.vc_ports.specs.Changes.{input_of};

use crate::capture_inlet::CaptureInlet;
use crate::inlet::Inlet;
use crate::listener::Listener;
use link_capture::CaptureReader;
use link_report::Ending;
use std::alloc::Global;
use vc_ports::{Filled, Source, fill};

/// Passes the datagrams of an inlet to a listener, at most `packets` of them, until it needs no more.
pub fn hear_all<I: Inlet, L: Listener>(
    packets: u32,
    inlet: &mut I,
    listener: &mut L,
) -> Result<(), Ending>
    requires inlet { I.is_ready inlet.old packets }
    requires listener { L.is_ready listener.old }
    ensures { HearsUntil packets
        (I.came inlet.old inlet.new) (I.stopped inlet.old inlet.new)
        (L.heard listener.old listener.new) (L.broke listener.old listener.new)
        (L.wants_one listener.new) (L.has_enough listener.new) result }
{
    for _place in 0..packets {
        if !listener.wants_more() {
            return Ok(());
        }
        match inlet.next()? {
            Some(datagram) => {
                let was_of_use = listener.hear(datagram)?;
                inlet.note(was_of_use);
            }
            None => return Ok(()),
        }
    }
    if listener.wants_more() {
        Err(Ending::PacketLimit { limit: packets })
    } else {
        Ok(())
    }
}

/// Passes the datagrams of a capture's entries to a listener, at most `packets` of them, until it needs no
/// more, and reads one more byte if there were that many.
pub(crate) fn hear_capture<S: Source, L: Listener>(
    alloc: Global,
    packets: u32,
    input: &mut S,
    listener: &mut L,
) -> Result<(), Ending>
    requires { L.is_ready listener.old }
    ensures { HearsCapture packets 1 (input_of S.left S.faults input.old input.new)
        (L.heard listener.old listener.new) (L.broke listener.old listener.new)
        (L.has_enough listener.new) result }
{
    match hear_entries(alloc, packets, input, listener) {
        Ok(()) => Ok(()),
        Err(ending) => look_behind(input, ending),
    }
}

/// Where as many came as were asked for, reads one byte more: there is more, or these were all.
pub(crate) fn look_behind<S: Source>(input: &mut S, ending: Ending) -> Result<(), Ending>
    ensures later { S.faults input.old ≤ S.faults input.new }
    ensures looks { LooksBehind ending (input_of S.left S.faults input.old input.new) result }
{
    match ending {
        Ending::PacketLimit { limit } => look_on(input, limit),
        ending => Err(ending),
    }
}

fn look_on<S: Source>(input: &mut S, limit: u32) -> Result<(), Ending>
    ensures later { S.faults input.old ≤ S.faults input.new }
    ensures looks { LooksOn limit (input_of S.left S.faults input.old input.new) result }
{
    match fill(input, &mut [0; 1]) {
        Filled::Whole => Err(Ending::PacketLimit { limit }),
        Filled::End(_) => Ok(()),
        Filled::Failed(_) => Err(Ending::InputFailed),
    }
}

fn hear_entries<S: Source, L: Listener>(
    alloc: Global,
    packets: u32,
    input: &mut S,
    listener: &mut L,
) -> Result<(), Ending>
    requires { L.is_ready listener.old }
    ensures { HearsCapture packets 0 (input_of S.left S.faults input.old input.new)
        (L.heard listener.old listener.new) (L.broke listener.old listener.new)
        (L.has_enough listener.new) result }
{
    let mut inlet = CaptureInlet {
        reader: CaptureReader::new(alloc, input),
    };
    hear_inlet(packets, &mut inlet, listener)
}

fn hear_inlet<S: Source, L: Listener>(
    packets: u32,
    inlet: &mut CaptureInlet<S>,
    listener: &mut L,
) -> Result<(), Ending>
    requires sound { inlet.old.reader.fault ≡ None }
    requires place { inlet.old.reader.place ≡ 0 }
    requires ready { L.is_ready listener.old }
    ensures borrows { inlet.new.reader.source.ghost_name ≡ inlet.old.reader.source.ghost_name }
    ensures heard { HearsCapture packets 0
        (input_of S.left S.faults inlet.old.reader.source.now inlet.new.reader.source.now)
        (L.heard listener.old listener.new) (L.broke listener.old listener.new)
        (L.has_enough listener.new) result }
{
    hear_all(packets, inlet, listener)
}
