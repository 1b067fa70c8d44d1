ghost use Rattle.std.specs.Prelude.{◌≡◌, None};
ghost use Rattle.link_hearing.specs.Inputs.{HearsInput};
ghost use Rattle.link_hearing.specs.FileHearing.{HearsRecords};
ghost use Rattle.vc_ports.specs.Changes.{input_of};

use crate::form::InputForm;
use crate::heard::{HeardInput, RecordCounts};
use crate::hearing::{hear_all, hear_capture, look_behind};
use crate::listener::Listener;
use crate::pcap_inlet::PcapInlet;
use pcap_in::{CarriedFeed, PcapReader};
use std::alloc::Global;
use vc_ports::Source;

/// Passes the datagrams of an input to a listener, of at most `packets` entries of a capture, or records of a
/// pcap file, until it needs no more. If there were that many, one more byte is read.
pub fn hear_input<S: Source, L: Listener>(
    alloc: Global,
    form: InputForm,
    packets: u32,
    input: &mut S,
    listener: &mut L,
) -> HeardInput
    requires { L.is_ready listener.old }
    ensures { HearsInput form packets (input_of S.left S.faults input.old input.new)
        (L.heard listener.old listener.new) (L.broke listener.old listener.new)
        (L.has_enough listener.new) result }
{
    match form {
        InputForm::Capture => HeardInput {
            ended: hear_capture(alloc, packets, input, listener),
            records: None,
        },
        InputForm::Pcap { port } => hear_pcap(alloc, port, packets, input, listener),
    }
}

fn hear_pcap<S: Source, L: Listener>(
    alloc: Global,
    port: u16,
    packets: u32,
    input: &mut S,
    listener: &mut L,
) -> HeardInput
    requires { L.is_ready listener.old }
    ensures { HearsInput (InputForm.Pcap port) packets
        (input_of S.left S.faults input.old input.new)
        (L.heard listener.old listener.new) (L.broke listener.old listener.new)
        (L.has_enough listener.new) result }
{
    let HeardInput { ended, records } = hear_records(alloc, port, packets, input, listener);
    match ended {
        Ok(()) => HeardInput {
            ended: Ok(()),
            records,
        },
        Err(ending) => HeardInput {
            ended: look_behind(input, ending),
            records,
        },
    }
}

fn hear_records<S: Source, L: Listener>(
    alloc: Global,
    port: u16,
    packets: u32,
    input: &mut S,
    listener: &mut L,
) -> HeardInput
    requires { L.is_ready listener.old }
    ensures { HearsRecords port packets (input_of S.left S.faults input.old input.new)
        (L.heard listener.old listener.new) (L.broke listener.old listener.new)
        (L.has_enough listener.new) result }
{
    let mut inlet = PcapInlet {
        reader: PcapReader::new(alloc, input),
        feed: CarriedFeed::new(port, packets),
    };
    hear_feed(packets, &mut inlet, listener)
}

fn hear_feed<S: Source, L: Listener>(
    packets: u32,
    inlet: &mut PcapInlet<S>,
    listener: &mut L,
) -> HeardInput
    requires head { inlet.old.reader.head ≡ None }
    requires place { inlet.old.reader.place ≡ 0 }
    requires sound { inlet.old.reader.fault ≡ None }
    requires packets { inlet.old.feed.packets ≡ packets }
    requires records { inlet.old.feed.records ≡ 0 }
    requires other { inlet.old.feed.other ≡ 0 }
    requires ready { L.is_ready listener.old }
    ensures borrows { inlet.new.reader.source.ghost_name ≡ inlet.old.reader.source.ghost_name }
    ensures heard { HearsRecords inlet.old.feed.port packets
        (input_of S.left S.faults inlet.old.reader.source.now inlet.new.reader.source.now)
        (L.heard listener.old listener.new) (L.broke listener.old listener.new)
        (L.has_enough listener.new) result }
{
    let ended = hear_all(packets, inlet, listener);
    HeardInput {
        ended,
        records: Some(RecordCounts {
            records: inlet.feed.records(),
            other: inlet.feed.other(),
        }),
    }
}
