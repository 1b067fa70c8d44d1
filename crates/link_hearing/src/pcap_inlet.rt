ghost use Rattle.std.proofs.Common.{◌∙◌};
ghost use Rattle.std.specs.Prelude.{◌≡◌, slice_range, refl, IfOk};
ghost use Rattle.link_hearing.specs.PcapInlets.{none_brought, more_brought, feed_stops};
ghost use Rattle.link_hearing.specs.PcapInlets.{StoppedFeed, record_ending};
ghost use Rattle.pcap_in.specs.Feeding.{Brought, IsReady, StandsIn, feed_value};

use crate::inlet::Inlet;
use bytes::Bytes;
use link_report::Ending;
use pcap_in::{CarriedFeed, Fed, Payload, PcapFault, PcapReader, next_payload};
use std::alloc::{AllocError, Global};
use vc_ports::Source;

/// The payloads that the records of a pcap file carry. It keeps the source borrowed.
#[derive(Drop)]
pub(crate) struct PcapInlet<'a, S> {
    pub(crate) reader: PcapReader<'a, S>,
    pub(crate) feed: CarriedFeed,
}

impl<'a, S: Source> Inlet for PcapInlet<'a, S> {
    ghost is_ready = { λ x more. IsReady more x.reader x.feed };

    ghost came = { λ x y datagrams. (y.reader.source.ghost_name ≡ x.reader.source.ghost_name)
        × Brought (feed_value S.left S.faults x.reader x.feed)
        (feed_value S.left S.faults y.reader y.feed) datagrams };

    ghost stopped = { λ x y datagrams end. (y.reader.source.ghost_name ≡ x.reader.source.ghost_name)
        × StoppedFeed (feed_value S.left S.faults x.reader x.feed)
        (feed_value S.left S.faults y.reader y.feed) datagrams end };

    fn next(&mut self) -> Result<Option<Bytes>, Ending> {
        match next_payload(&mut self.feed, &mut self.reader) {
            Ok(Fed::Payload(payload)) => match shared(payload) {
                Ok(datagram) => Ok(Some(datagram)),
                Err(_) => Err(Ending::NoMemory),
            },
            Ok(Fed::End) => Ok(None),
            Ok(Fed::Limit) => Err(Ending::PacketLimit {
                limit: self.feed.records(),
            }),
            Err(fault) => Err(record_ending(fault)),
        }
    }

    fn note(&mut self, _was_of_use: bool) {}

    ghost none = { λ x. (refl, none_brought _) };

    ghost more = { λ x y z first second a b.
        (b.0 ∙ a.0, more_brought _ _ _ first second a.1 b.1) };

    ghost stops_then = { λ x y z first end a b.
        (b.0 ∙ a.0, feed_stops _ _ _ first end a.1 b.1) };
}

// A payload by itself, of which nothing is copied.
fn shared(payload: Payload) -> Result<Bytes, AllocError>
    requires { StandsIn payload.kept.items payload.from payload.to }
    ensures { IfOk result
        (λ bytes. bytes ≡ slice_range payload.kept.items payload.from payload.to) }
{
    let Payload { kept, from, to } = payload;
    Bytes::from_vec(kept)?.slice(from..to)
}

// How a command ends where no record is read.
fn record_ending(fault: PcapFault) -> Ending
    ensures { result ≡ record_ending fault }
{
    match fault {
        PcapFault::Header { place } | PcapFault::Length { place } => Ending::StreamBad { place },
        PcapFault::Cut { place } => Ending::CaptureCut { place },
        PcapFault::ReadFault => Ending::InputFailed,
        PcapFault::NoMemory => Ending::NoMemory,
    }
}
