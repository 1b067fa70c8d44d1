ghost use Rattle.std.proofs.Common.{◌∙◌};
ghost use Rattle.std.specs.Prelude.{◌≡◌, ◌<◌, ◌+◌, ◌*◌, ◌^◌, None, refl};
ghost use Rattle.link_hearing.specs.InletLaws.{none_read, more_read, reading_stops};
ghost use Rattle.link_hearing.specs.Inlets.{GaveWhole, StoppedReading, entry_ending};
ghost use Rattle.vc_ports.specs.Changes.{input_of};

use crate::inlet::Inlet;
use bytes::Bytes;
use link_capture::{CaptureReader, EntryFault, next_entry};
use link_report::Ending;
use std::alloc::Global;
use vc_ports::Source;

/// The datagrams of a capture's entries. It keeps the source borrowed.
#[derive(Drop)]
pub(crate) struct CaptureInlet<'a, S> {
    pub(crate) reader: CaptureReader<'a, S>,
}

impl<'a, S: Source> Inlet for CaptureInlet<'a, S> {
    ghost is_ready = { λ x more. (x.reader.fault ≡ None)
        × (x.reader.place + 65537 * more < 2 ^ 63) };

    ghost came = { λ x y datagrams. (y.reader.source.ghost_name ≡ x.reader.source.ghost_name)
        × GaveWhole (input_of S.left S.faults x.reader.source.now y.reader.source.now)
        x.reader.place y.reader.place datagrams };

    ghost stopped = { λ x y datagrams end. (y.reader.source.ghost_name ≡ x.reader.source.ghost_name)
        × StoppedReading (input_of S.left S.faults x.reader.source.now y.reader.source.now)
        x.reader.place datagrams end };

    fn next(&mut self) -> Result<Option<Bytes>, Ending> {
        match next_entry(&mut self.reader) {
            Ok(Some(datagram)) => match Bytes::from_vec(datagram) {
                Ok(datagram) => Ok(Some(datagram)),
                Err(_) => Err(Ending::NoMemory),
            },
            Ok(None) => Ok(None),
            Err(fault) => Err(entry_ending(fault)),
        }
    }

    fn note(&mut self, _was_of_use: bool) {}

    ghost none = { λ x. (refl, none_read _ _ _) };

    ghost more = { λ x y z first second a b.
        (b.0 ∙ a.0, more_read _ _ _ _ _ _ _ _ first a.1 _ second b.1) };

    ghost stops_then = { λ x y z first end a b.
        (b.0 ∙ a.0, reading_stops _ _ _ _ _ _ _ _ first a.1 end b.1) };
}

// How a command ends where no entry is read.
fn entry_ending(fault: EntryFault) -> Ending
    ensures { result ≡ entry_ending fault }
{
    match fault {
        EntryFault::Cut { place } => Ending::CaptureCut { place },
        EntryFault::ReadFault => Ending::InputFailed,
        EntryFault::NoMemory => Ending::NoMemory,
    }
}
