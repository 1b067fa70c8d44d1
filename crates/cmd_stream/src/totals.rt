ghost use Rattle.std.specs.Prelude.{◌≡◌, OnOk, OnErr, IsErr};
ghost use Rattle.link_outside.specs.Outlets.{capture_of};
ghost use Rattle.cmd_stream.specs.Counted.{packed_totals_with};
ghost use Rattle.link_sender.specs.Packing.{bytes_of_all};
ghost use Rattle.vc_ports.specs.Faults.{HasCause};
ghost use Rattle.vc_ports.specs.Writing.{Grew, GrewBySome};

use link_capture::put_entry;
use link_sender::Datagram;
use vc_ports::{Sink, WriteFault};

/// How many datagrams went out, and how many bytes they have, each counted up to 2^64 - 1.
#[derive(Clone, Copy)]
pub(crate) struct Totals {
    pub(crate) datagrams: u64,
    pub(crate) bytes: u64,
}

impl Totals {
    /// Writes the entries of datagrams, and counts them.
    pub(crate) fn put_all<O: Sink>(
        &mut self,
        datagrams: &[Datagram],
        output: &mut O,
    ) -> Result<(), WriteFault>
        ensures ok { OnOk result (Grew (O.held output.old) (O.held output.new)
            (capture_of (bytes_of_all datagrams.now))) }
        ensures err { OnErr result (GrewBySome (O.held output.old) (O.held output.new)
            (capture_of (bytes_of_all datagrams.now))) }
        ensures cause { HasCause (O.faults output.old) (O.faults output.new) (IsErr result) }
        ensures totals { OnOk result
            (self.new ≡ packed_totals_with self.old (bytes_of_all datagrams.now)) }
    {
        for datagram in datagrams {
            match put_entry(output, &datagram.bytes) {
                Ok(()) => {
                    self.datagrams = self.datagrams.saturating_add(1);
                    self.bytes = self.bytes.saturating_add(datagram.bytes.len() as u64);
                }
                Err(fault) => return Err(fault),
            }
        }
        Ok(())
    }
}
