ghost use Rattle.std.specs.Prelude.{◌≡◌, ◌<◌, ◌^◌, length, OnOk, OnErr, IsErr};
ghost use Rattle.byteorder.specs.Endian.{big_bytes};
ghost use Rattle.vc_ports.specs.Faults.{HasCause};
ghost use Rattle.vc_ports.specs.Writing.{Grew, GrewBySome};
ghost use Rattle.link_capture.specs.Capture.{entry};

use byteorder::{BigEndian, ByteOrder};
use vc_ports::{Sink, WriteFault, write_all};

/// What is before a datagram in its entry: its length in 2 bytes, high first.
pub(crate) fn head_of(datagram: &[u8]) -> [u8; 2]
    requires { length datagram.now < 2 ^ 16 }
    ensures { result ≡ big_bytes 2 (length datagram.now) }
{
    let mut head = [0; 2];
    BigEndian::write_u16(&mut head, datagram.len() as u16);
    head
}

/// Writes one entry: the datagram's length in 2 bytes, high first, and the datagram, which has at most 65,535
/// bytes. After a fault a prefix of the entry went out.
pub fn put_entry<O: Sink>(sink: &mut O, datagram: &[u8]) -> Result<(), WriteFault>
    requires { length datagram.now < 2 ^ 16 }
    ensures ok { OnOk result (Grew (O.held sink.old) (O.held sink.new) (entry datagram.now)) }
    ensures err { OnErr result
        (GrewBySome (O.held sink.old) (O.held sink.new) (entry datagram.now)) }
    ensures cause { HasCause (O.faults sink.old) (O.faults sink.new) (IsErr result) }
{
    match write_all(sink, &head_of(datagram)) {
        Ok(()) => write_all(sink, datagram),
        Err(fault) => Err(fault),
    }
}
