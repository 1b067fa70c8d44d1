ghost use Rattle.std.specs.Prelude.{◌≡◌, IsTrue, Ok, length};
ghost use Rattle.vc_ports.specs.Faults.{HasCause};
ghost use Rattle.link_outside.specs.Passing.{Arrives};

use bytes::Bytes;
use std::alloc::Global;
use vc_ports::{Came, Wire};
use vc_types::NoMemory;

// Any datagram has room in so many bytes.
const ROOM: usize = 65535;

/// What arrived from a wire.
#[derive(Drop)]
pub enum Arrived {
    Datagram(Bytes),
    /// Nothing more will come.
    End,
    /// The wire failed, and nothing came.
    Failed,
}

/// Receives datagrams one after another through one buffer.
#[derive(Drop)]
pub struct Inbox {
    alloc: Global,
    buffer: Vec<u8>,
    ghost room: { length buffer.items ≡ 65535 },
}

impl Inbox {
    /// Takes memory for the buffer.
    pub fn new(alloc: Global) -> Result<Inbox, NoMemory> {
        let mut buffer = Vec::new(alloc);
        buffer.resize(ROOM, 0)?;
        Ok(Inbox { alloc, buffer })
    }

    /// Receives once. Where there is no memory for a datagram that came, it is lost.
    pub fn receive<N: Wire>(&mut self, wire: &mut N) -> Result<Arrived, NoMemory>
        requires listens { IsTrue (N.told wire.old).listens }
        ensures told { Arrives (N.told wire.old) (N.told wire.new) result }
        ensures cause { HasCause (N.faults wire.old) (N.faults wire.new)
            (result ≡ Ok Arrived.Failed) }
    {
        receive_into(self.alloc, &mut self.buffer, wire)
    }
}

fn receive_into<N: Wire>(
    alloc: Global,
    buffer: &mut [u8],
    wire: &mut N,
) -> Result<Arrived, NoMemory>
    requires listens { IsTrue (N.told wire.old).listens }
    requires room { length buffer.old ≡ 65535 }
    ensures told { Arrives (N.told wire.old) (N.told wire.new) result }
    ensures cause { HasCause (N.faults wire.old) (N.faults wire.new)
        (result ≡ Ok Arrived.Failed) }
{
    match wire.recv(buffer) {
        Came::Datagram(count) => {
            let datagram = Bytes::copy_from_slice(alloc, &buffer[..count])?;
            Ok(Arrived::Datagram(datagram))
        }
        Came::End => Ok(Arrived::End),
        Came::Failed => Ok(Arrived::Failed),
    }
}
