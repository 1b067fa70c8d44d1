ghost use Rattle.std.specs.Prelude.{◌≡◌, ◌≤◌, IfOk, OnOk, OnErr, IsErr};
ghost use Rattle.vc_ports.specs.Faults.{HasCause};
ghost use Rattle.vc_ports.specs.Writing.{Grew, GrewBySome};
ghost use Rattle.cmd_rtcp.specs.Pieces.{EntryFits, WritesPiece, piece_bytes};

use link_capture::put_entry;
use link_hearing::ListenerFault;
use vc_ports::{Sink, WriteFault, write_all};
use vc_types::NoMemory;

/// What is to be written at one time.
#[derive(Drop)]
pub enum Piece {
    Nothing,
    /// A datagram as the entry of a capture.
    Entry(Vec<u8>),
    Text(String),
}

impl Piece {
    // Writes it. After a fault a prefix went out.
    fn write<O: Sink>(&self, output: &mut O) -> Result<(), WriteFault>
        requires { EntryFits self.now }
        ensures ok { OnOk result (Grew (O.held output.old) (O.held output.new) (piece_bytes self.now)) }
        ensures err { OnErr result
            (GrewBySome (O.held output.old) (O.held output.new) (piece_bytes self.now)) }
        ensures cause { HasCause (O.faults output.old) (O.faults output.new) (IsErr result) }
    {
        match self {
            Piece::Nothing => Ok(()),
            Piece::Entry(datagram) => put_entry(output, datagram),
            Piece::Text(text) => write_all(output, text.as_bytes()),
        }
    }
}

/// Writes a piece, where there was memory for it.
pub(crate) fn write_piece<O: Sink>(
    output: &mut O,
    piece: Result<Piece, NoMemory>,
) -> Result<(), ListenerFault>
    requires { IfOk piece EntryFits }
    ensures later { O.faults output.old ≤ O.faults output.new }
    ensures writes { WritesPiece piece (O.held output.old) (O.held output.new)
        (O.faults output.old) (O.faults output.new) result }
{
    match piece {
        Ok(piece) => match piece.write(output) {
            Ok(()) => Ok(()),
            Err(WriteFault) => Err(ListenerFault::Output),
        },
        Err(NoMemory) => Err(ListenerFault::NoMemory),
    }
}
