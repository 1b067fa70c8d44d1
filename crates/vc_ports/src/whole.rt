ghost use Rattle.std.specs.Prelude.{◌≡◌, OnOk, OnErr, IsErr};
ghost use Rattle.vc_ports.specs.Faults.{HasCause};
ghost use Rattle.vc_ports.specs.Filling.{Fills, IsFillEnd, IsFillFault};
ghost use Rattle.vc_ports.specs.Writing.{Grew, GrewBySome};

use crate::sink::{Sink, Took, WriteFault};
use crate::source::{Got, Source};

/// Writes a whole piece, which may be empty. After a fault a prefix of it went out.
pub fn write_all<O: Sink>(sink: &mut O, bytes: &[u8]) -> Result<(), WriteFault>
    ensures ok { OnOk result (Grew (O.held sink.old) (O.held sink.new) bytes.now) }
    ensures err { OnErr result (GrewBySome (O.held sink.old) (O.held sink.new) bytes.now) }
    ensures cause { HasCause (O.faults sink.old) (O.faults sink.new) (IsErr result) }
{
    let mut at = 0;
    'pieces: while at < bytes.len() {
        let (_, rest) = bytes.split_at(at);
        match sink.write(rest) {
            Took::Bytes(count) => at += count,
            Took::Failed => return Err(WriteFault),
        }
    }
    Ok(())
}

/// What filling a buffer came to.
#[derive(Clone, Copy)]
pub enum Filled {
    /// The buffer is full.
    Whole,
    /// The source ended when so many bytes, fewer than the buffer's length, had come to its front.
    End(usize),
    /// A read failed when so many bytes, fewer than the buffer's length, had come to its front.
    Failed(usize),
}

/// Reads until a buffer, which may be empty, is full.
pub fn fill<S: Source>(source: &mut S, buf: &mut [u8]) -> Filled
    ensures bytes { Fills (S.left source.old) (S.left source.new) buf.new result }
    ensures cause { HasCause (S.faults source.old) (S.faults source.new) (IsFillFault result) }
    ensures end { HasCause (S.ends source.old) (S.ends source.new) (IsFillEnd result) }
{
    let mut at = 0;
    'pieces: while at < buf.len() {
        let (_, rest) = buf.split_at_mut(at);
        match source.read(rest) {
            Got::Bytes(count) => at += count,
            Got::End => return Filled::End(at),
            Got::Failed => return Filled::Failed(at),
        }
    }
    Filled::Whole
}
