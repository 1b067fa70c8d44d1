ghost use Rattle.std.specs.Prelude.{◌≡◌, ◌≤◌, ◌*◌, false, length, OnOk, OnErr, IsErr};
ghost use Rattle.vc_ports.specs.Faults.{HasCause};
ghost use Rattle.vc_ports.specs.Writing.{Grew, GrewBySome};
ghost use Rattle.vc_types.specs.RawFrames.{samples_bytes};
ghost use Rattle.frame_writer.specs.Samples.{FitBytes, byte_count};
ghost use Rattle.frame_writer.specs.declared.pieces.TheConstants.{PIECE};

use crate::bytes::{byte_count, put_samples};
use vc_ports::{Sink, WriteFault, write_all};

/// How many samples go out in one piece at most, so that it has at most 65,536 bytes.
pub(crate) const PIECE: usize = 32_768;

// Writes samples in one piece.
fn write_piece<O: Sink>(
    sink: &mut O,
    buffer: &mut [u8],
    samples: &[u16],
    two: bool,
) -> Result<(), WriteFault>
    requires room { 2 * length samples.now ≤ length buffer.old }
    requires narrow { (two ≡ false) → FitBytes samples.now }
    ensures ok { OnOk result
        (Grew (O.held sink.old) (O.held sink.new) (samples_bytes two samples.now)) }
    ensures err { OnErr result
        (GrewBySome (O.held sink.old) (O.held sink.new) (samples_bytes two samples.now)) }
    ensures cause { HasCause (O.faults sink.old) (O.faults sink.new) (IsErr result) }
{
    let (bytes, _) = buffer.split_at_mut(byte_count(samples.len(), two));
    put_samples(bytes, samples, two);
    write_all(sink, bytes)
}

/// Writes samples, piece by piece, by means of a buffer of two bytes for each sample of a piece.
pub(crate) fn write_samples<O: Sink>(
    sink: &mut O,
    buffer: &mut [u8],
    samples: &[u16],
    two: bool,
) -> Result<(), WriteFault>
    requires room { 2 * PIECE ≤ length buffer.old }
    requires narrow { (two ≡ false) → FitBytes samples.now }
    ensures ok { OnOk result
        (Grew (O.held sink.old) (O.held sink.new) (samples_bytes two samples.now)) }
    ensures err { OnErr result
        (GrewBySome (O.held sink.old) (O.held sink.new) (samples_bytes two samples.now)) }
    ensures cause { HasCause (O.faults sink.old) (O.faults sink.new) (IsErr result) }
{
    let mut at = 0;
    'pieces: while at < samples.len() {
        let (_, rest) = samples.split_at(at);
        let (piece, _) = rest.split_at(rest.len().min(PIECE));
        match write_piece(sink, buffer, piece, two) {
            Ok(()) => at += piece.len(),
            Err(fault) => return Err(fault),
        }
    }
    Ok(())
}
