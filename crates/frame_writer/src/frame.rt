ghost use Rattle.std.specs.Prelude.{◌≡◌, ◌≤◌, ◌*◌, false, length, vec_len, OnOk, OnErr, IfOk, IsErr, Err};
ghost use Rattle.vc_types.specs.RawFrames.{frame_bytes};
ghost use Rattle.vc_ports.specs.Faults.{HasCause};
ghost use Rattle.vc_ports.specs.Writing.{Grew, GrewBySome};
ghost use Rattle.vc_types.specs.Planes.{planes_in};
ghost use Rattle.frame_writer.specs.Samples.{HaveByteSamples};
ghost use Rattle.frame_writer.specs.declared.pieces.TheConstants.{PIECE};

use crate::fault::FrameFault;
use crate::pieces::{PIECE, write_samples};
use std::alloc::{AllocError, Global};
use vc_ports::{Sink, WriteFault};
use vc_types::Plane;

// Room for the bytes of a piece.
fn piece_buffer(alloc: Global) -> Result<Vec<u8>, AllocError>
    ensures { IfOk result (λ buffer. vec_len buffer ≡ 2 * PIECE) }
{
    vec![in alloc; 0; 2 * PIECE]
}

fn write_planes<O: Sink>(
    sink: &mut O,
    buffer: &mut [u8],
    planes: &[Plane; 3],
    two: bool,
) -> Result<(), WriteFault>
    requires room { 2 * PIECE ≤ length buffer.old }
    requires narrow { (two ≡ false) → HaveByteSamples (planes_in planes.now) }
    ensures ok { OnOk result
        (Grew (O.held sink.old) (O.held sink.new) (frame_bytes (planes_in planes.now) two)) }
    ensures err { OnErr result
        (GrewBySome (O.held sink.old) (O.held sink.new) (frame_bytes (planes_in planes.now) two)) }
    ensures cause { HasCause (O.faults sink.old) (O.faults sink.new) (IsErr result) }
{
    let [y, c1, c2] = planes;
    write_samples(sink, buffer, y.samples(), two)?;
    write_samples(sink, buffer, c1.samples(), two)?;
    write_samples(sink, buffer, c2.samples(), two)
}

/// Writes a raw frame: its planes Y, C1 and C2, each row by row. A sample has one byte or, where `two`, two
/// bytes, the lowest first. Samples of one byte have to be below 256. Without memory nothing goes out, and
/// after a fault of the sink a prefix of the frame went out.
pub fn write_frame<O: Sink>(
    alloc: Global,
    sink: &mut O,
    planes: &[Plane; 3],
    two: bool,
) -> Result<(), FrameFault>
    requires { (two ≡ false) → HaveByteSamples (planes_in planes.now) }
    ensures ok { OnOk result
        (Grew (O.held sink.old) (O.held sink.new) (frame_bytes (planes_in planes.now) two)) }
    ensures err { OnErr result
        (GrewBySome (O.held sink.old) (O.held sink.new) (frame_bytes (planes_in planes.now) two)) }
    ensures cause { HasCause (O.faults sink.old) (O.faults sink.new)
        (result ≡ Err FrameFault.WriteFault) }
    ensures no_memory { result ≡ Err FrameFault.NoMemory → sink.new ≡ sink.old }
{
    let mut buffer = piece_buffer(alloc)?;
    match write_planes(sink, &mut buffer, planes, two) {
        Ok(()) => Ok(()),
        Err(WriteFault) => Err(FrameFault::WriteFault),
    }
}
