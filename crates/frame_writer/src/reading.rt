ghost use Rattle.std.specs.Prelude.{◌≡◌, ◌≢◌, ◌≤◌, ◌*◌, Err, IsTrue, length};
ghost use Rattle.frame_writer.specs.Memory.{IsFilledFor};
ghost use Rattle.frame_writer.specs.Reading.{ReadsFrame};
ghost use Rattle.frame_writer.specs.declared.taking.TheConstants.{PIECE};
ghost use Rattle.vc_ports.specs.Faults.{HasCause};
ghost use Rattle.vc_types.specs.Limits.{shape_fits};

use crate::memory::PlaneMemory;
use crate::read_fault::FrameReadFault;
use crate::taking::{PIECE, Short, take_plane};
use crate::width::is_wide;
use std::alloc::Global;
use std::mem::replace;
use vc_ports::Source;
use vc_types::{Plane, Shape};

/// Memory to read frames by means of and into, one after another: that of a piece of a frame's bytes, and
/// that of planes.
#[derive(Drop)]
pub struct FrameRoom {
    bytes: Vec<u8>,
    planes: PlaneMemory,
}

impl FrameRoom {
    /// No memory yet.
    pub fn new(alloc: Global) -> FrameRoom {
        FrameRoom {
            bytes: Vec::new(alloc),
            planes: PlaneMemory::new(alloc),
        }
    }

    /// The memory of planes that are done with serves the next frame.
    pub fn keep(&mut self, planes: [Plane; 3]) {
        self.planes = PlaneMemory::of(planes);
    }
}

/// Reads a raw frame: its planes Y, C1 and C2 of the shape's sizes, each row by row, a sample in two bytes,
/// the lowest first, where luma or colour has more than 8 bits, and else in one. None where the source ended
/// at a frame's edge. Without memory nothing is read. Each plane is made in the room's memory, if that has
/// its length, and else in new memory.
pub fn read_frame<S: Source>(
    alloc: Global,
    source: &mut S,
    shape: &Shape,
    room: &mut FrameRoom,
) -> Result<Option<[Plane; 3]>, FrameReadFault>
    requires { IsTrue (shape_fits shape.now) }
    ensures frame { ReadsFrame shape.now (S.left source.old) (S.left source.new) result }
    ensures cause { HasCause (S.faults source.old) (S.faults source.new)
        (result ≡ Err FrameReadFault.ReadFault) }
    ensures no_memory { result ≡ Err FrameReadFault.NoMemory → source.new ≡ source.old }
{
    room.bytes.resize(2 * PIECE, 0)?;
    let memory = replace(&mut room.planes, PlaneMemory::new(alloc)).fit(alloc, shape)?;
    take_planes(source, &mut room.bytes, shape, memory)
}

// Takes the planes of a frame into memory of their lengths, by means of a buffer for a piece of samples.
fn take_planes<S: Source>(
    source: &mut S,
    buffer: &mut [u8],
    shape: &Shape,
    memory: PlaneMemory,
) -> Result<Option<[Plane; 3]>, FrameReadFault>
    requires fits { IsTrue (shape_fits shape.now) }
    requires buffer { 2 * PIECE ≤ length buffer.old }
    requires long { IsFilledFor shape.now memory }
    ensures frame { ReadsFrame shape.now (S.left source.old) (S.left source.new) result }
    ensures cause { HasCause (S.faults source.old) (S.faults source.new)
        (result ≡ Err FrameReadFault.ReadFault) }
    ensures memory { result ≢ Err FrameReadFault.NoMemory }
{
    let mut planes = memory;
    let two = is_wide(shape);
    match take_plane(source, buffer, &mut planes.y, two) {
        Ok(()) => {}
        Err(Short::End(0)) => return Ok(None),
        Err(short) => return Err(FrameReadFault::from(short)),
    }
    take_plane(source, buffer, &mut planes.c1, two)?;
    take_plane(source, buffer, &mut planes.c2, two)?;
    Ok(Some(planes.into_planes(shape)))
}
