ghost use Rattle.std.specs.Prelude.{◌≡◌, IsTrue, IfOk, vec_len};
ghost use Rattle.frame_writer.specs.FrameBytes.{sample_count};
ghost use Rattle.frame_writer.specs.Memory.{IsFilledFor, planes_with};
ghost use Rattle.vc_types.specs.declared.video.Component.TheVariants.{Y, C1};
ghost use Rattle.vc_types.specs.Limits.{shape_fits};
ghost use Rattle.vc_types.specs.Planes.{planes_in};

use std::alloc::{AllocError, Global};
use vc_types::{Plane, Shape};

/// The memory that the planes of a frame are taken into: their samples.
#[derive(Drop)]
pub(crate) struct PlaneMemory {
    pub(crate) y: Vec<u16>,
    pub(crate) c1: Vec<u16>,
    pub(crate) c2: Vec<u16>,
}

impl PlaneMemory {
    /// None yet.
    pub(crate) fn new(alloc: Global) -> PlaneMemory {
        PlaneMemory {
            y: Vec::new(alloc),
            c1: Vec::new(alloc),
            c2: Vec::new(alloc),
        }
    }

    /// That of planes that are done with.
    pub(crate) fn of(planes: [Plane; 3]) -> PlaneMemory {
        let [y, c1, c2] = planes;
        PlaneMemory {
            y: y.into_samples(),
            c1: c1.into_samples(),
            c2: c2.into_samples(),
        }
    }

    /// As many samples as the planes of a shape have, which are anything. A list that hasn't so many is
    /// replaced.
    pub(crate) fn fit(self, alloc: Global, shape: &Shape) -> Result<PlaneMemory, AllocError>
        requires { IsTrue (shape_fits shape.now) }
        ensures { IfOk result (IsFilledFor shape.now) }
    {
        let PlaneMemory { y, c1, c2 } = self;
        let colour = colour_count(shape);
        Ok(PlaneMemory {
            y: fit(alloc, y, luma_count(shape))?,
            c1: fit(alloc, c1, colour)?,
            c2: fit(alloc, c2, colour)?,
        })
    }

    /// The planes, once all their samples are there.
    pub(crate) fn into_planes(self, shape: &Shape) -> [Plane; 3]
        requires { IsFilledFor shape.now self }
        ensures { planes_in result ≡ planes_with shape.now self.y.items self.c1.items self.c2.items }
    {
        let PlaneMemory { y, c1, c2 } = self;
        [
            Plane::new(shape.luma_width, shape.luma_height, y),
            Plane::new(shape.colour_width, shape.colour_height, c1),
            Plane::new(shape.colour_width, shape.colour_height, c2),
        ]
    }
}

// So many samples, which are anything: these, if they are so many.
fn fit(alloc: Global, samples: Vec<u16>, count: usize) -> Result<Vec<u16>, AllocError>
    ensures { IfOk result (λ samples. vec_len samples ≡ count) }
{
    if samples.len() == count {
        Ok(samples)
    } else {
        vec![in alloc; 0; count]
    }
}

// How many samples the luma plane has.
fn luma_count(shape: &Shape) -> usize
    requires { IsTrue (shape_fits shape.now) }
    ensures { result ≡ sample_count shape.now Y }
{
    shape.luma_width as usize * shape.luma_height as usize
}

// How many samples a colour plane has.
fn colour_count(shape: &Shape) -> usize
    requires { IsTrue (shape_fits shape.now) }
    ensures { result ≡ sample_count shape.now C1 }
{
    shape.colour_width as usize * shape.colour_height as usize
}
