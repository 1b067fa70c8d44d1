ghost use Rattle.std.specs.Prelude.{◌≡◌, ◌*◌, length};

use std::marker::Model;

/// The samples of one component of a picture or a frame, row by row. Contracts see its width, its height and
/// the list of its samples.
#[derive(Drop)]
pub struct Plane {
    width: u32,
    height: u32,
    samples: Vec<u16>,
}

impl Model for Plane {
    ghost use Rattle.std.specs.Prelude.{◌≡◌, ◌*◌, vec_len};
    ghost use Rattle.vc_types.specs.Rasters.{Raster};

    ghost Value = { Raster };

    ghost view = { λ p. record { width = p.width; height = p.height; samples = p.samples.items } };

    ghost invariant = { λ p. vec_len p.samples ≡ p.width * p.height };
}

impl Plane {
    /// A plane of samples that were given row by row.
    pub fn new(width: u32, height: u32, samples: Vec<u16>) -> Plane
        requires { length samples.items ≡ width * height }
        ensures { result ≡ record { width = width; height = height; samples = samples.items } }
    {
        Plane {
            width,
            height,
            samples,
        }
    }

    pub fn width(&self) -> u32
        ensures { result ≡ self.now.width }
    {
        self.width
    }

    pub fn height(&self) -> u32
        ensures { result ≡ self.now.height }
    {
        self.height
    }

    /// The samples, row by row.
    pub fn samples(&self) -> &[u16]
        ensures value { result.now ≡ self.now.samples }
        ensures whole { length result.now ≡ self.now.width * self.now.height }
    {
        &self.samples
    }

    /// The samples, row by row; their memory can serve another plane.
    pub fn into_samples(self) -> Vec<u16>
        ensures { result.items ≡ self.samples }
    {
        self.samples
    }
}
