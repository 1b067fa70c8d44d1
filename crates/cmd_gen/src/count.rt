ghost use Rattle.std.specs.Prelude.{◌≡◌, ◌*◌, ◌<◌, ◌≤◌, ◌^◌, IsTrue};
ghost use Rattle.cmd_gen.specs.Generating.{sample_total};
ghost use Rattle.cmd_gen.specs.Generator.{frame_samples};
ghost use Rattle.vc_types.specs.Limits.{shape_fits};
ghost use Rattle.vc_types.specs.SenderSettings.{generating_view};

use crate::shape::frame_shape;
use vc_types::{GenSettings, Shape};

/// How many samples all generated frames have: at most 1,000 frames of three planes of 8,192 by 8,192, so
/// that no count of 64 bits is passed.
pub fn samples_of(g: &GenSettings) -> u64
    ensures { result ≡ sample_total (generating_view g.now) }
{
    u64::from(g.frames) * frame_count(&frame_shape(g))
}

fn frame_count(shape: &Shape) -> u64
    requires { IsTrue (shape_fits shape.now) }
    ensures value { result ≡ frame_samples shape.now }
    ensures few { result ≤ 201326592 }
{
    let luma = sides_product(shape.luma_width, shape.luma_height);
    let colour = sides_product(shape.colour_width, shape.colour_height);
    luma + colour + colour
}

fn sides_product(width: u32, height: u32) -> u64
    requires across { width ≤ 8192 }
    requires down { height ≤ 8192 }
    ensures value { result ≡ width * height }
    ensures few { result ≤ 67108864 }
{
    u64::from(width) * u64::from(height)
}
