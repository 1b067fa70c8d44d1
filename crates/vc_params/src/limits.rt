ghost use Rattle.std.specs.Prelude.{◌≡◌, ◌+◌, ◌≤◌, IsTrue};
ghost use Rattle.vc_types.specs.Limits.{padded_luma_fits, shape_fits};
ghost use Rattle.vc_types.specs.SequenceHeader.{sequence_of, picture_shape};

use vc_types::{Header, Shape, padded};

/// The shape of one picture of the sequence: of a frame or, with field coding, of a field.
pub fn picture_shape(h: &Header) -> Shape
    ensures value { result ≡ picture_shape (sequence_of h.now) }
    ensures fits { IsTrue (shape_fits result) }
    ensures width { result.luma_width ≤ 8192 }
    ensures height { result.luma_height ≤ 8192 }
{
    h.shape()
}

/// Whether the luma of a picture, padded for so many levels across alone and both ways, has at most 8,912,896
/// samples.
pub fn padded_luma_fits(shape: &Shape, depth_ho: u8, depth: u8) -> bool
    requires width { shape.now.luma_width ≤ 8192 }
    requires height { shape.now.luma_height ≤ 8192 }
    requires few_levels { depth + depth_ho ≤ 5 }
    ensures { result ≡ padded_luma_fits shape.now depth_ho depth }
{
    let width = padded(shape.luma_width, depth + depth_ho);
    width * padded(shape.luma_height, depth) <= 8912896
}
