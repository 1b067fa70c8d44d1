ghost use Rattle.std.specs.Prelude.{◌≡◌};
ghost use Rattle.vc_types.specs.RawFrames.{is_wide};

use vc_types::Shape;

/// Whether the samples of raw frames have two bytes each: luma or colour has more than 8 bits.
pub fn is_wide(shape: &Shape) -> bool
    ensures { result ≡ is_wide shape.now }
{
    shape.luma_depth > 8 || shape.colour_depth > 8
}
