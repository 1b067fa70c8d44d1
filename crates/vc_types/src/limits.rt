ghost use Rattle.std.specs.Prelude.{◌≡◌, ◌≤◌};
ghost use Rattle.vc_types.specs.Limits.{padded, slices_fit};
ghost use Rattle.vc_types.specs.Video.{dimensions_fit, picture_height};

use crate::video::Sampling;

/// Whether frames of this size can be coded: both sides are 1 to 8,192, and planes and fields have whole
/// columns and rows.
pub fn dimensions_fit(width: u32, height: u32, sampling: Sampling, fields: bool) -> bool
    ensures { result ≡ dimensions_fit width height sampling fields }
{
    let sides = 1 <= width && width <= 8192 && 1 <= height && height <= 8192;
    match sampling {
        Sampling::S444 => sides && (!fields || height % 2 == 0),
        Sampling::S422 => sides && width % 2 == 0 && (!fields || height % 2 == 0),
        Sampling::S420 => {
            sides && width % 2 == 0 && height % 2 == 0 && (!fields || height % 4 == 0)
        }
    }
}

/// Whether a picture can be cut into so many slices: 1 to 65,535 across and down, and at most 131,072 in all.
pub fn slices_fit(across: u32, down: u32) -> bool
    ensures { result ≡ slices_fit across down }
{
    let some = across >= 1 && down >= 1;
    some && across <= 65535 && down <= 65535 && across as u64 * down as u64 <= 131072
}

/// The height of a picture: of a frame or, with field coding, of a field.
pub fn picture_height(fields: bool, height: u32) -> u32
    ensures value { result ≡ picture_height fields height }
    ensures small { result ≤ height }
{
    if fields { height / 2 } else { height }
}

/// The least multiple of 2^depth that is at least a side (ST 2042-1, subband data dimensions).
pub fn padded(side: u32, depth: u8) -> u32
    requires side { side ≤ 8192 }
    requires depth { depth ≤ 5 }
    ensures value { result ≡ padded side depth }
    ensures some { 1 ≤ side → 1 ≤ result }
    ensures small { result ≤ 8192 }
{
    let unit = 1u32 << depth;
    (side + unit - 1) / unit * unit
}
