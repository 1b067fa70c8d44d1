ghost use Rattle.std.specs.Prelude.{◌≡◌, ◌≤◌, IsTrue};
ghost use Rattle.cmd_gen.specs.Defaults.{shape_of_frames};
ghost use Rattle.vc_types.specs.Limits.{shape_fits};
ghost use Rattle.vc_types.specs.SenderSettings.{generating_view};
ghost use Rattle.vc_types.specs.Video.{colour_height, colour_width, range_of, video_depth};

use vc_types::{GenSettings, Sampling, Shape};

/// The shape of generated frames: that of their pictures with frame coding.
#[tactic(auto, unfolding(link_model::specs::SendingPictures::sent_sequence, vc_types::specs::SequenceHeader::picture_shape))]
pub fn frame_shape(g: &GenSettings) -> Shape
    ensures value { result ≡ shape_of_frames (generating_view g.now).frames }
    ensures fits { IsTrue (shape_fits result) }
{
    let (colour_width, colour_height) = colour_sides(g.sampling, g.width, g.height);
    let depth = depth_of(g.range);
    Shape {
        luma_width: g.width,
        luma_height: g.height,
        colour_width,
        colour_height,
        luma_depth: depth,
        colour_depth: depth,
    }
}

fn colour_sides(sampling: Sampling, width: u32, height: u32) -> (u32, u32)
    ensures across { result.0 ≡ colour_width sampling width }
    ensures down { result.1 ≡ colour_height sampling height }
{
    match sampling {
        Sampling::S444 => (width, height),
        Sampling::S422 => (width / 2, height),
        Sampling::S420 => (width / 2, height / 2),
    }
}

// How many bits samples have, of luma and of colour, by the number of their signal range.
#[tactic(auto, unfolding(vc_types::specs::Video::range_of, vc_types::specs::Video::video_depth))]
fn depth_of(range: u8) -> u8
    requires { (1 ≤ range) × (range ≤ 4) }
    ensures luma { result ≡ video_depth (range_of range).luma_excursion }
    ensures colour { result ≡ video_depth (range_of range).colour_excursion }
    ensures some { 1 ≤ result }
    ensures few { result ≤ 16 }
{
    match range {
        1 | 2 => 8,
        3 => 10,
        _ => 12,
    }
}
