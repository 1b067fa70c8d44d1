ghost use Rattle.std.specs.Prelude.{◌≡◌, ◌≤◌, IsTrue};
ghost use Rattle.vc_types.specs.Video.{dimensions_fit, excursion_fits, colour_width, colour_height};
ghost use Rattle.vc_types.specs.Video.{picture_height, video_depth};

use crate::limits::picture_height;
use crate::shape::Shape;
use crate::video::{Sampling, SignalRange};

/// A sequence header that was accepted (ST 2042-1, sequence header). Width and height are those of a frame.
#[derive(Clone, Copy)]
pub struct Header {
    pub major: u32,
    pub minor: u32,
    pub level: u32,
    pub base: u8,
    pub width: u32,
    pub height: u32,
    pub sampling: Sampling,
    pub interlaced: bool,
    pub top_first: bool,
    pub range: SignalRange,
    pub fields: bool,
    pub ghost base_is_known: { base ≤ 16 },
    pub ghost dimensions: { IsTrue (dimensions_fit width height sampling fields) },
    pub ghost luma_excursion: { IsTrue (excursion_fits range.luma_excursion) },
    pub ghost colour_excursion: { IsTrue (excursion_fits range.colour_excursion) },
}

fn colour_width(sampling: Sampling, width: u32) -> u32
    ensures { result ≡ colour_width sampling width }
{
    match sampling {
        Sampling::S444 => width,
        Sampling::S422 | Sampling::S420 => width / 2,
    }
}

fn colour_height(sampling: Sampling, height: u32) -> u32
    ensures { result ≡ colour_height sampling height }
{
    match sampling {
        Sampling::S444 | Sampling::S422 => height,
        Sampling::S420 => height / 2,
    }
}

// How many bits the samples of an excursion have.
#[tactic(auto, using(crate::proofs::VideoDepths::depth_by_log))]
fn video_depth(excursion: u32) -> u8
    requires { (1 ≤ excursion) × (excursion ≤ 65535) }
    ensures { result ≡ video_depth excursion }
{
    excursion.ilog2() as u8 + 1
}

impl Header {
    ghost use Rattle.vc_types.specs.SameValues.{same_scan, same_sequence, same_size};
    ghost use Rattle.vc_types.specs.SequenceHeader.{sequence_of, picture_shape};

    /// The shape of one picture of the sequence: of a frame or, with field coding, of a field.
    #[tactic(auto, unfolding(crate::specs::SequenceHeader::picture_shape))]
    pub fn shape(&self) -> Shape
        ensures { result ≡ picture_shape (sequence_of self.now) }
    {
        Shape {
            luma_width: self.width,
            luma_height: picture_height(self.fields, self.height),
            colour_width: colour_width(self.sampling, self.width),
            colour_height: picture_height(self.fields, colour_height(self.sampling, self.height)),
            luma_depth: video_depth(self.range.luma_excursion),
            colour_depth: video_depth(self.range.colour_excursion),
        }
    }

    /// Whether both headers have the same value.
    #[tactic(auto, unfolding(crate::specs::SameValues::same_sequence))]
    pub fn is_same(&self, other: &Header) -> bool
        ensures { result ≡ same_sequence (sequence_of self.now) (sequence_of other.now) }
    {
        let version = self.major == other.major
            && self.minor == other.minor
            && self.level == other.level;
        version
            && self.base == other.base
            && self.is_as_large(other)
            && self.is_scanned_alike(other)
            && self.range.is_same(&other.range)
    }

    fn is_as_large(&self, other: &Header) -> bool
        ensures { result ≡ same_size (sequence_of self.now) (sequence_of other.now) }
    {
        self.width == other.width && self.height == other.height && self.sampling == other.sampling
    }

    fn is_scanned_alike(&self, other: &Header) -> bool
        ensures { result ≡ same_scan (sequence_of self.now) (sequence_of other.now) }
    {
        self.interlaced == other.interlaced
            && self.top_first == other.top_first
            && self.fields == other.fields
    }
}
