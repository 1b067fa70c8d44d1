ghost use Rattle.std.specs.Prelude.{◌≡◌, ◌≤◌, ◌<◌, IsTrue, IfSome, length, position};
ghost use Rattle.vc_types.specs.HeaderSpelling.{IsPresentation};
ghost use Rattle.vc_types.specs.Presentations.{choice_in, is_ratio};
ghost use Rattle.vc_types.specs.Presentations.{frame_rates, pixel_aspect_ratios};
ghost use Rattle.vc_types.specs.Presentations.{nothing_coded, told_fits, told_presentation};

use crate::ratio::lowest_terms;
use crate::settings::Told;

/// The index of a preset, or what is coded in its place behind the index 0.
#[derive(Clone, Copy)]
pub enum Choice<A> {
    Preset(u32),
    Custom(A),
}

/// The part of a frame that is meant to be seen, in luma samples (ST 2042-1, clean area).
#[derive(Clone, Copy)]
pub struct CleanArea {
    pub width: u32,
    pub height: u32,
    pub left: u32,
    pub top: u32,
}

/// Indices of colour primaries, colour matrix and transfer function, where they are coded.
#[derive(Clone, Copy)]
pub struct Colour {
    pub primaries: Option<u32>,
    pub matrix: Option<u32>,
    pub transfer: Option<u32>,
}

/// How the frames of a sequence are meant to be shown: what a header says of it, or its base video format
/// where the header doesn't (ST 2042-1, frame rate, pixel aspect ratio, clean area, colour specification).
/// Decoding needs none of it. A ratio is a numerator over a denominator: frames over seconds, or the width of
/// a pixel over its height. An index may be one that the standard's table doesn't have.
#[derive(Clone, Copy)]
pub struct Presentation {
    pub frame_rate: Choice<(u32, u32)>,
    pub aspect_ratio: Choice<(u32, u32)>,
    pub clean_area: CleanArea,
    pub colour: Choice<Colour>,
}

/// What a header codes of the presentation.
#[derive(Clone, Copy)]
pub struct CodedPresentation {
    pub frame_rate: Option<Choice<(u32, u32)>>,
    pub aspect_ratio: Option<Choice<(u32, u32)>>,
    pub clean_area: Option<CleanArea>,
    pub colour: Option<Choice<Colour>>,
}

// Frames in seconds, from index 1 on.
fn frame_rates() -> &'static [(u32, u32)]
    ensures { result.now ≡ frame_rates }
{
    &[
        (24000, 1001),
        (24, 1),
        (25, 1),
        (30000, 1001),
        (30, 1),
        (50, 1),
        (60000, 1001),
        (60, 1),
        (15000, 1001),
        (25, 2),
        (48, 1),
        (48000, 1001),
        (96, 1),
        (100, 1),
        (120000, 1001),
        (120, 1),
    ]
}

// The width of a pixel over its height, from index 1 on.
fn pixel_aspect_ratios() -> &'static [(u32, u32)]
    ensures { result.now ≡ pixel_aspect_ratios }
{
    &[(1, 1), (10, 11), (12, 11), (40, 33), (16, 11), (4, 3)]
}

fn place_in(table: &[(u32, u32)], ratio: (u32, u32)) -> Option<usize>
    ensures value { result ≡ position (is_ratio ratio) table.now }
    ensures range { IfSome result (λ place. place < length table.now) }
{
    table.iter().position(|other| *other == ratio)
}

// The index of a ratio in a table, and the ratio itself where the table doesn't have it.
#[tactic(auto, unfolding(crate::specs::Presentations::choice_in))]
fn choice_in(table: &[(u32, u32)], ratio: (u32, u32)) -> Choice<(u32, u32)>
    requires { length table.now ≤ 16 }
    ensures { result ≡ choice_in table.now ratio }
{
    match place_in(table, ratio) {
        Some(place) => Choice::Preset(place as u32 + 1),
        None => Choice::Custom(ratio),
    }
}

impl CodedPresentation {
    /// Nothing is coded: all is as the base video format says.
    pub fn nothing() -> CodedPresentation
        ensures value { result ≡ nothing_coded }
        ensures coded { IsPresentation result }
    {
        CodedPresentation {
            frame_rate: None,
            aspect_ratio: None,
            clean_area: None,
            colour: None,
        }
    }
}

impl Told {
    /// What the header of frames of this size codes: the whole frame is the clean area.
    pub fn presentation(&self, width: u32, height: u32) -> CodedPresentation
        requires { IsTrue (told_fits self.now) }
        ensures value { result ≡ told_presentation width height self.now }
        ensures coded { IsPresentation result }
    {
        self.coded(width, height)
    }

    fn coded(&self, width: u32, height: u32) -> CodedPresentation
        requires { IsTrue (told_fits self.now) }
        ensures { result ≡ told_presentation width height self.now }
    {
        CodedPresentation {
            frame_rate: Some(choice_in(frame_rates(), lowest_terms(self.rate))),
            aspect_ratio: match self.aspect {
                Some(ratio) => Some(choice_in(pixel_aspect_ratios(), lowest_terms(ratio))),
                None => None,
            },
            clean_area: Some(CleanArea {
                width,
                height,
                left: 0,
                top: 0,
            }),
            colour: match self.colour {
                Some(number) => Some(Choice::Preset(u32::from(number))),
                None => None,
            },
        }
    }
}
