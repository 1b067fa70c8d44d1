ghost use Rattle.std.specs.Prelude.{◌≡◌, ◌≤◌, IsTrue};
ghost use Rattle.vc_types.specs.Presentations.{area, base_presentation, presentation_of, uncoded_colour};
ghost use Rattle.vc_types.specs.Video.{format_of, range_of, excursion_fits};

use vc_types::{Choice, CleanArea, Colour, Presentation, Sampling, SignalRange};

/// A base video format: what a header says where its parts aren't coded.
#[derive(Clone, Copy)]
pub struct Format {
    pub width: u32,
    pub height: u32,
    pub sampling: Sampling,
    pub interlaced: bool,
    pub top_first: bool,
    pub range: u32,
}

const fn make_format(
    width: u32,
    height: u32,
    sampling: Sampling,
    interlaced: bool,
    top_first: bool,
    range: u32,
) -> Format
    ensures { result ≡ record {
      width = width;
      height = height;
      sampling = sampling;
      interlaced = interlaced;
      top_first = top_first;
      range = range;
    } }
{
    Format {
        width,
        height,
        sampling,
        interlaced,
        top_first,
        range,
    }
}

impl Format {
    ghost use Rattle.vc_seqhdr.specs.Formats.{format_view};

    /// The base video format of a number.
    #[tactic(auto, unfolding(vc_types::specs::Video::format_of))]
    pub fn of(base: u32) -> Format
        requires { base ≤ 16 }
        ensures is { format_view result ≡ format_of base }
        ensures low { 1 ≤ result.range }
        ensures high { result.range ≤ 4 }
    {
        use Sampling::{S420, S422, S444};
        match base {
            0 => make_format(640, 480, S420, false, false, 1),
            1 => make_format(176, 120, S420, false, false, 1),
            2 => make_format(176, 144, S420, false, true, 1),
            3 => make_format(352, 240, S420, false, false, 1),
            4 => make_format(352, 288, S420, false, true, 1),
            5 => make_format(704, 480, S420, false, false, 1),
            6 => make_format(704, 576, S420, false, true, 1),
            7 => make_format(720, 480, S422, true, false, 3),
            8 => make_format(720, 576, S422, true, true, 3),
            9 | 10 => make_format(1280, 720, S422, false, true, 3),
            11 | 12 => make_format(1920, 1080, S422, true, true, 3),
            13 | 14 => make_format(1920, 1080, S422, false, true, 3),
            15 => make_format(2048, 1080, S444, false, true, 4),
            _ => make_format(4096, 2160, S444, false, true, 4),
        }
    }
}

/// The signal range of an index.
#[tactic(auto, unfolding(vc_types::specs::Video::range_of))]
pub fn preset_range(index: u32) -> SignalRange
    requires low { 1 ≤ index }
    requires high { index ≤ 4 }
    ensures is { result ≡ range_of index }
    ensures luma { IsTrue (excursion_fits result.luma_excursion) }
    ensures colour { IsTrue (excursion_fits result.colour_excursion) }
{
    let (luma_offset, luma_excursion, colour_offset, colour_excursion) = match index {
        1 => (0, 255, 128, 255),
        2 => (16, 219, 128, 224),
        3 => (64, 876, 512, 896),
        _ => (256, 3504, 2048, 3584),
    };
    SignalRange {
        luma_offset,
        luma_excursion,
        colour_offset,
        colour_excursion,
    }
}

// A clean area that begins so many samples from the left.
fn area(width: u32, height: u32, left: u32) -> CleanArea
    ensures { result ≡ area width height left 0 }
{
    CleanArea {
        width,
        height,
        left,
        top: 0,
    }
}

// By the indices of a frame rate and of a pixel aspect ratio.
fn shown(rate: u32, aspect: u32, clean_area: CleanArea, colour: Choice<Colour>) -> Presentation
    ensures { result ≡ base_presentation rate aspect clean_area colour }
{
    Presentation {
        frame_rate: Choice::Preset(rate),
        aspect_ratio: Choice::Preset(aspect),
        clean_area,
        colour,
    }
}

// HDTV in all its parts.
fn uncoded_colour() -> Colour
    ensures { result ≡ uncoded_colour }
{
    Colour {
        primaries: None,
        matrix: None,
        transfer: None,
    }
}

/// How the frames of a base video format are shown.
#[tactic(auto, unfolding(vc_types::specs::Presentations::presentation_of))]
pub fn presentation_of(base: u32) -> Presentation
    requires { base ≤ 16 }
    ensures { result ≡ presentation_of base }
{
    use Choice::{Custom, Preset};
    match base {
        0 => shown(1, 1, area(640, 480, 0), Custom(uncoded_colour())),
        1 => shown(9, 2, area(176, 120, 0), Preset(1)),
        2 => shown(10, 3, area(176, 144, 0), Preset(2)),
        3 => shown(9, 2, area(352, 240, 0), Preset(1)),
        4 => shown(10, 3, area(352, 288, 0), Preset(2)),
        5 => shown(9, 2, area(704, 480, 0), Preset(1)),
        6 => shown(10, 3, area(704, 576, 0), Preset(2)),
        7 => shown(4, 2, area(704, 480, 8), Preset(1)),
        8 => shown(3, 3, area(704, 576, 8), Preset(2)),
        9 => shown(7, 1, area(1280, 720, 0), Preset(3)),
        10 => shown(6, 1, area(1280, 720, 0), Preset(3)),
        11 => shown(4, 1, area(1920, 1080, 0), Preset(3)),
        12 => shown(3, 1, area(1920, 1080, 0), Preset(3)),
        13 => shown(7, 1, area(1920, 1080, 0), Preset(3)),
        14 => shown(6, 1, area(1920, 1080, 0), Preset(3)),
        15 => shown(2, 1, area(2048, 1080, 0), Preset(4)),
        _ => shown(2, 1, area(4096, 2160, 0), Preset(4)),
    }
}
