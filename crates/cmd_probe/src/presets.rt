ghost use Rattle.std.specs.Prelude.{◌≡◌, ℕ};
ghost use Rattle.vc_types.specs.Presentations.{frame_rates, pixel_aspect_ratios};
ghost use Rattle.cmd_probe.specs.Presets.{colour_index, is_range, range_index, ratio_of, sampling_number};

use vc_types::{Choice, Colour, Sampling, SignalRange};

/// Frames in seconds, from index 1 on (ST 2042-1, frame rate).
pub(crate) fn frame_rates() -> &'static [(u32, u32)]
    ensures { result.now ≡ frame_rates }
{
    &[
        (24000, 1001),
        (24, 1),
        (25, 1),
        (30000, 1001),
        (30, 1),
        (50, 1),
        (60000, 1001),
        (60, 1),
        (15000, 1001),
        (25, 2),
        (48, 1),
        (48000, 1001),
        (96, 1),
        (100, 1),
        (120000, 1001),
        (120, 1),
    ]
}

/// The width of a pixel over its height, from index 1 on (ST 2042-1, pixel aspect ratio).
pub(crate) fn pixel_aspect_ratios() -> &'static [(u32, u32)]
    ensures { result.now ≡ pixel_aspect_ratios }
{
    &[(1, 1), (10, 11), (12, 11), (40, 33), (16, 11), (4, 3)]
}

/// The ratio that is coded, or that of an index in a table; None where the table doesn't have it.
pub(crate) fn ratio_of(table: &[(u32, u32)], choice: &Choice<(u32, u32)>) -> Option<(u32, u32)>
    ensures { result ≡ ratio_of table.now choice.now }
{
    match *choice {
        Choice::Custom(ratio) => Some(ratio),
        Choice::Preset(index) if index > 0 => table.get(index as usize - 1).copied(),
        Choice::Preset(_) => None,
    }
}

/// The index of a colour specification, 0 where its parts are coded.
pub(crate) fn colour_index(choice: &Choice<Colour>) -> u32
    ensures { result ≡ colour_index choice.now }
{
    match *choice {
        Choice::Preset(index) => index,
        Choice::Custom(_) => 0,
    }
}

/// 444, 422 or 420.
pub(crate) fn sampling_number(sampling: Sampling) -> u32
    ensures { result ≡ sampling_number sampling }
{
    match sampling {
        Sampling::S444 => 444,
        Sampling::S422 => 422,
        Sampling::S420 => 420,
    }
}

/// The index of a signal range, 0 where it is no preset.
pub(crate) fn range_index(range: &SignalRange) -> u8
    ensures { result ≡ range_index range.now }
{
    if is_range(range, (0, 255), (128, 255)) {
        1
    } else if is_range(range, (16, 219), (128, 224)) {
        2
    } else if is_range(range, (64, 876), (512, 896)) {
        3
    } else if is_range(range, (256, 3504), (2048, 3584)) {
        4
    } else {
        0
    }
}

// Whether a range has these offsets and excursions, of luma and of colour.
fn is_range(range: &SignalRange, luma: (u32, u32), colour: (u32, u32)) -> bool
    ensures { result ≡ is_range range.now luma colour }
{
    range.luma_offset == luma.0
        && range.luma_excursion == luma.1
        && range.colour_offset == colour.0
        && range.colour_excursion == colour.1
}
