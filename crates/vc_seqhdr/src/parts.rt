ghost use Rattle.std.specs.Prelude.{◌≡◌, ◌≤◌, IfOk, IsTrue};
ghost use Rattle.vc_types.specs.Fields.{Gives};
ghost use Rattle.vc_types.specs.SequenceHeader.{is_version_of, major_version, profile, frame_size};
ghost use Rattle.vc_types.specs.SequenceHeader.{colour_difference_sampling, scan_format, ratio, clean_area};
ghost use Rattle.vc_types.specs.SequenceHeader.{excursion, custom_signal_range, signal_range_of, colour_part};
ghost use Rattle.vc_types.specs.SequenceHeader.{colour_specification};
ghost use Rattle.vc_types.specs.Video.{excursion_fits};
ghost use Rattle.vc_seqhdr.specs.Formats.{format_view};

use crate::fields::{flag, index, number};
use crate::formats::{Format, preset_range};
use vc_bits::BitReader;
use vc_types::{
    Choice, CleanArea, Colour, HeaderRefusal, LOW_DELAY_PROFILE, Sampling, SignalRange,
};

fn is_version_of(wanted: u8, major: u32) -> bool
    ensures { result ≡ is_version_of wanted major }
{
    (wanted == LOW_DELAY_PROFILE && major == 1) || major == 2 || major == 3
}

/// The major version of a header of the profile that is wanted.
#[tactic(auto, unfolding(vc_types::specs::SequenceHeader::major_version))]
pub fn major_version(wanted: u8, r: &mut BitReader) -> Result<u32, HeaderRefusal>
    ensures { Gives (λ n. n) result r.new.left (major_version wanted r.old.left) }
{
    let major = number(r)?;
    if !is_version_of(wanted, major) {
        return Err(HeaderRefusal::Version);
    }
    Ok(major)
}

/// The profile, which is the one that is wanted.
#[tactic(auto, unfolding(vc_types::specs::SequenceHeader::profile))]
pub fn profile(wanted: u8, r: &mut BitReader) -> Result<u32, HeaderRefusal>
    ensures { Gives (λ n. n) result r.new.left (profile wanted r.old.left) }
{
    let coded = number(r)?;
    if coded != wanted as u32 {
        return Err(HeaderRefusal::Profile);
    }
    Ok(coded)
}

/// Width and height of a frame.
#[tactic(auto, unfolding(vc_types::specs::SequenceHeader::frame_size))]
pub fn frame_size(format: &Format, r: &mut BitReader) -> Result<(u32, u32), HeaderRefusal>
    ensures { Gives (λ x. (x.0, x.1)) result r.new.left
        (frame_size (format_view format.now) r.old.left) }
{
    if flag(r)? {
        let width = number(r)?;
        let height = number(r)?;
        return Ok((width, height));
    }
    Ok((format.width, format.height))
}

#[tactic(auto, unfolding(vc_types::specs::SequenceHeader::colour_difference_sampling))]
pub fn sampling(format: &Format, r: &mut BitReader) -> Result<Sampling, HeaderRefusal>
    ensures { Gives (λ x. x) result r.new.left
        (colour_difference_sampling (format_view format.now) r.old.left) }
{
    if !flag(r)? {
        return Ok(format.sampling);
    }
    match index(r, 2, HeaderRefusal::SamplingIndex)? {
        0 => Ok(Sampling::S444),
        1 => Ok(Sampling::S422),
        _ => Ok(Sampling::S420),
    }
}

/// Whether frames are interlaced.
#[tactic(auto, unfolding(vc_types::specs::SequenceHeader::scan_format))]
pub fn scan_format(format: &Format, r: &mut BitReader) -> Result<bool, HeaderRefusal>
    ensures { Gives (λ x. x) result r.new.left (scan_format (format_view format.now) r.old.left) }
{
    if !flag(r)? {
        return Ok(format.interlaced);
    }
    Ok(index(r, 1, HeaderRefusal::ScanIndex)? == 1)
}

/// A frame rate or a pixel aspect ratio.
#[tactic(auto, unfolding(vc_types::specs::SequenceHeader::ratio))]
pub fn ratio(
    default: Choice<(u32, u32)>,
    r: &mut BitReader,
) -> Result<Choice<(u32, u32)>, HeaderRefusal>
    ensures { Gives (λ x. x) result r.new.left (ratio default r.old.left) }
{
    if !flag(r)? {
        return Ok(default);
    }
    let preset = number(r)?;
    if preset == 0 {
        let numerator = number(r)?;
        let denominator = number(r)?;
        return Ok(Choice::Custom((numerator, denominator)));
    }
    Ok(Choice::Preset(preset))
}

#[tactic(auto, unfolding(vc_types::specs::SequenceHeader::clean_area))]
pub fn clean_area(default: CleanArea, r: &mut BitReader) -> Result<CleanArea, HeaderRefusal>
    ensures { Gives (λ x. x) result r.new.left (clean_area default r.old.left) }
{
    if !flag(r)? {
        return Ok(default);
    }
    let width = number(r)?;
    let height = number(r)?;
    let left = number(r)?;
    let top = number(r)?;
    Ok(CleanArea {
        width,
        height,
        left,
        top,
    })
}

#[tactic(auto, unfolding(vc_types::specs::SequenceHeader::excursion))]
fn excursion(r: &mut BitReader) -> Result<u32, HeaderRefusal>
    ensures gives { Gives (λ n. n) result r.new.left (excursion r.old.left) }
    ensures fits { IfOk result (λ n. IsTrue (excursion_fits n)) }
{
    let excursion = number(r)?;
    if excursion < 1 || excursion > 65535 {
        return Err(HeaderRefusal::SignalRange);
    }
    Ok(excursion)
}

#[tactic(auto, unfolding(vc_types::specs::SequenceHeader::custom_signal_range))]
fn custom_range(r: &mut BitReader) -> Result<SignalRange, HeaderRefusal>
    ensures gives { Gives (λ x. x) result r.new.left (custom_signal_range r.old.left) }
    ensures luma { IfOk result (λ x. IsTrue (excursion_fits x.luma_excursion)) }
    ensures colour { IfOk result (λ x. IsTrue (excursion_fits x.colour_excursion)) }
{
    let luma_offset = number(r)?;
    let luma_excursion = excursion(r)?;
    let colour_offset = number(r)?;
    let colour_excursion = excursion(r)?;
    Ok(SignalRange {
        luma_offset,
        luma_excursion,
        colour_offset,
        colour_excursion,
    })
}

#[tactic(auto, unfolding(vc_types::specs::SequenceHeader::signal_range_of))]
pub fn signal_range(format: &Format, r: &mut BitReader) -> Result<SignalRange, HeaderRefusal>
    requires low { 1 ≤ format.now.range }
    requires high { format.now.range ≤ 4 }
    ensures gives { Gives (λ x. x) result r.new.left
        (signal_range_of (format_view format.now) r.old.left) }
    ensures luma { IfOk result (λ x. IsTrue (excursion_fits x.luma_excursion)) }
    ensures colour { IfOk result (λ x. IsTrue (excursion_fits x.colour_excursion)) }
{
    if !flag(r)? {
        return Ok(preset_range(format.range));
    }
    let preset = index(r, 4, HeaderRefusal::SignalRange)?;
    if preset == 0 {
        return custom_range(r);
    }
    Ok(preset_range(preset))
}

/// Colour primaries, a colour matrix or a transfer function.
#[tactic(auto, unfolding(vc_types::specs::SequenceHeader::colour_part))]
fn colour_part(r: &mut BitReader) -> Result<Option<u32>, HeaderRefusal>
    ensures { Gives (λ x. x) result r.new.left (colour_part r.old.left) }
{
    if !flag(r)? {
        return Ok(None);
    }
    Ok(Some(number(r)?))
}

#[tactic(auto, unfolding(vc_types::specs::SequenceHeader::colour_specification))]
pub fn colour_specification(
    default: Choice<Colour>,
    r: &mut BitReader,
) -> Result<Choice<Colour>, HeaderRefusal>
    ensures { Gives (λ x. x) result r.new.left (colour_specification default r.old.left) }
{
    if !flag(r)? {
        return Ok(default);
    }
    let preset = number(r)?;
    if preset != 0 {
        return Ok(Choice::Preset(preset));
    }
    let primaries = colour_part(r)?;
    let matrix = colour_part(r)?;
    let transfer = colour_part(r)?;
    Ok(Choice::Custom(Colour {
        primaries,
        matrix,
        transfer,
    }))
}
