//! Rows of sequence headers, and of the planes of the pictures that they say.
ghost use Rattle.std.specs.Prelude.{◌≡◌, ◌≤◌, IfOk, IsTrue};
ghost use Rattle.vc_types.specs.HeaderSpelling.{IsEncoderHeader};
ghost use Rattle.vc_types.specs.SequenceHeader.{sequence_of};
ghost use Rattle.vc_types.specs.Video.{excursion_fits, range_of};

use crate::named::field;
use crate::said::Said;
use crate::words::{bytes_of, natural, parted};
use vc_seqhdr::{read_header, read_header_of, read_whole_header_of, write_header};
use vc_types::{
    Choice, CleanArea, Colour, HIGH_QUALITY_PROFILE, Header, HeaderRefusal, Presentation, Sampling,
    Shape, SignalRange, dimensions_fit,
};
use worked_common::{Bad, NamedBytes};

fn sampling_word(sampling: Sampling) -> &'static str {
    match sampling {
        Sampling::S444 => "444",
        Sampling::S422 => "422",
        Sampling::S420 => "420",
    }
}

fn add_versions(header: &Header, said: &mut Said) {
    let (major, minor, level, base) = (header.major, header.minor, header.level, header.base);
    write!(
        said,
        "major {major} minor {minor} level {level} base {base} "
    );
}

fn add_size(header: &Header, said: &mut Said) {
    let (width, height) = (header.width, header.height);
    write!(said, "width {width} height {height} ");
    said.word(sampling_word(header.sampling));
}

fn scan_word(header: &Header) -> &'static str {
    if header.interlaced {
        "interlaced"
    } else {
        "progressive"
    }
}

fn first_word(header: &Header) -> &'static str {
    if header.top_first {
        "top-first"
    } else {
        "bottom-first"
    }
}

fn add_range(range: &SignalRange, said: &mut Said) {
    let (luma, colour) = (range.luma_offset, range.colour_offset);
    let (of_luma, of_colour) = (range.luma_excursion, range.colour_excursion);
    write!(said, "range {luma} {of_luma} {colour} {of_colour} ");
}

fn coding_word(header: &Header) -> &'static str {
    if header.fields { "fields" } else { "frames" }
}

fn add_header(header: &Header, used: usize, said: &mut Said) {
    add_versions(header, said);
    add_size(header, said);
    said.word(scan_word(header));
    said.word(first_word(header));
    add_range(&header.range, said);
    said.word(coding_word(header));
    write!(said, "takes {used} ");
}

fn add_read(read: Result<(Header, usize), HeaderRefusal>, said: &mut Said) {
    match read {
        Ok((header, used)) => add_header(&header, used, said),
        Err(refusal) => said.shown(refusal),
    }
}

/// The sequence header at the front of bytes, and how many of them it takes.
pub(crate) fn header(parts: &[NamedBytes], given: &str, said: &mut Said) -> Result<(), Bad> {
    let bytes = bytes_of(said.alloc(), parts, given)?;
    add_read(read_header(bytes.as_slice()), said);
    Ok(())
}

fn add_ratio(name: &str, ratio: Choice<(u32, u32)>, said: &mut Said) {
    match ratio {
        Choice::Preset(index) => write!(said, "{name} {index} "),
        Choice::Custom((numerator, denominator)) => {
            write!(said, "{name} {numerator}/{denominator} ")
        }
    }
}

fn add_area(area: &CleanArea, said: &mut Said) {
    let (width, height, left, top) = (area.width, area.height, area.left, area.top);
    write!(said, "clean {width} {height} {left} {top} ");
}

fn add_part(name: &str, index: Option<u32>, said: &mut Said) {
    match index {
        Some(index) => write!(said, "{name} {index} "),
        None => write!(said, "{name} uncoded "),
    }
}

fn add_colour(colour: &Choice<Colour>, said: &mut Said) {
    match colour {
        Choice::Preset(index) => write!(said, "colour {index} "),
        Choice::Custom(parts) => {
            add_part("primaries", parts.primaries, said);
            add_part("matrix", parts.matrix, said);
            add_part("transfer", parts.transfer, said);
        }
    }
}

fn add_presentation(shown: &Presentation, said: &mut Said) {
    add_ratio("rate", shown.frame_rate, said);
    add_ratio("aspect", shown.aspect_ratio, said);
    add_area(&shown.clean_area, said);
    add_colour(&shown.colour, said);
}

/// How the frames are shown by the sequence header at the front of bytes: a preset by its index, else its
/// numbers.
pub(crate) fn header_shown(parts: &[NamedBytes], given: &str, said: &mut Said) -> Result<(), Bad> {
    let bytes = bytes_of(said.alloc(), parts, given)?;
    match read_whole_header_of(HIGH_QUALITY_PROFILE, bytes.as_slice()) {
        Ok(whole) => add_presentation(&whole.presentation, said),
        Err(refusal) => said.shown(refusal),
    }
    Ok(())
}

fn profile_of(word: &str) -> Result<u8, Bad> {
    match u8::try_from(natural(word)?) {
        Ok(profile) => Ok(profile),
        Err(_) => Err(Bad::NoRow),
    }
}

/// The same of the profile that stands before a colon.
pub(crate) fn header_of(parts: &[NamedBytes], given: &str, said: &mut Said) -> Result<(), Bad> {
    let (profile, given) = parted(given);
    let profile = profile_of(profile)?;
    let bytes = bytes_of(said.alloc(), parts, given)?;
    add_read(read_header_of(profile, bytes.as_slice()), said);
    Ok(())
}

fn add_cuts(bytes: &[u8], said: &mut Said) {
    for length in 0..=bytes.len() {
        match read_header(bytes.get(..length).unwrap_or(bytes)) {
            Ok(_) => said.word("read"),
            Err(refusal) => said.shown(refusal),
        }
    }
}

/// What is read of the first 0, 1, 2, .. and all of some bytes.
pub(crate) fn header_cuts(parts: &[NamedBytes], given: &str, said: &mut Said) -> Result<(), Bad> {
    let bytes = bytes_of(said.alloc(), parts, given)?;
    add_cuts(bytes.as_slice(), said);
    Ok(())
}

/// A shape: of luma and of the colour planes the width, the height, and the bits of a sample.
pub(crate) fn add_shape(shape: &Shape, said: &mut Said) {
    let (width, height, depth) = (shape.luma_width, shape.luma_height, shape.luma_depth);
    let (half, low, bits) = (shape.colour_width, shape.colour_height, shape.colour_depth);
    write!(
        said,
        "luma {width} {height} {depth} colour {half} {low} {bits} "
    );
}

/// The planes of a picture, by the sequence header at the front of bytes.
pub(crate) fn header_planes(parts: &[NamedBytes], given: &str, said: &mut Said) -> Result<(), Bad> {
    let bytes = bytes_of(said.alloc(), parts, given)?;
    match read_header(bytes.as_slice()) {
        Ok((header, _)) => add_shape(&header.shape(), said),
        Err(_) => return Err(Bad::NoRow),
    }
    Ok(())
}

fn sampling_of(number: u32) -> Result<Sampling, Bad> {
    match number {
        444 => Ok(Sampling::S444),
        422 => Ok(Sampling::S422),
        420 => Ok(Sampling::S420),
        _ => Err(Bad::NoRow),
    }
}

#[tactic(auto, unfolding(vc_types::specs::Video::range_of))]
fn preset_range(index: u32) -> SignalRange
    requires { (1 ≤ index) × (index ≤ 4) }
    ensures value { result ≡ range_of index }
    ensures luma { IsTrue (excursion_fits result.luma_excursion) }
    ensures colour { IsTrue (excursion_fits result.colour_excursion) }
{
    match index {
        1 => SignalRange {
            luma_offset: 0,
            luma_excursion: 255,
            colour_offset: 128,
            colour_excursion: 255,
        },
        2 => SignalRange {
            luma_offset: 16,
            luma_excursion: 219,
            colour_offset: 128,
            colour_excursion: 224,
        },
        3 => SignalRange {
            luma_offset: 64,
            luma_excursion: 876,
            colour_offset: 512,
            colour_excursion: 896,
        },
        _ => SignalRange {
            luma_offset: 256,
            luma_excursion: 3504,
            colour_offset: 2048,
            colour_excursion: 3584,
        },
    }
}

// What is said of the header that a sender writes.
#[derive(Clone, Copy)]
struct Sent {
    width: u32,
    height: u32,
    sampling: Sampling,
    fields: bool,
    top_first: bool,
    range: u32,
}

// Width, height, sampling, fields, top-first and range.
fn sent_of(given: &str) -> Result<Sent, Bad> {
    Ok(Sent {
        width: field(given, "width")?,
        height: field(given, "height")?,
        sampling: sampling_of(field(given, "sampling")?)?,
        fields: field(given, "fields")? == 1,
        top_first: field(given, "top-first")? == 1,
        range: field(given, "range")?,
    })
}

// The header that a sender writes.
fn sent_header(sent: &Sent) -> Result<Header, Bad>
    ensures { IfOk result (λ h. IsEncoderHeader (sequence_of h)) }
{
    let (width, height, sampling, fields) = (sent.width, sent.height, sent.sampling, sent.fields);
    if sent.range < 1 || sent.range > 4 || !dimensions_fit(width, height, sampling, fields) {
        return Err(Bad::NoRow);
    }
    Ok(Header {
        major: 3,
        minor: 0,
        level: 0,
        base: if sent.top_first { 14 } else { 0 },
        width,
        height,
        sampling,
        interlaced: fields,
        top_first: sent.top_first,
        range: preset_range(sent.range),
        fields,
    })
}

/// The bytes of a header that a sender writes.
pub(crate) fn header_written(given: &str, said: &mut Said) -> Result<(), Bad> {
    let header = sent_header(&sent_of(given)?)?;
    said.bytes(write_header(said.alloc(), &header)?.as_slice());
    Ok(())
}
