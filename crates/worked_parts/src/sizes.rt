//! Rows of the sizes of frames, pictures and slices.
ghost use Rattle.std.specs.Prelude.{◌≡◌};

use crate::plans::sampling;
use crate::said::Said;
use crate::words::{natural, two};
use vc_types::{
    Header, Sampling, Shape, SignalRange, dimensions_fit, padded, picture_height, slices_fit,
};
use worked_common::Bad;

fn has_fields(word: &str) -> Result<bool, Bad> {
    match word {
        "fields" => Ok(true),
        "frames" => Ok(false),
        _ => Err(Bad::NoRow),
    }
}

fn answer(fit: bool) -> &'static str {
    if fit { "fit" } else { "no" }
}

/// Whether frames of a size and a sampling can be coded, as frames or as fields.
pub(crate) fn dimensions(given: &str, said: &mut Said) -> Result<(), Bad> {
    let mut words = given.split_whitespace();
    let (width, height) = two(words.next().unwrap_or(""), 'x')?;
    let sampling = sampling(words.next().unwrap_or(""))?;
    let fields = has_fields(words.next().unwrap_or(""))?;
    said.word(answer(dimensions_fit(width, height, sampling, fields)));
    Ok(())
}

/// Whether a picture can be cut into so many slices across and down.
pub(crate) fn slices(given: &str, said: &mut Said) -> Result<(), Bad> {
    let (across, down) = two(given, 'x')?;
    said.word(answer(slices_fit(across, down)));
    Ok(())
}

/// The least multiple of a power of two that is at least a side.
pub(crate) fn side(given: &str, said: &mut Said) -> Result<(), Bad> {
    let Some((side, depth)) = given.trim().split_once(' ') else {
        return Err(Bad::NoRow);
    };
    let (side, depth) = (natural(side)?, natural(depth)?);
    if side > 8192 || depth > 5 {
        return Err(Bad::NoRow);
    }
    said.word(padded(side, depth as u8));
    Ok(())
}

/// The height of a picture of a frame's height, of frames or of fields.
pub(crate) fn height(given: &str, said: &mut Said) -> Result<(), Bad> {
    let Some((height, word)) = given.trim().split_once(' ') else {
        return Err(Bad::NoRow);
    };
    said.word(picture_height(has_fields(word)?, natural(height)?));
    Ok(())
}

fn range(excursions: (u32, u32)) -> SignalRange
    ensures luma { result.luma_excursion ≡ excursions.0 }
    ensures colour { result.colour_excursion ≡ excursions.1 }
{
    SignalRange {
        luma_offset: 0,
        luma_excursion: excursions.0,
        colour_offset: 0,
        colour_excursion: excursions.1,
    }
}

fn header(
    size: (u32, u32),
    sampling: Sampling,
    excursions: (u32, u32),
    fields: bool,
) -> Result<Header, Bad> {
    let (width, height) = size;
    let (luma, colour) = excursions;
    if luma < 1 || luma > 65535 || colour < 1 || colour > 65535 {
        return Err(Bad::NoRow);
    }
    if !dimensions_fit(width, height, sampling, fields) {
        return Err(Bad::NoRow);
    }
    Ok(Header {
        major: 3,
        minor: 0,
        level: 0,
        base: 0,
        width,
        height,
        sampling,
        interlaced: false,
        top_first: false,
        range: range((luma, colour)),
        fields,
    })
}

fn add_size(size: (u32, u32), depth: u8, said: &mut Said) {
    let (width, height) = size;
    write!(said, "{width}x{height} {depth} ");
}

fn shape_of(given: &str) -> Result<Shape, Bad> {
    let mut words = given.split_whitespace();
    let size = two(words.next().unwrap_or(""), 'x')?;
    let sampling = sampling(words.next().unwrap_or(""))?;
    let excursions = two(words.next().unwrap_or(""), ',')?;
    let fields = has_fields(words.next().unwrap_or(""))?;
    Ok(header(size, sampling, excursions, fields)?.shape())
}

/// The sizes and the bits of the planes of a picture, luma first, from a frame's size, its sampling, the
/// excursions of luma and colour, and whether it is coded as a frame.
pub(crate) fn shape(given: &str, said: &mut Said) -> Result<(), Bad> {
    let shape = shape_of(given)?;
    add_size(
        (shape.luma_width, shape.luma_height),
        shape.luma_depth,
        said,
    );
    add_size(
        (shape.colour_width, shape.colour_height),
        shape.colour_depth,
        said,
    );
    Ok(())
}
