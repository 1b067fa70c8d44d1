ghost use Rattle.std.specs.Prelude.{◌≡◌, ◌++◌, ℕ, Bool, List, length, Ok, IfOk};
ghost use Rattle.vc_types.specs.Bits.{bits_of};
ghost use Rattle.vc_types.specs.Fields.{Gives, IsReadAs, bytes_for};
ghost use Rattle.vc_types.specs.HeaderSpelling.{HeaderSpelling, header_bits_of, header_bits, spelled_header};
ghost use Rattle.vc_types.specs.HeaderSpelling.{IsHeaderOf, IsHeader, BeginsWithHeaderOf, BeginsWithHeader};
ghost use Rattle.vc_types.specs.HeaderSpelling.{BeginsWithWholeHeaderOf, spelled_whole};
ghost use Rattle.vc_seqhdr.specs.Whole.{said_by};
ghost use Rattle.vc_types.specs.SequenceHeader.{Sequence, sequence_of, whole_header_of};
ghost use Rattle.vc_types.specs.SequenceHeader.{coded_header_of, coded_header, coded_whole_header_of};

use crate::fields::{index, number};
use crate::formats::{Format, presentation_of};
use crate::parts::{
    clean_area, colour_specification, frame_size, major_version, profile, ratio, sampling,
    scan_format, signal_range,
};
use vc_bits::BitReader;
use vc_types::{HIGH_QUALITY_PROFILE, Header, HeaderRefusal, Presentation, dimensions_fit};

/// The sequence header of high quality at the front of the bytes, as `read_header_of` reads it.
pub fn read_header(bytes: &[u8]) -> Result<(Header, usize), HeaderRefusal>
    // What is read is spelled so.
    ensures found { IfOk result (λ x. BeginsWithHeader bytes.now (sequence_of x.0) x.1) }
    // What is spelled so is read, whatever follows.
    ensures only { (s : HeaderSpelling) (rest : List Bool) → IsHeader s
        → bits_of bytes.now ≡ header_bits s ++ rest
        → IsReadAs {Y = Sequence × ℕ} (λ x. (sequence_of x.0, x.1)) result
        (Ok (spelled_header s, bytes_for (length (header_bits s)))) }
    // Which header it is, or which refusal.
    ensures exact { IsReadAs (λ x. (sequence_of x.0, x.1)) result (coded_header bytes.now) }
{
    read_header_of(HIGH_QUALITY_PROFILE, bytes)
}

/// A sequence header that was read: its value, how its frames are shown, which is no part of the value, and
/// how many bytes it takes.
#[derive(Clone, Copy)]
pub struct WholeHeader {
    pub header: Header,
    pub presentation: Presentation,
    pub bytes: usize,
}

/// The value alone of the sequence header at the front of the bytes, as `read_whole_header_of` reads it, and
/// how many bytes it takes.
pub fn read_header_of(profile: u8, bytes: &[u8]) -> Result<(Header, usize), HeaderRefusal>
    // What is read is spelled so.
    ensures found { IfOk result
        (λ x. BeginsWithHeaderOf profile bytes.now (sequence_of x.0) x.1) }
    // What is spelled so is read, whatever follows.
    ensures only { (s : HeaderSpelling) (rest : List Bool) → IsHeaderOf profile s
        → bits_of bytes.now ≡ header_bits_of profile s ++ rest
        → IsReadAs {Y = Sequence × ℕ} (λ x. (sequence_of x.0, x.1)) result
        (Ok (spelled_header s, bytes_for (length (header_bits_of profile s)))) }
    // Which header it is, or which refusal.
    ensures exact { IsReadAs (λ x. (sequence_of x.0, x.1)) result
        (coded_header_of profile bytes.now) }
{
    front(profile, bytes)
}

#[tactic(auto, unfolding(vc_types::specs::SequenceHeader::sequence_header_of))]
fn front(wanted: u8, bytes: &[u8]) -> Result<(Header, usize), HeaderRefusal>
    ensures { IsReadAs (λ x. (sequence_of x.0, x.1)) result (coded_header_of wanted bytes.now) }
{
    match whole_front(wanted, bytes) {
        Ok(whole) => Ok((whole.header, whole.bytes)),
        Err(refusal) => Err(refusal),
    }
}

/// The sequence header at the front of the bytes (ST 2042-1, sequence header). Its profile has to be the one
/// that is given: 0 for low delay, 3 for high quality. Its major version is 2 or 3, and with low delay it may
/// also be 1. The fields are read in order, and the first that is missing or out of range decides the
/// refusal; the dimensions are tested last. Frame rate, pixel aspect ratio, clean area and colour
/// specification are refused by no value: an index that the standard doesn't have is read as it is coded.
pub fn read_whole_header_of(profile: u8, bytes: &[u8]) -> Result<WholeHeader, HeaderRefusal>
    // What is read is spelled so.
    ensures found { IfOk result
        (λ x. BeginsWithWholeHeaderOf profile bytes.now (said_by x).0 x.bytes) }
    // What is spelled so is read, whatever follows.
    ensures only { (s : HeaderSpelling) (rest : List Bool) → IsHeaderOf profile s
        → bits_of bytes.now ≡ header_bits_of profile s ++ rest
        → IsReadAs said_by result
        (Ok (spelled_whole s, bytes_for (length (header_bits_of profile s)))) }
    // What it says, or which refusal.
    ensures exact { IsReadAs said_by result (coded_whole_header_of profile bytes.now) }
{
    whole_front(profile, bytes)
}

fn whole_front(wanted: u8, bytes: &[u8]) -> Result<WholeHeader, HeaderRefusal>
    ensures { IsReadAs said_by result (coded_whole_header_of wanted bytes.now) }
{
    let mut r = BitReader::new(bytes);
    let (header, presentation) = whole_header(wanted, &mut r)?;
    let used = bytes.len().saturating_sub(r.bytes_left());
    Ok(WholeHeader {
        header,
        presentation,
        bytes: used,
    })
}

#[tactic(auto, unfolding(vc_types::specs::SequenceHeader::whole_header_of, vc_types::specs::SequenceHeader::base_video_format, vc_types::specs::SequenceHeader::picture_coding_mode))]
fn whole_header(wanted: u8, r: &mut BitReader) -> Result<(Header, Presentation), HeaderRefusal>
    ensures { Gives (λ x. (sequence_of x.0, x.1)) result r.new.left
        (whole_header_of wanted r.old.left) }
{
    let major = major_version(wanted, r)?;
    let minor = number(r)?;
    let _profile = profile(wanted, r)?;
    let level = number(r)?;
    let base = index(r, 16, HeaderRefusal::BaseFormat)?;
    let format = Format::of(base);
    let shown = presentation_of(base);
    let (width, height) = frame_size(&format, r)?;
    let sampling = sampling(&format, r)?;
    let interlaced = scan_format(&format, r)?;
    let frame_rate = ratio(shown.frame_rate, r)?;
    let aspect_ratio = ratio(shown.aspect_ratio, r)?;
    let clean_area = clean_area(shown.clean_area, r)?;
    let range = signal_range(&format, r)?;
    let colour = colour_specification(shown.colour, r)?;
    let fields = index(r, 1, HeaderRefusal::CodingMode)? == 1;
    if !dimensions_fit(width, height, sampling, fields) {
        return Err(HeaderRefusal::Dimensions);
    }
    let header = Header {
        major,
        minor,
        level,
        base: base as u8,
        width,
        height,
        sampling,
        interlaced,
        top_first: format.top_first,
        range,
        fields,
    };
    let presentation = Presentation {
        frame_rate,
        aspect_ratio,
        clean_area,
        colour,
    };
    Ok((header, presentation))
}
