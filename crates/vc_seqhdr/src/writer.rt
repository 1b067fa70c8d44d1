ghost use Rattle.std.specs.Prelude.{◌≡◌, ◌≤◌, ◌++◌, ◌∷◌, [], true, false, None, Some, ℕ, List, length, IfOk};
ghost use Rattle.std.specs.Prelude.{OnOk, Ok};
ghost use Rattle.vc_types.specs.Bits.{bits_of, digit_of};
ghost use Rattle.vc_types.specs.Codes.{uint_bits};
ghost use Rattle.vc_types.specs.Fields.{flagged_bits, joined, pair_bits, filled_up};
ghost use Rattle.vc_types.specs.HeaderSpelling.{header_bits, IsEncoderHeader, encoder_header, encoder_base};
ghost use Rattle.vc_types.specs.HeaderSpelling.{encoder_header_with, IsPresentation};
ghost use Rattle.vc_types.specs.HeaderSpelling.{area_bits, choice_bits, colour_bits};
ghost use Rattle.vc_types.specs.HeaderSpelling.{sampling_index, preset_of};
ghost use Rattle.vc_types.specs.SequenceHeader.{sequence_of, coded_header};

use std::alloc::Global;
use vc_bits::BitWriter;
use vc_golomb::write_uint;
use vc_types::{
    Choice, CleanArea, CodedPresentation, Colour, Header, NoMemory, Sampling, SignalRange,
};

/// The bytes of a sequence header (ST 2042-1, sequence header) of the encoder's form: version 3.0, high
/// quality, base video format 14 with the top field first and else 0, size, sampling, scan and a preset
/// signal range coded, and nothing else.
pub fn write_header(alloc: Global, h: &Header) -> Result<Vec<u8>, NoMemory>
    requires { IsEncoderHeader (sequence_of h.now) }
    ensures value { IfOk result
        (λ v. bits_of v.items ≡ filled_up (header_bits (encoder_header (sequence_of h.now)))) }
    // It is read again as the same header, whatever follows.
    ensures read_again { IfOk result
        (λ v. (behind : List ℕ)
        → coded_header (v.items ++ behind) ≡ Ok (sequence_of h.now, length v.items)) }
{
    write_header_with(alloc, h, &CodedPresentation::nothing())
}

/// The same, and what is given of how the frames are shown is coded, too.
pub fn write_header_with(
    alloc: Global,
    h: &Header,
    shown: &CodedPresentation,
) -> Result<Vec<u8>, NoMemory>
    requires form { IsEncoderHeader (sequence_of h.now) }
    requires presentation { IsPresentation shown.now }
    ensures value { IfOk result (λ v. bits_of v.items
        ≡ filled_up (header_bits (encoder_header_with shown.now (sequence_of h.now)))) }
    // It is read again as the same header, whatever follows.
    ensures read_again { IfOk result
        (λ v. (behind : List ℕ)
        → coded_header (v.items ++ behind) ≡ Ok (sequence_of h.now, length v.items)) }
{
    spell(alloc, h, shown)
}

fn spell(alloc: Global, h: &Header, shown: &CodedPresentation) -> Result<Vec<u8>, NoMemory>
    requires { h.now.base ≡ encoder_base h.now.top_first }
    ensures { IfOk result (λ v. bits_of v.items
        ≡ filled_up (header_bits (encoder_header_with shown.now (sequence_of h.now)))) }
{
    let mut w = BitWriter::new(alloc);
    write_version(&mut w, h.base)?;
    write_picture(&mut w, h)?;
    write_shape(&mut w, shown)?;
    write_colour(&mut w, h, &shown.colour)?;
    Ok(w.finish())
}

// Version 3.0, profile 3, level 0 and the base video format.
fn write_version(w: &mut BitWriter, base: u8) -> Result<(), NoMemory>
    ensures { OnOk result (w.new ≡ w.old ++ joined (uint_bits 3 ∷ uint_bits 0 ∷ uint_bits 3
        ∷ uint_bits 0 ∷ uint_bits base ∷ [])) }
{
    write_uint(w, 3)?;
    write_uint(w, 0)?;
    write_uint(w, 3)?;
    write_uint(w, 0)?;
    write_uint(w, base as u64)
}

// Size, sampling and scan, each behind its flag.
fn write_picture(w: &mut BitWriter, h: &Header) -> Result<(), NoMemory>
    ensures { OnOk result (w.new ≡ w.old ++ joined
        ((true ∷ pair_bits (h.now.width, h.now.height))
        ∷ (true ∷ uint_bits (sampling_index h.now.sampling))
        ∷ (true ∷ uint_bits (digit_of h.now.fields)) ∷ [])) }
{
    w.bit(true)?;
    write_uint(w, h.width as u64)?;
    write_uint(w, h.height as u64)?;
    w.bit(true)?;
    write_uint(w, sampling_index(h.sampling))?;
    w.bit(true)?;
    write_uint(w, digit_of(h.fields))
}

// Frame rate, pixel aspect ratio and clean area, as far as they are coded.
fn write_shape(w: &mut BitWriter, shown: &CodedPresentation) -> Result<(), NoMemory>
    ensures { OnOk result (w.new ≡ w.old ++ joined
        (flagged_bits (choice_bits pair_bits) shown.now.frame_rate
        ∷ flagged_bits (choice_bits pair_bits) shown.now.aspect_ratio
        ∷ flagged_bits area_bits shown.now.clean_area ∷ [])) }
{
    write_ratio(w, &shown.frame_rate)?;
    write_ratio(w, &shown.aspect_ratio)?;
    write_area(w, &shown.clean_area)
}

fn write_ratio(w: &mut BitWriter, ratio: &Option<Choice<(u32, u32)>>) -> Result<(), NoMemory>
    ensures { OnOk result (w.new ≡ w.old ++ flagged_bits (choice_bits pair_bits) ratio.now) }
{
    match ratio {
        None => w.bit(false),
        Some(Choice::Preset(index)) => {
            w.bit(true)?;
            write_uint(w, u64::from(*index))
        }
        Some(Choice::Custom((numerator, denominator))) => {
            w.bit(true)?;
            write_uint(w, 0)?;
            write_uint(w, u64::from(*numerator))?;
            write_uint(w, u64::from(*denominator))
        }
    }
}

fn write_area(w: &mut BitWriter, area: &Option<CleanArea>) -> Result<(), NoMemory>
    ensures { OnOk result (w.new ≡ w.old ++ flagged_bits area_bits area.now) }
{
    let Some(area) = area else {
        return w.bit(false);
    };
    w.bit(true)?;
    write_uint(w, u64::from(area.width))?;
    write_uint(w, u64::from(area.height))?;
    write_uint(w, u64::from(area.left))?;
    write_uint(w, u64::from(area.top))
}

// The signal range; the colour specification, where it is coded; the coding mode.
fn write_colour(
    w: &mut BitWriter,
    h: &Header,
    colour: &Option<Choice<Colour>>,
) -> Result<(), NoMemory>
    ensures { OnOk result (w.new ≡ w.old ++ joined
        ((true ∷ uint_bits (preset_of h.now.range))
        ∷ flagged_bits (choice_bits colour_bits) colour.now
        ∷ uint_bits (digit_of h.now.fields) ∷ [])) }
{
    w.bit(true)?;
    write_uint(w, preset_of(&h.range))?;
    write_specification(w, colour)?;
    write_uint(w, digit_of(h.fields))
}

fn write_specification(w: &mut BitWriter, colour: &Option<Choice<Colour>>) -> Result<(), NoMemory>
    ensures { OnOk result (w.new ≡ w.old ++ flagged_bits (choice_bits colour_bits) colour.now) }
{
    match colour {
        None => w.bit(false),
        Some(Choice::Preset(index)) => {
            w.bit(true)?;
            write_uint(w, u64::from(*index))
        }
        Some(Choice::Custom(parts)) => {
            w.bit(true)?;
            write_uint(w, 0)?;
            write_part(w, parts.primaries)?;
            write_part(w, parts.matrix)?;
            write_part(w, parts.transfer)
        }
    }
}

// Colour primaries, a colour matrix or a transfer function.
fn write_part(w: &mut BitWriter, index: Option<u32>) -> Result<(), NoMemory>
    ensures { OnOk result (w.new ≡ w.old ++ flagged_bits uint_bits index) }
{
    let Some(index) = index else {
        return w.bit(false);
    };
    w.bit(true)?;
    write_uint(w, u64::from(index))
}

fn sampling_index(sampling: Sampling) -> u64
    ensures value { result ≡ sampling_index sampling }
    ensures small { result ≤ 2 }
{
    match sampling {
        Sampling::S444 => 0,
        Sampling::S422 => 1,
        Sampling::S420 => 2,
    }
}

fn digit_of(bit: bool) -> u64
    ensures value { result ≡ digit_of bit }
    ensures small { result ≤ 1 }
{
    if bit { 1 } else { 0 }
}

// The index of a preset signal range.
fn preset_of(range: &SignalRange) -> u64
    ensures value { result ≡ preset_of range.now }
    ensures small { result ≤ 4 }
{
    match range.luma_excursion {
        255 => 1,
        219 => 2,
        876 => 3,
        _ => 4,
    }
}
