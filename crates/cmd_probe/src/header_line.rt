ghost use Rattle.std.specs.Prelude.{◌≡◌, ◌++◌, IfOk, OnOk};
ghost use Rattle.std.specs.String.{string_bytes};
ghost use Rattle.vc_types.specs.SequenceHeader.{sequence_of};
ghost use Rattle.cmd_probe.specs.HeaderLine.{form_words, header_line, presentation_words, ratio_words};
ghost use Rattle.cmd_probe.specs.HeaderLine.{sample_words};

use crate::line::Line;
use crate::presets::{
    colour_index, frame_rates, pixel_aspect_ratios, range_index, ratio_of, sampling_number,
};
use std::alloc::Global;
use vc_seqhdr::WholeHeader;
use vc_types::{Header, NoMemory, Presentation};

/// The line of a sequence header.
#[tactic(auto, unfolding(crate::specs::HeaderLine::header_line))]
pub(crate) fn header_line(alloc: Global, whole: &WholeHeader) -> Result<Line, NoMemory>
    ensures { IfOk result
        (λ line. line ≡ header_line (sequence_of whole.now.header) whole.now.presentation) }
{
    let mut text = String::new(alloc);
    push_form(&mut text, &whole.header)?;
    push_samples(&mut text, &whole.header)?;
    push_presentation(&mut text, &whole.presentation)?;
    Ok(Line::of(text))
}

#[tactic(auto, unfolding(crate::specs::HeaderLine::form_words))]
fn push_form(text: &mut String, header: &Header) -> Result<(), NoMemory>
    ensures { OnOk result
        (string_bytes text.new ≡ string_bytes text.old ++ form_words (sequence_of header.now)) }
{
    let Header {
        major,
        base,
        width,
        height,
        ..
    } = *header;
    write!(
        text,
        "header major {major} base {base} size {width}x{height}"
    )?;
    Ok(())
}

#[tactic(auto, unfolding(crate::specs::HeaderLine::sample_words))]
fn push_samples(text: &mut String, header: &Header) -> Result<(), NoMemory>
    ensures { OnOk result
        (string_bytes text.new ≡ string_bytes text.old ++ sample_words (sequence_of header.now)) }
{
    let sampling = sampling_number(header.sampling);
    let bits = header.shape().luma_depth;
    let range = range_index(&header.range);
    let fields = u8::from(header.fields);
    let top = u8::from(header.top_first);
    write!(text, " sampling {sampling} bits {bits} range {range}")?;
    write!(text, " fields {fields} top {top}")?;
    Ok(())
}

#[tactic(auto, unfolding(crate::specs::HeaderLine::presentation_words))]
fn push_presentation(text: &mut String, shown: &Presentation) -> Result<(), NoMemory>
    ensures { OnOk result
        (string_bytes text.new ≡ string_bytes text.old ++ presentation_words shown.now) }
{
    let colour = colour_index(&shown.colour);
    write!(text, " rate ")?;
    push_ratio(text, ratio_of(frame_rates(), &shown.frame_rate))?;
    write!(text, " aspect ")?;
    push_ratio(text, ratio_of(pixel_aspect_ratios(), &shown.aspect_ratio))?;
    write!(text, " colour {colour}\n")?;
    Ok(())
}

#[tactic(auto, unfolding(crate::specs::HeaderLine::ratio_words))]
fn push_ratio(text: &mut String, ratio: Option<(u32, u32)>) -> Result<(), NoMemory>
    ensures { OnOk result (string_bytes text.new ≡ string_bytes text.old ++ ratio_words ratio) }
{
    match ratio {
        Some((over, under)) => write!(text, "{over}:{under}")?,
        None => write!(text, "-")?,
    }
    Ok(())
}
