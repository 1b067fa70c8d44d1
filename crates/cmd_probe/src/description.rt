ghost use Rattle.std.specs.Prelude.{◌≡◌, ◌++◌, ◌≤◌, ◌^◌, Some, IfOk, OnOk};
ghost use Rattle.std.specs.List.{flat_map};
ghost use Rattle.std.specs.String.{string_bytes};
ghost use Rattle.cmd_probe.specs.Description.{first_words, indices_line, pictures_line, source_line};
ghost use Rattle.cmd_probe.specs.Description.{source_text};
ghost use Rattle.cmd_probe.specs.Description.{stamps_line, step_words, tenths, text_of};

use crate::pictures::Pictures;
use crate::slices::Indices;
use crate::source::Source;
use crate::steps::Step;
use std::alloc::Global;
use vc_types::NoMemory;

/// What is known of sources, as text, and whether there are others.
pub(crate) fn description(
    alloc: Global,
    sources: &[Source],
    others: bool,
) -> Result<String, NoMemory>
    ensures { IfOk result (λ text. string_bytes text ≡ text_of sources.now others) }
{
    let mut text = String::new(alloc);
    push_sources(&mut text, sources)?;
    if others {
        write!(text, "more sources\n")?;
    }
    Ok(text)
}

fn push_sources(text: &mut String, sources: &[Source]) -> Result<(), NoMemory>
    ensures { OnOk result
        (string_bytes text.new ≡ string_bytes text.old ++ flat_map source_text sources.now) }
{
    for source in sources {
        push_source(text, source)?;
    }
    Ok(())
}

#[tactic(auto, unfolding(crate::specs::Description::source_text))]
fn push_source(text: &mut String, source: &Source) -> Result<(), NoMemory>
    ensures { OnOk result
        (string_bytes text.new ≡ string_bytes text.old ++ source_text source.now) }
{
    push_packets(text, source)?;
    text.push_str(source.formats.text.as_str())?;
    if source.pictures.count > 0 {
        push_pictures(text, &source.pictures)?;
        push_indices(text, &source.indices)?;
        push_stamps(text, source)?;
    }
    Ok(())
}

#[tactic(auto, unfolding(crate::specs::Description::source_line))]
fn push_packets(text: &mut String, source: &Source) -> Result<(), NoMemory>
    ensures { OnOk result
        (string_bytes text.new ≡ string_bytes text.old ++ source_line source.now) }
{
    let Source {
        ssrc,
        payload_type,
        ..
    } = source;
    let packets = source.arrivals.track.met();
    let lost = source.arrivals.track.lost();
    write!(
        text,
        "source {ssrc} type {payload_type} packets {packets} lost {lost}"
    )?;
    let repeats = source.arrivals.repeats;
    let disordered = source.arrivals.disordered;
    let bytes = source.arrivals.bytes;
    write!(
        text,
        " repeats {repeats} disordered {disordered} bytes {bytes}\n"
    )?;
    Ok(())
}

#[tactic(auto, unfolding(crate::specs::Description::pictures_line))]
fn push_pictures(text: &mut String, pictures: &Pictures) -> Result<(), NoMemory>
    ensures { OnOk result
        (string_bytes text.new ≡ string_bytes text.old ++ pictures_line pictures.now) }
{
    let Pictures {
        count,
        whole,
        first,
        last,
        largest,
        ..
    } = *pictures;
    write!(
        text,
        "pictures {count} whole {whole} first {first} last {last} largest {largest}\n"
    )?;
    Ok(())
}

#[tactic(auto, unfolding(crate::specs::Description::indices_line))]
fn push_indices(text: &mut String, indices: &Indices) -> Result<(), NoMemory>
    ensures { OnOk result
        (string_bytes text.new ≡ string_bytes text.old ++ indices_line indices.now) }
{
    let Indices { least, most } = *indices;
    if least <= most {
        write!(text, "indices least {least} most {most}\n")?;
    }
    Ok(())
}

#[tactic(auto, unfolding(crate::specs::Description::stamps_line))]
fn push_stamps(text: &mut String, source: &Source) -> Result<(), NoMemory>
    ensures { OnOk result (string_bytes text.new ≡ string_bytes text.old
        ++ stamps_line source.now.stamps source.now.pictures.count source.now.arrivals.bytes) }
{
    push_first(text, source.stamps.first)?;
    let step = source.stamps.steps.commonest();
    push_step(text, step, source.pictures.count, source.arrivals.bytes)?;
    Ok(())
}

#[tactic(auto, unfolding(crate::specs::Description::first_words))]
fn push_first(text: &mut String, first: u32) -> Result<(), NoMemory>
    ensures { OnOk result (string_bytes text.new ≡ string_bytes text.old ++ first_words first) }
{
    write!(text, "timestamps first {first}")?;
    Ok(())
}

#[tactic(auto, unfolding(crate::specs::Description::step_words))]
fn push_step(
    text: &mut String,
    step: Option<Step>,
    pictures: u64,
    bytes: u64,
) -> Result<(), NoMemory>
    ensures { OnOk result
        (string_bytes text.new ≡ string_bytes text.old ++ step_words step pictures bytes) }
{
    match step {
        Some(step) => push_rate(text, step, pictures, bytes),
        None => {
            write!(text, " step - mbits -\n")?;
            Ok(())
        }
    }
}

// The step, and the rate by it.
#[tactic(auto, unfolding(crate::specs::Description::step_words))]
fn push_rate(text: &mut String, step: Step, pictures: u64, bytes: u64) -> Result<(), NoMemory>
    ensures { OnOk result
        (string_bytes text.new ≡ string_bytes text.old ++ step_words (Some step) pictures bytes) }
{
    let ticks = step.ticks;
    write!(text, " step {ticks} mbits ")?;
    let times = u128::from(pictures) * u128::from(ticks);
    if times == 0 {
        write!(text, "-\n")?;
        return Ok(());
    }
    let rate = tenths(bytes, times);
    let whole = rate / 10;
    let tenth = rate % 10;
    write!(text, "{whole}.{tenth}\n")?;
    Ok(())
}

// Tenths of a million bits in a second, to the nearest: of so many bytes in so many ticks.
fn tenths(bytes: u64, ticks: u128) -> u128
    requires some { 1 ≤ ticks }
    requires few { ticks ≤ 2 ^ 96 }
    ensures { result ≡ tenths bytes ticks }
{
    (72 * u128::from(bytes) + 5 * ticks) / (10 * ticks)
}
