//! Rows of RTCP: what is kept of a source's sequence numbers, and reports that are written and read.
ghost use Rattle.std.specs.Prelude.{◌≡◌, IfOk, Ok};
ghost use Rattle.rtcp_reports.specs.Rtcp.{compound, IsName};

use crate::said::Said;
use crate::words::{bytes_of, natural, number, numbers, parted};
use rtcp_reports::{
    Block, CompoundView, SenderInfo, Track, block_at, read_compound, write_rr, write_sr,
};
use std::alloc::Global;
use worked_common::{Bad, NamedBytes};

// What is kept of a source, and how many packets came.
#[derive(Drop)]
struct Source {
    track: Track,
    packets: u32,
    ghost counted: { track.updates ≡ packets },
}

impl Source {
    fn new(first: u16) -> Source {
        Source {
            track: Track::new(first),
            packets: 0,
        }
    }

    fn update(&mut self, number: u16) -> Result<bool, Bad> {
        let Some(packets) = self.packets.checked_add(1) else {
            return Err(Bad::NoRow);
        };
        self.packets = packets;
        Ok(self.track.update(number))
    }
}

fn sequence(number: i128) -> Result<u16, Bad> {
    match u16::try_from(number) {
        Ok(number) => Ok(number),
        Err(_) => Err(Bad::NoRow),
    }
}

fn add_losses(block: &Block, said: &mut Said) {
    let (fraction, lost, highest) = (block.fraction, block.lost, block.highest);
    write!(said, "fraction {fraction} lost {lost} highest {highest} ");
}

fn add_report(source: &mut Source, said: &mut Said) {
    match source.track.block(0) {
        Some(block) => add_losses(&block, said),
        None => said.word("none"),
    }
}

fn add_updates(source: &mut Source, numbers: &[i128], said: &mut Said) -> Result<(), Bad> {
    for number in numbers {
        let counts = source.update(sequence(*number)?)?;
        said.word(u8::from(counts));
    }
    Ok(())
}

fn first(numbers: &[i128]) -> Result<u16, Bad> {
    match numbers.first() {
        Some(number) => sequence(*number),
        None => Err(Bad::NoRow),
    }
}

fn source_of(alloc: Global, text: &str) -> Result<Source, Bad> {
    let numbers = numbers(alloc, text)?;
    Ok(Source::new(first(numbers.as_slice())?))
}

/// Whether each packet of a source counts, by its sequence number, and a report behind each colon and at the
/// end.
pub(crate) fn track(given: &str, said: &mut Said) -> Result<(), Bad> {
    let mut source = source_of(said.alloc(), given.split(':').next().unwrap_or(""))?;
    for part in given.split(':') {
        let packets = numbers(said.alloc(), part)?;
        add_updates(&mut source, packets.as_slice(), said)?;
        add_report(&mut source, said);
    }
    Ok(())
}

// A source of which packets came, each so far ahead of the one before; the first number stands in front.
fn stepped(first: u16, steps: &[i128]) -> Result<Source, Bad> {
    let mut next = first;
    let mut source = Source::new(next);
    source.update(next)?;
    for step in steps {
        next = next.wrapping_add(sequence(*step)?);
        source.update(next)?;
    }
    Ok(source)
}

/// A report on packets of which each is so far ahead of the one before; the first number stands in front.
pub(crate) fn track_steps(given: &str, said: &mut Said) -> Result<(), Bad> {
    let (front, steps) = parted(given);
    let first = sequence(number(front)?)?;
    let steps = numbers(said.alloc(), steps)?;
    add_report(&mut stepped(first, steps.as_slice())?, said);
    Ok(())
}

fn field(number: i128) -> Result<u32, Bad> {
    match u32::try_from(number) {
        Ok(number) => Ok(number),
        Err(_) => Err(Bad::NoRow),
    }
}

fn fraction(number: i128) -> Result<u8, Bad> {
    match u8::try_from(number) {
        Ok(number) => Ok(number),
        Err(_) => Err(Bad::NoRow),
    }
}

fn lost(number: i128) -> Result<i32, Bad> {
    match i32::try_from(number) {
        Ok(number) => Ok(number),
        Err(_) => Err(Bad::NoRow),
    }
}

// A source, a share, a loss and a highest number.
fn block_of(alloc: Global, text: &str) -> Result<Block, Bad> {
    let fields = numbers(alloc, text)?;
    match fields.as_slice() {
        [source, share, loss, highest] => Ok(Block {
            ssrc: field(*source)?,
            fraction: fraction(*share)?,
            lost: lost(*loss)?,
            highest: field(*highest)?,
        }),
        _ => Err(Bad::NoRow),
    }
}

// A source, the NTP time's seconds, an RTP time, and how many packets and bytes of payload were sent.
fn sender_of(alloc: Global, text: &str) -> Result<SenderInfo, Bad> {
    let fields = numbers(alloc, text)?;
    match fields.as_slice() {
        [source, ntp, timestamp, packets, octets] => Ok(SenderInfo {
            ssrc: field(*source)?,
            ntp: field(*ntp)?,
            timestamp: field(*timestamp)?,
            packets: field(*packets)?,
            octets: field(*octets)?,
        }),
        _ => Err(Bad::NoRow),
    }
}

// A name that a report can have.
fn name_of(bytes: &[u8]) -> Result<&str, Bad>
    ensures { IfOk result (λ name. IsName name.now) }
{
    let name = str::from_utf8(bytes).unwrap_or("");
    if name.is_empty() {
        return Err(Bad::NoRow);
    }
    if name.len() > 255 {
        return Err(Bad::NoRow);
    }
    if !name.is_ascii() {
        return Err(Bad::NoRow);
    }
    Ok(name)
}

fn write_block(out: &mut Vec<u8>, ssrc: u32, block: &Block, name: &str) -> Result<(), Bad>
    requires { IsName name.now }
{
    if block.lost < -0x80_0000 {
        return Err(Bad::NoRow);
    }
    if block.lost > 0x7F_FFFF {
        return Err(Bad::NoRow);
    }
    write_rr(out, ssrc, Some(block), name)?;
    Ok(())
}

fn add_rr(
    alloc: Global,
    out: &mut Vec<u8>,
    ssrc: u32,
    block: &str,
    name: &[u8],
) -> Result<(), Bad> {
    let name = name_of(name)?;
    if block.trim().is_empty() {
        write_rr(out, ssrc, None, name)?;
        return Ok(());
    }
    write_block(out, ssrc, &block_of(alloc, block)?, name)
}

/// A receiver report and a name, behind other bytes.
pub(crate) fn rr_written(parts: &[NamedBytes], given: &str, said: &mut Said) -> Result<(), Bad> {
    let (before, rest) = parted(given);
    let (ssrc, rest) = parted(rest);
    let (block, name) = parted(rest);
    let mut out = bytes_of(said.alloc(), parts, before)?;
    let name = bytes_of(said.alloc(), parts, name)?;
    add_rr(
        said.alloc(),
        &mut out,
        natural(ssrc)?,
        block,
        name.as_slice(),
    )?;
    said.bytes(out.as_slice());
    Ok(())
}

fn add_sr(out: &mut Vec<u8>, sender: &SenderInfo, name: &[u8]) -> Result<(), Bad> {
    let name = name_of(name)?;
    write_sr(out, sender, name)?;
    Ok(())
}

/// A sender report and a name, behind other bytes.
pub(crate) fn sr_written(parts: &[NamedBytes], given: &str, said: &mut Said) -> Result<(), Bad> {
    let (before, rest) = parted(given);
    let (sender, name) = parted(rest);
    let mut out = bytes_of(said.alloc(), parts, before)?;
    let name = bytes_of(said.alloc(), parts, name)?;
    add_sr(&mut out, &sender_of(said.alloc(), sender)?, name.as_slice())?;
    said.bytes(out.as_slice());
    Ok(())
}

fn add_sender(ssrc: u32, sender: &SenderInfo, said: &mut Said) {
    said.named(&[
        ("sr", ssrc),
        ("ntp", sender.ntp),
        ("timestamp", sender.timestamp),
        ("packets", sender.packets),
        ("octets", sender.octets),
    ]);
}

fn add_view(view: &CompoundView, said: &mut Said) {
    match view.sender {
        Some(sender) => add_sender(view.ssrc, &sender, said),
        None => said.named(&[("rr", view.ssrc)]),
    }
    said.named(&[("blocks", u32::from(view.blocks))]);
}

fn add_blocks(bytes: &[u8], view: &CompoundView, said: &mut Said)
    requires { compound bytes.now ≡ Ok view.now }
{
    for i in 0..view.blocks {
        let block = block_at(bytes, view, i);
        said.named(&[("block", block.ssrc)]);
        add_losses(&block, said);
    }
}

/// What the report says that a compound packet begins with, and its blocks; or its refusal, with the number.
pub(crate) fn compound(parts: &[NamedBytes], given: &str, said: &mut Said) -> Result<(), Bad> {
    let bytes = bytes_of(said.alloc(), parts, given)?;
    match read_compound(bytes.as_slice()) {
        Ok(view) => {
            add_view(&view, said);
            add_blocks(bytes.as_slice(), &view, said);
        }
        Err(refusal) => {
            said.named(&[("refused", u32::from(refusal.number()))]);
            said.shown(refusal);
        }
    }
    Ok(())
}

fn add_cuts(bytes: &[u8], said: &mut Said) {
    for length in 0..=bytes.len() {
        match read_compound(bytes.get(..length).unwrap_or(bytes)) {
            Ok(_) => said.word("read"),
            Err(refusal) => said.shown(refusal),
        }
    }
}

/// What is read of the first 0, 1, 2, .. and all of a compound packet's bytes.
pub(crate) fn compound_cuts(parts: &[NamedBytes], given: &str, said: &mut Said) -> Result<(), Bad> {
    let bytes = bytes_of(said.alloc(), parts, given)?;
    add_cuts(bytes.as_slice(), said);
    Ok(())
}
