ghost use Rattle.std.specs.Prelude.{◌≡◌, ◌++◌, ◌∷◌, ◌+◌, ◌≤◌, [], OnOk, OnErr, length, option_copied};
ghost use Rattle.byteorder.specs.Endian.{big_bytes};
ghost use Rattle.rtcp_reports.specs.Rtcp.{block_bytes, sender_info_bytes, zeros_behind, name_words};
ghost use Rattle.rtcp_reports.specs.Rtcp.{description_bytes};
ghost use Rattle.rtcp_reports.specs.Rtcp.{receiver_compound, sender_compound, IsName, LossFitsIn};

use crate::block::{Block, SenderInfo};
use crate::packet_types::{RECEIVER_REPORT, SENDER_REPORT, SOURCE_DESCRIPTION};
use byteorder::{BigEndian, ByteOrder};
use vc_types::NoMemory;

const VERSION: u8 = 2 << 6;

// The code of a name (CNAME).
const NAME: u8 = 1;

// What a packet begins with: its first word, with the number of words behind it, and its source.
fn packet_head(count: u8, packet_type: u8, words: u16, ssrc: u32) -> [u8; 8]
    requires { count ≤ 31 }
    ensures { result ≡ (128 + count) ∷ packet_type ∷ (big_bytes 2 words ++ big_bytes 4 ssrc) }
{
    let mut bytes = [0; 8];
    let (start, rest) = bytes.split_at_mut(2);
    let (length, source) = rest.split_at_mut(2);
    start[0] = VERSION + count;
    start[1] = packet_type;
    BigEndian::write_u16(length, words);
    BigEndian::write_u32(source, ssrc);
    bytes
}

#[tactic(auto, unfolding(crate::specs::Rtcp::block_bytes))]
fn block_bytes(block: &Block) -> [u8; 24]
    ensures { result ≡ block_bytes block.now }
{
    let mut bytes = [0; 24];
    let (source, rest) = bytes.split_at_mut(4);
    let (fraction, rest) = rest.split_at_mut(1);
    let (lost, rest) = rest.split_at_mut(3);
    BigEndian::write_u32(source, block.ssrc);
    fraction[0] = block.fraction;
    BigEndian::write_i24(lost, block.lost);
    BigEndian::write_u32(rest, block.highest);
    bytes
}

#[tactic(auto, unfolding(crate::specs::Rtcp::sender_info_bytes))]
fn sender_info_bytes(s: &SenderInfo) -> [u8; 20]
    ensures { result ≡ sender_info_bytes s.now }
{
    let mut bytes = [0; 20];
    let (ntp, rest) = bytes.split_at_mut(8);
    let (timestamp, rest) = rest.split_at_mut(4);
    let (packets, octets) = rest.split_at_mut(4);
    BigEndian::write_u32(ntp, s.ntp);
    BigEndian::write_u32(timestamp, s.timestamp);
    BigEndian::write_u32(packets, s.packets);
    BigEndian::write_u32(octets, s.octets);
    bytes
}

// Appends both, or neither.
fn append(out: &mut Vec<u8>, first: &[u8], second: &[u8]) -> Result<(), NoMemory>
    ensures ok { OnOk result (out.new.items ≡ out.old.items ++ (first.now ++ second.now)) }
    ensures unchanged { OnErr result (out.new.items ≡ out.old.items) }
{
    let before = out.len();
    out.extend_from_slice(first)?;
    if out.extend_from_slice(second).is_err() {
        out.truncate(before);
        return Err(NoMemory);
    }
    Ok(())
}

// The zeros behind a name of so many bytes.
fn zeros_behind(count: u8) -> usize
    ensures { result ≡ zeros_behind count }
{
    4 - (usize::from(count) + 2) % 4
}

// A source description up to its name, of which the length is given.
fn description_head(ssrc: u32, count: u8) -> [u8; 10]
    ensures { result ≡ 129 ∷ 202 ∷ (big_bytes 2 (name_words count)
        ++ (big_bytes 4 ssrc ++ (1 ∷ count ∷ []))) }
{
    let mut bytes = [0; 10];
    let (head, item) = bytes.split_at_mut(8);
    let words = 2 + (u16::from(count) + 2) / 4;
    head.copy_from_slice(&packet_head(1, SOURCE_DESCRIPTION, words, ssrc));
    item[0] = NAME;
    item[1] = count;
    bytes
}

// The source description: all or nothing.
fn append_description(out: &mut Vec<u8>, ssrc: u32, cname: &str) -> Result<(), NoMemory>
    requires { length cname.now ≤ 255 }
    ensures ok { OnOk result (out.new.items ≡ out.old.items ++ description_bytes ssrc cname.now) }
    ensures unchanged { OnErr result (out.new.items ≡ out.old.items) }
{
    let before = out.len();
    let count = cname.len() as u8;
    append(out, &description_head(ssrc, count), cname.as_bytes())?;
    let end = out.len() + zeros_behind(count);
    match out.resize(end, 0) {
        Ok(()) => Ok(()),
        Err(_) => {
            out.truncate(before);
            Err(NoMemory)
        }
    }
}

// A report and a source description: all or nothing.
fn append_compound(
    out: &mut Vec<u8>,
    head: &[u8],
    body: &[u8],
    ssrc: u32,
    cname: &str,
) -> Result<(), NoMemory>
    requires { length cname.now ≤ 255 }
    ensures ok { OnOk result (out.new.items
        ≡ out.old.items ++ ((head.now ++ body.now) ++ description_bytes ssrc cname.now)) }
    ensures unchanged { OnErr result (out.new.items ≡ out.old.items) }
{
    let before = out.len();
    append(out, head, body)?;
    match append_description(out, ssrc, cname) {
        Ok(()) => Ok(()),
        Err(e) => {
            out.truncate(before);
            Err(e)
        }
    }
}

/// Appends a receiver report with one block or none, and a source description (RFC 3550, 6.4.2 and 6.5). Its
/// jitter and the two times of the last sender report are 0, since no clock is read. Where memory runs out,
/// nothing is appended.
pub fn write_rr(
    out: &mut Vec<u8>,
    ssrc: u32,
    block: Option<&Block>,
    cname: &str,
) -> Result<(), NoMemory>
    requires name { IsName cname.now }
    requires loss { LossFitsIn (option_copied block) }
    ensures value { OnOk result (out.new.items
        ≡ out.old.items ++ receiver_compound ssrc (option_copied block.entry) cname.now) }
    ensures unchanged { OnErr result (out.new.items ≡ out.old.items) }
{
    match block {
        Some(block) => append_compound(
            out,
            &packet_head(1, RECEIVER_REPORT, 7, ssrc),
            &block_bytes(block),
            ssrc,
            cname,
        ),
        None => append_compound(
            out,
            &packet_head(0, RECEIVER_REPORT, 1, ssrc),
            &[],
            ssrc,
            cname,
        ),
    }
}

/// Appends a sender report without blocks, and a source description (RFC 3550, 6.4.1 and 6.5). The lower half
/// of the NTP time is 0. Where memory runs out, nothing is appended.
pub fn write_sr(out: &mut Vec<u8>, s: &SenderInfo, cname: &str) -> Result<(), NoMemory>
    requires { IsName cname.now }
    ensures value { OnOk result
        (out.new.items ≡ out.old.items ++ sender_compound s.now cname.now) }
    ensures unchanged { OnErr result (out.new.items ≡ out.old.items) }
{
    append_compound(
        out,
        &packet_head(0, SENDER_REPORT, 6, s.ssrc),
        &sender_info_bytes(s),
        s.ssrc,
        cname,
    )
}
