ghost use Rattle.std.specs.Prelude.{◌≡◌, ◌++◌, OnOk, OnErr, length};
ghost use Rattle.byteorder.specs.Endian.{big_bytes};
ghost use Rattle.link_model.specs.Packets.{payload_head, fragment_bytes, payload_bytes};
ghost use Rattle.vc2_payload.specs.Views.{head_of, payload_value, CanBeWritten};

use crate::payload::{FragmentHead, Payload};
use byteorder::{BigEndian, ByteOrder};
use vc_types::{END_OF_SEQUENCE, HIGH_QUALITY_FRAGMENT, NoMemory, SEQUENCE_HEADER};

#[tactic(auto, unfolding(link_model::specs::Packets::payload_head))]
fn payload_head(high: u16, flags: u8, code: u8) -> [u8; 4]
    ensures { result ≡ payload_head high flags code }
{
    let mut head = [0; 4];
    BigEndian::write_u16(&mut head, high);
    head[2] = flags;
    head[3] = code;
    head
}

// The head of a fragment, for so many bytes and slices.
#[tactic(auto, unfolding(link_model::specs::Packets::fragment_bytes, link_model::specs::Packets::payload_head))]
fn fragment_bytes(head: &FragmentHead, len: u16, slices: u16) -> [u8; 16]
    ensures { result ≡ fragment_bytes (head_of head.now) len slices }
{
    let mut bytes = [0; 16];
    let (start, rest) = bytes.split_at_mut(4);
    start.copy_from_slice(&payload_head(head.high, head.flags, HIGH_QUALITY_FRAGMENT));
    let (number, rest) = rest.split_at_mut(4);
    BigEndian::write_u32(number, head.number);
    let (prefix, rest) = rest.split_at_mut(2);
    BigEndian::write_u16(prefix, head.prefix);
    let (scaler, rest) = rest.split_at_mut(2);
    BigEndian::write_u16(scaler, head.scaler);
    let (length, count) = rest.split_at_mut(2);
    BigEndian::write_u16(length, len);
    BigEndian::write_u16(count, slices);
    bytes
}

// The offsets of the first slice.
fn offset_bytes(x: u16, y: u16) -> [u8; 4]
    ensures { result ≡ big_bytes 2 x ++ big_bytes 2 y }
{
    let mut bytes = [0; 4];
    let (across, down) = bytes.split_at_mut(2);
    BigEndian::write_u16(across, x);
    BigEndian::write_u16(down, y);
    bytes
}

// Appends all pieces, or none.
fn append(out: &mut Vec<u8>, head: &[u8], offsets: &[u8], body: &[u8]) -> Result<(), NoMemory>
    ensures ok { OnOk result
        (out.new.items ≡ out.old.items ++ (head.now ++ (offsets.now ++ body.now))) }
    ensures unchanged { OnErr result (out.new.items ≡ out.old.items) }
{
    let before = out.len();
    out.extend_from_slice(head)?;
    if out.extend_from_slice(offsets).is_err() || out.extend_from_slice(body).is_err() {
        out.truncate(before);
        return Err(NoMemory);
    }
    Ok(())
}

/// Appends a payload (RFC 8450, 4): a fragment's length is that of its body, and the flags of every other
/// payload are
/// 0. Where memory runs out, nothing is appended.
#[tactic(auto, unfolding(link_model::specs::Packets::payload_bytes))]
pub fn write_payload(out: &mut Vec<u8>, p: &Payload<'_>) -> Result<(), NoMemory>
    requires { CanBeWritten p.now }
    ensures value { OnOk result
        (out.new.items ≡ out.old.items ++ payload_bytes (payload_value p.now)) }
    ensures unchanged { OnErr result (out.new.items ≡ out.old.items) }
{
    match p {
        Payload::Header { high, body, .. } => append(
            out,
            &payload_head(*high, 0, SEQUENCE_HEADER),
            &[],
            body,
        ),
        Payload::End { high } => append(out, &payload_head(*high, 0, END_OF_SEQUENCE), &[], &[]),
        Payload::Skip { high, code } => append(out, &payload_head(*high, 0, *code), &[], &[]),
        Payload::Params { head, body, .. } => {
            append(out, &fragment_bytes(head, body.len() as u16, 0), &[], body)
        }
        Payload::Slices {
            head,
            count,
            x,
            y,
            body,
            ..
        } => {
            let start = fragment_bytes(head, body.len() as u16, *count);
            append(out, &start, &offset_bytes(*x, *y), body)
        }
    }
}
