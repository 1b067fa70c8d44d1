ghost use Rattle.std.specs.Prelude.{◌≡◌, ◌+◌, ◌-◌, ◌≤◌, ◌<◌, ◌↔◌, ◌≢◌, ◌&&◌, length, take, drop, IfOk};
ghost use Rattle.std.specs.Prelude.{IfSome, IsNone, IsSome, IsTrue, IsFalse, nat_le};
ghost use Rattle.byteorder.specs.Endian.{big_number};
ghost use Rattle.vc_types.specs.Fields.{IsReadAs};
ghost use Rattle.vc_types.specs.ParseCodes.{fragment_code};
ghost use Rattle.link_model.specs.Packets.{payload_code, fragment_fits, fragment_value};
ghost use Rattle.link_model.specs.Packets.{fragment_head, is_known_code, payload};
ghost use Rattle.vc2_payload.specs.Views.{head_of, payload_value, HasBodyIn, CanBeWritten};

use crate::payload::{FragmentHead, Payload};
use byteorder::{BigEndian, ByteOrder};
use link_model::PayloadRefusal;
use vc_types::{
    AUXILIARY_DATA, END_OF_SEQUENCE, HIGH_QUALITY_FRAGMENT, PADDING_DATA, SEQUENCE_HEADER,
};

// The bytes that every payload begins with, those of a fragment with parameters, and those of one with
// slices.
const HEAD_BYTES: usize = 4;

const PARAMS_BYTES: usize = 16;

const SLICES_BYTES: usize = 20;

fn number_16(bytes: &[u8], place: usize) -> u16
    requires { place + 2 ≤ length bytes.now }
    ensures { result ≡ big_number 2 (drop place bytes.now) }
{
    BigEndian::read_u16(&bytes[place..])
}

fn fragment_head(bytes: &[u8]) -> FragmentHead
    requires { 16 ≤ length bytes.now }
    ensures { head_of result ≡ fragment_head bytes.now }
{
    FragmentHead {
        high: BigEndian::read_u16(bytes),
        flags: bytes[2],
        number: BigEndian::read_u32(&bytes[4..]),
        prefix: number_16(bytes, 8),
        scaler: number_16(bytes, 10),
    }
}

#[tactic(auto, unfolding(link_model::specs::Packets::fragment_fits, link_model::specs::Packets::fragment_value))]
fn fragment(bytes: &[u8]) -> Option<Payload<'_>>
    ensures fits { IsSome result ↔ IsTrue (fragment_fits bytes.now) }
    ensures value { IfSome result (λ p. payload_value p ≡ fragment_value bytes.now) }
    ensures place { IfSome result (HasBodyIn bytes.now) }
    ensures writable { IfSome result CanBeWritten }
{
    if bytes.len() < PARAMS_BYTES {
        return None;
    }
    let head = fragment_head(bytes);
    let len = usize::from(number_16(bytes, 12));
    match number_16(bytes, 14) {
        0 => {
            let body = bytes.get(PARAMS_BYTES..PARAMS_BYTES + len)?;
            Some(Payload::Params {
                head,
                from: PARAMS_BYTES,
                body,
            })
        }
        count => {
            let body = bytes.get(SLICES_BYTES..SLICES_BYTES + len)?;
            Some(Payload::Slices {
                head,
                count,
                x: number_16(bytes, 16),
                y: number_16(bytes, 18),
                from: SLICES_BYTES,
                body,
            })
        }
    }
}

/// Reads a payload (RFC 8450, 4). Bytes after a fragment's body and after code 10 are ignored, and so are
/// the contents of codes 20 and 30.
#[tactic(auto, unfolding(link_model::specs::Packets::payload))]
pub fn read_payload(bytes: &[u8]) -> Result<Payload<'_>, PayloadRefusal>
    ensures value { IsReadAs payload_value result (payload bytes.now) }
    ensures place { IfOk result (HasBodyIn bytes.now) }
    ensures writable { IfOk result CanBeWritten }

    ensures short_exactly { (result ≡ Err PayloadRefusal.Short) ↔ (length bytes.now < 4) }
    ensures code_exactly { (result ≡ Err PayloadRefusal.Code)
        ↔ ((4 ≤ length bytes.now) × IsFalse (is_known_code (payload_code bytes.now))) }
    ensures fragment_exactly { (result ≡ Err PayloadRefusal.Fragment)
        ↔ ((4 ≤ length bytes.now) × (payload_code bytes.now ≡ fragment_code)
        × IsFalse (fragment_fits bytes.now)) }
{
    if bytes.len() < HEAD_BYTES {
        return Err(PayloadRefusal::Short);
    }
    let high = BigEndian::read_u16(bytes);
    match bytes[3] {
        SEQUENCE_HEADER => {
            let (_, body) = bytes.split_at(HEAD_BYTES);
            Ok(Payload::Header {
                high,
                from: HEAD_BYTES,
                body,
            })
        }
        END_OF_SEQUENCE => Ok(Payload::End { high }),
        code @ (AUXILIARY_DATA | PADDING_DATA) => Ok(Payload::Skip { high, code }),
        HIGH_QUALITY_FRAGMENT => fragment(bytes).ok_or(PayloadRefusal::Fragment),
        _ => Err(PayloadRefusal::Code),
    }
}
