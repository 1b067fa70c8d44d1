ghost use Rattle.std.specs.Prelude.{◌≡◌, ◌++◌, [], OnOk, OnErr, IsTrue};
ghost use Rattle.vc_types.specs.DataUnits.{is_unit_code, parse_info, unit_bytes};
ghost use Rattle.vc_types.specs.ParseCodes.{end_code};

use crate::info::{PARSE_INFO_BYTES, PARSE_INFO_PREFIX};
use byteorder::{BigEndian, ByteOrder};
use vc_types::{END_OF_SEQUENCE, NoMemory};

/// Appends a data unit (ST 2042-1, data unit) after a unit of `previous` bytes, 0 for the first. The code is
/// one that `next_unit` accepts. The distance to the next unit is the unit's own length, its low 32 bits, and
/// 0 in an end of sequence, which has no body. Where memory runs out, nothing is appended.
#[tactic(auto, unfolding(vc_types::specs::DataUnits::unit_bytes))]
pub fn write_unit(out: &mut Vec<u8>, code: u8, body: &[u8], previous: u32) -> Result<(), NoMemory>
    requires code { IsTrue (is_unit_code code) }
    requires body { code ≡ end_code → body.now ≡ [] }
    ensures ok { OnOk result (out.new.items ≡ out.old.items ++ unit_bytes code body.now previous) }
    ensures err { OnErr result (out.new.items ≡ out.old.items) }
{
    let length = PARSE_INFO_BYTES + body.len();
    let next = if code == END_OF_SEQUENCE { 0 } else { length };
    out.reserve(length)?;
    out.extend_from_slice(&parse_info(code, next, previous))?;
    out.extend_from_slice(body)?;
    Ok(())
}

// The 13 bytes before a body, with the low 32 bits of the distance to the next unit.
#[tactic(auto, unfolding(vc_types::specs::DataUnits::parse_info), using(crate::proofs::Written::low_bytes))]
fn parse_info(code: u8, next: usize, previous: u32) -> [u8; PARSE_INFO_BYTES]
    ensures { result ≡ parse_info code next previous }
{
    let mut info = [0; PARSE_INFO_BYTES];
    let (prefix, rest) = info.split_at_mut(4);
    let (code_byte, rest) = rest.split_at_mut(1);
    let (to_next, from_previous) = rest.split_at_mut(4);
    BigEndian::write_u32(prefix, PARSE_INFO_PREFIX);
    code_byte[0] = code;
    BigEndian::write_u32(to_next, (next % (1 << 32)) as u32);
    BigEndian::write_u32(from_previous, previous);
    info
}
