ghost use Rattle.std.specs.Prelude.{◌≡◌, ◌+◌, ◌<◌, ◌≤◌, ◌^◌, None, Err, IfNone, IfSome, IfOk};
ghost use Rattle.vc_ports.specs.Faults.{HasCause};
ghost use Rattle.vc_units.specs.Reading.{ReadsBody, ReadsUnit, place_after_unit, fault_after_unit};
ghost use Rattle.vc_units.specs.Units.{body_length};

use crate::fault::UnitFault;
use crate::info::{PARSE_INFO_BYTES, PARSE_INFO_PREFIX};
use crate::unit::Unit;
use byteorder::{BigEndian, ByteOrder};
use std::alloc::Global;
use vc_ports::{Filled, Source, fill};
use vc_types::{
    AUXILIARY_DATA, END_OF_SEQUENCE, HIGH_QUALITY_PICTURE, LOW_DELAY_PICTURE, PADDING_DATA,
    SEQUENCE_HEADER,
};

// The most bytes that a unit may have.
const LONGEST_UNIT: u32 = 268_435_456;

// So many bytes of a body are read before it is known that there are any.
const FIRST_PART: usize = 65_536;

/// A source that is read unit by unit. It keeps the source borrowed, and contracts see what the source is
/// now.
#[derive(Drop)]
pub struct UnitReader<'a, S> {
    alloc: Global,
    source: &'a mut S,
    // How many bytes the units have that were read whole.
    place: u64,
    // The fault that is answered from now on.
    fault: Option<UnitFault>,
}

impl<'a, S: Source> UnitReader<'a, S> {
    /// A reader that begins where the source stands.
    pub fn new(alloc: Global, source: &'a mut S) -> UnitReader<'a, S>
        ensures borrows { result.source.ghost_name ≡ source.entry.ghost_name }
        ensures source { result.source.now ≡ source.old }
        ensures place { result.place ≡ 0 }
        ensures sound { result.fault ≡ None }
    {
        UnitReader {
            alloc,
            source,
            place: 0,
            fault: None,
        }
    }

    /// How many bytes the units have that were read whole: the place of the next one.
    pub fn place(&self) -> u64
        ensures { result ≡ self.now.place }
    {
        self.place
    }
}

/// Reads the next unit (ST 2042-1, data unit), or None where the source ended at a unit's edge. It is refused
/// for the first of these: `Short` where the source ended within the 13 bytes before the body, `Prefix`,
/// `Code`, `Offset`, and `Short` where it ended within the body. No byte behind a parse info that is refused,
/// or behind an end of sequence, is taken. After a fault the same fault is answered without reading.
pub fn next_unit<S: Source>(r: &mut UnitReader<S>) -> Result<Option<Unit>, UnitFault>
    requires { r.old.place < 2 ^ 63 }
    ensures borrows { r.new.source.ghost_name ≡ r.old.source.ghost_name }
    ensures unit { IfNone r.old.fault
        (ReadsUnit (S.left r.old.source.now) (S.left r.new.source.now) r.old.place result) }
    ensures cause { IfNone r.old.fault
        (HasCause (S.faults r.old.source.now) (S.faults r.new.source.now)
        (result ≡ Err UnitFault.ReadFault)) }
    ensures again { IfSome r.old.fault
        (λ fault. (result ≡ Err fault) × (r.new.source.now ≡ r.old.source.now)) }
    ensures place { r.new.place ≡ place_after_unit r.old.place result }
    ensures grows { r.new.place ≤ r.old.place + 268435456 }
    ensures fault { r.new.fault ≡ fault_after_unit r.old.fault result }
{
    if let Some(fault) = r.fault {
        return Err(fault);
    }
    let answer = read_unit(r.alloc, r.source, r.place);
    match &answer {
        Ok(Some(unit)) => r.place += (PARSE_INFO_BYTES + unit.body.len()) as u64,
        Ok(None) => {}
        Err(fault) => r.fault = Some(*fault),
    }
    answer
}

// Reads the unit whose first byte is at a place.
fn read_unit<S: Source>(
    alloc: Global,
    source: &mut S,
    place: u64,
) -> Result<Option<Unit>, UnitFault>
    ensures unit { ReadsUnit (S.left source.old) (S.left source.new) place result }
    ensures cause { HasCause (S.faults source.old) (S.faults source.new)
        (result ≡ Err UnitFault.ReadFault) }
    ensures grows { place_after_unit place result ≤ place + 268435456 }
{
    let mut info = [0; PARSE_INFO_BYTES];
    match fill(source, &mut info) {
        Filled::Whole => {}
        Filled::End(0) => return Ok(None),
        Filled::End(_) => return Err(UnitFault::Short),
        Filled::Failed(_) => return Err(UnitFault::ReadFault),
    }
    let count = body_length(&info)?;
    let body = read_body(alloc, source, count)?;
    Ok(Some(Unit {
        code: info[4],
        at: place,
        body,
    }))
}

// Reads a body of so many bytes as they come: memory is taken for what has come, and once more as much.
fn read_body<S: Source>(alloc: Global, source: &mut S, count: usize) -> Result<Vec<u8>, UnitFault>
    requires { count ≤ 268435456 }
    ensures body { ReadsBody (S.left source.old) (S.left source.new) count result }
    ensures cause { HasCause (S.faults source.old) (S.faults source.new)
        (result ≡ Err UnitFault.ReadFault) }
{
    let mut body = Vec::new(alloc);
    'parts: while body.len() < count {
        let from = body.len();
        match body.resize(count.min(2 * from + FIRST_PART), 0) {
            Ok(()) => {}
            Err(_) => return Err(UnitFault::NoMemory),
        }
        match fill(source, &mut body[from..]) {
            Filled::Whole => {}
            Filled::End(_) => return Err(UnitFault::Short),
            Filled::Failed(_) => return Err(UnitFault::ReadFault),
        }
    }
    Ok(body)
}

// How many bytes the body behind a parse info header has. An end of sequence has none, whatever its distance.
#[tactic(auto, unfolding(crate::specs::Units::body_length))]
fn body_length(info: &[u8; PARSE_INFO_BYTES]) -> Result<usize, UnitFault>
    ensures value { result ≡ body_length info.now }
    ensures within { IfOk result (λ count. 13 + count ≤ 268435456) }
{
    if BigEndian::read_u32(info) != PARSE_INFO_PREFIX {
        return Err(UnitFault::Prefix);
    }
    match info[4] {
        END_OF_SEQUENCE => Ok(0),
        SEQUENCE_HEADER
        | AUXILIARY_DATA
        | PADDING_DATA
        | LOW_DELAY_PICTURE
        | HIGH_QUALITY_PICTURE => {
            let next = BigEndian::read_u32(&info[5..]);
            if next < PARSE_INFO_BYTES as u32 || next > LONGEST_UNIT {
                return Err(UnitFault::Offset);
            }
            Ok(next as usize - PARSE_INFO_BYTES)
        }
        _ => Err(UnitFault::Code),
    }
}
