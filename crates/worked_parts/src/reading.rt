//! Rows of streams that are read unit by unit, and of captures that are read entry by entry.
ghost use Rattle.std.specs.Prelude.{◌≤◌, ◌<◌, ◌+◌, ◌^◌};

use crate::ports::{add_left, failing_source};
use crate::said::Said;
use link_capture::{CaptureReader, EntryFault, next_entry};
use vc_ports::Source;
use vc_units::{Unit, UnitReader, next_unit};
use worked_common::{Bad, NamedBytes};

fn add_unit_read(unit: &Unit, said: &mut Said) {
    let (code, at) = (unit.code, unit.at);
    write!(said, "unit {code:02x} at {at} ");
    said.bytes(unit.body.as_slice());
}

fn add_unit<S: Source>(reader: &mut UnitReader<S>, said: &mut Said)
    requires { reader.old.place < 2 ^ 62 }
    ensures { reader.new.place ≤ reader.old.place + 268435456 }
{
    match next_unit(reader) {
        Ok(Some(unit)) => add_unit_read(&unit, said),
        Ok(None) => said.word("end"),
        Err(fault) => said.shown(fault),
    }
}

fn add_units<S: Source>(source: &mut S, said: &mut Said) {
    let mut reader = UnitReader::new(said.alloc(), source);
    add_unit(&mut reader, said);
    add_unit(&mut reader, said);
    add_unit(&mut reader, said);
}

/// What three reads of a unit answer, where the reads of these numbers fail, and how many bytes are left.
pub(crate) fn units(parts: &[NamedBytes], given: &str, said: &mut Said) -> Result<(), Bad> {
    let mut source = failing_source(said.alloc(), parts, given)?;
    add_units(&mut source, said);
    add_left(&mut source, said);
    Ok(())
}

fn add_entry_fault(fault: EntryFault, said: &mut Said) {
    match fault {
        EntryFault::Cut { place } => write!(said, "cut@{place} "),
        EntryFault::ReadFault => said.word("read"),
        EntryFault::NoMemory => said.word("memory"),
    }
}

fn add_datagram(datagram: &[u8], said: &mut Said) {
    said.word("entry");
    said.bytes(datagram);
}

fn add_entry<S: Source>(reader: &mut CaptureReader<S>, said: &mut Said)
    requires { reader.old.place < 2 ^ 62 }
    ensures { reader.new.place ≤ reader.old.place + 65537 }
{
    match next_entry(reader) {
        Ok(Some(datagram)) => add_datagram(datagram.as_slice(), said),
        Ok(None) => said.word("end"),
        Err(fault) => add_entry_fault(fault, said),
    }
}

fn add_entries<S: Source>(source: &mut S, said: &mut Said) {
    let mut reader = CaptureReader::new(said.alloc(), source);
    add_entry(&mut reader, said);
    add_entry(&mut reader, said);
    add_entry(&mut reader, said);
}

/// What three reads of an entry answer, where the reads of these numbers fail, and how many bytes are left.
pub(crate) fn entries(parts: &[NamedBytes], given: &str, said: &mut Said) -> Result<(), Bad> {
    let mut source = failing_source(said.alloc(), parts, given)?;
    add_entries(&mut source, said);
    add_left(&mut source, said);
    Ok(())
}
