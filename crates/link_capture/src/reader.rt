ghost use Rattle.std.specs.Prelude.{◌≡◌, ◌+◌, ◌<◌, ◌≤◌, ◌^◌, None, Err, IfNone, IfSome};
ghost use Rattle.byteorder.specs.Endian.{big_bytes};
ghost use Rattle.vc_ports.specs.Faults.{HasCause};
ghost use Rattle.link_capture.specs.Reading.{ReadsEntry, place_after_entry, fault_after_entry};

use crate::fault::EntryFault;
use byteorder::{BigEndian, ByteOrder};
use std::alloc::Global;
use vc_ports::{Filled, Source, fill};

/// A source that is read entry by entry. It keeps the source borrowed, and contracts see what the source is
/// now.
#[derive(Drop)]
pub struct CaptureReader<'a, S> {
    alloc: Global,
    source: &'a mut S,
    // How many bytes the entries have that were read whole.
    place: u64,
    // The fault that is answered from now on.
    fault: Option<EntryFault>,
}

impl<'a, S: Source> CaptureReader<'a, S> {
    /// A reader that begins where the source stands.
    pub fn new(alloc: Global, source: &'a mut S) -> CaptureReader<'a, S>
        ensures borrows { result.source.ghost_name ≡ source.entry.ghost_name }
        ensures source { result.source.now ≡ source.old }
        ensures place { result.place ≡ 0 }
        ensures sound { result.fault ≡ None }
    {
        CaptureReader {
            alloc,
            source,
            place: 0,
            fault: None,
        }
    }
}

/// Reads the next entry: its datagram, or None where the source ended at an entry's edge. After a fault the
/// same fault is answered without reading.
pub fn next_entry<S: Source>(r: &mut CaptureReader<S>) -> Result<Option<Vec<u8>>, EntryFault>
    requires { r.old.place < 2 ^ 63 }
    ensures borrows { r.new.source.ghost_name ≡ r.old.source.ghost_name }
    ensures entry { IfNone r.old.fault
        (ReadsEntry (S.left r.old.source.now) (S.left r.new.source.now) r.old.place result) }
    ensures cause { IfNone r.old.fault
        (HasCause (S.faults r.old.source.now) (S.faults r.new.source.now)
        (result ≡ Err EntryFault.ReadFault)) }
    ensures again { IfSome r.old.fault
        (λ fault. (result ≡ Err fault) × (r.new.source.now ≡ r.old.source.now)) }
    ensures place { r.new.place ≡ place_after_entry r.old.place result }
    ensures grows { r.new.place ≤ r.old.place + 65537 }
    ensures fault { r.new.fault ≡ fault_after_entry r.old.fault result }
{
    if let Some(fault) = r.fault {
        return Err(fault);
    }
    let answer = read_entry(r.alloc, r.source, r.place);
    match &answer {
        Ok(Some(datagram)) => r.place += 2 + datagram.len() as u64,
        Ok(None) => {}
        Err(fault) => r.fault = Some(*fault),
    }
    answer
}

// Reads the entry whose first byte is at a place.
fn read_entry<S: Source>(
    alloc: Global,
    source: &mut S,
    place: u64,
) -> Result<Option<Vec<u8>>, EntryFault>
    ensures entry { ReadsEntry (S.left source.old) (S.left source.new) place result }
    ensures cause { HasCause (S.faults source.old) (S.faults source.new)
        (result ≡ Err EntryFault.ReadFault) }
{
    let mut head = [0; 2];
    match fill(source, &mut head) {
        Filled::Whole => {}
        Filled::End(0) => return Ok(None),
        Filled::End(_) => return Err(EntryFault::Cut { place }),
        Filled::Failed(_) => return Err(EntryFault::ReadFault),
    }
    let mut datagram = Vec::new(alloc);
    match datagram.resize(usize::from(length_told(&head)), 0) {
        Ok(()) => {}
        Err(_) => return Err(EntryFault::NoMemory),
    }
    match fill(source, &mut datagram) {
        Filled::Whole => Ok(Some(datagram)),
        Filled::End(_) => Err(EntryFault::Cut { place }),
        Filled::Failed(_) => Err(EntryFault::ReadFault),
    }
}

// The number whose two bytes these are, high first.
#[tactic(auto, using(crate::proofs::Heads::two_bytes))]
fn length_told(head: &[u8; 2]) -> u16
    ensures { head.now ≡ big_bytes 2 result }
{
    BigEndian::read_u16(head)
}
