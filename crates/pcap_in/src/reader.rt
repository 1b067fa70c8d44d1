ghost use Rattle.std.specs.Prelude.{◌≡◌, ◌+◌, ◌<◌, ◌≤◌, ◌^◌, None, Err, IfNone, IfSome};
ghost use Rattle.std.specs.Option.{option_map};
ghost use Rattle.vc_ports.specs.Faults.{HasCause};
ghost use Rattle.pcap_in.specs.Reading.{ReadsHead, ReadsRecord, ReadsNext, head_place};
ghost use Rattle.pcap_in.specs.Reading.{place_after_record, fault_after_record};

use crate::fault::PcapFault;
use crate::head::{FileHead, HEAD_BYTES, Order, RECORD_BYTES, file_head, kept_length};
use crate::network::Network;
use std::alloc::Global;
use vc_ports::{Filled, Source, fill};

// The most bytes that a record may keep.
const MOST_KEPT: u32 = 262_144;

/// A source that is read record by record, as a pcap file. It keeps the source borrowed, and contracts see
/// what the source is now.
#[derive(Drop)]
pub struct PcapReader<'a, S> {
    alloc: Global,
    source: &'a mut S,
    // None until the head was read.
    pub(crate) head: Option<FileHead>,
    // How many bytes the head and the records have that were read whole.
    place: u64,
    // The fault that is answered from now on.
    fault: Option<PcapFault>,
}

impl<'a, S: Source> PcapReader<'a, S> {
    /// A reader that begins where the source stands. It reads nothing yet.
    pub fn new(alloc: Global, source: &'a mut S) -> PcapReader<'a, S>
        ensures borrows { result.source.ghost_name ≡ source.entry.ghost_name }
        ensures source { result.source.now ≡ source.old }
        ensures head { result.head ≡ None }
        ensures place { result.place ≡ 0 }
        ensures sound { result.fault ≡ None }
    {
        PcapReader {
            alloc,
            source,
            head: None,
            place: 0,
            fault: None,
        }
    }

    /// What the file's frames are, once a call of `next_record` has read its head.
    pub fn network(&self) -> Option<Network>
        ensures { result ≡ option_map (λ head. head.network) self.now.head }
    {
        match self.head {
            Some(head) => Some(head.network),
            None => None,
        }
    }
}

/// Reads the next record: the bytes that it keeps, at most 262,144, or None where the source ended at a
/// record's edge. The first call reads the 24 bytes before the records, too, and is refused with `Header` for
/// them before all else. A record is refused for the first of these: `Cut` where the source ended within the
/// 16 bytes before those that it keeps, `Length`, and `Cut` where it ended within those. No byte behind a
/// head that is refused, or behind a length that is, is taken. After a fault the same fault is answered
/// without reading.
pub fn next_record<S: Source>(r: &mut PcapReader<S>) -> Result<Option<Vec<u8>>, PcapFault>
    requires { r.old.place < 2 ^ 63 }
    ensures borrows { r.new.source.ghost_name ≡ r.old.source.ghost_name }
    ensures reads { IfNone r.old.fault (ReadsNext r.old.head r.new.head
        (S.left r.old.source.now) (S.left r.new.source.now) r.old.place result) }
    ensures cause { IfNone r.old.fault
        (HasCause (S.faults r.old.source.now) (S.faults r.new.source.now)
        (result ≡ Err PcapFault.ReadFault)) }
    ensures place { IfNone r.old.fault (r.new.place
        ≡ place_after_record (head_place r.old.head r.new.head r.old.place) result) }
    ensures again { IfSome r.old.fault
        (λ fault. (result ≡ Err fault) × (r.new.source.now ≡ r.old.source.now)
        × (r.new.head ≡ r.old.head) × (r.new.place ≡ r.old.place)) }
    ensures grows { r.new.place ≤ r.old.place + 262184 }
    ensures fault { r.new.fault ≡ fault_after_record r.old.fault result }
{
    if let Some(fault) = r.fault {
        return Err(fault);
    }
    let answer = read_next(r);
    match &answer {
        Ok(_) => {}
        Err(fault) => r.fault = Some(*fault),
    }
    answer
}

// Reads the head, where none was read before, and the record behind it, or else the next record.
fn read_next<S: Source>(r: &mut PcapReader<S>) -> Result<Option<Vec<u8>>, PcapFault>
    requires { r.old.place < 2 ^ 63 }
    ensures borrows { r.new.source.ghost_name ≡ r.old.source.ghost_name }
    ensures reads { ReadsNext r.old.head r.new.head
        (S.left r.old.source.now) (S.left r.new.source.now) r.old.place result }
    ensures cause { HasCause (S.faults r.old.source.now) (S.faults r.new.source.now)
        (result ≡ Err PcapFault.ReadFault) }
    ensures place { r.new.place
        ≡ place_after_record (head_place r.old.head r.new.head r.old.place) result }
    ensures grows { r.new.place ≤ r.old.place + 262184 }
    ensures fault { r.new.fault ≡ r.old.fault }
{
    match r.head {
        Some(head) => read_on(r, head.order),
        None => read_first(r),
    }
}

// Reads the head and the first record.
fn read_first<S: Source>(r: &mut PcapReader<S>) -> Result<Option<Vec<u8>>, PcapFault>
    requires place { r.old.place < 2 ^ 63 }
    requires begins { r.old.head ≡ None }
    ensures borrows { r.new.source.ghost_name ≡ r.old.source.ghost_name }
    ensures reads { ReadsNext None r.new.head
        (S.left r.old.source.now) (S.left r.new.source.now) r.old.place result }
    ensures cause { HasCause (S.faults r.old.source.now) (S.faults r.new.source.now)
        (result ≡ Err PcapFault.ReadFault) }
    ensures place { r.new.place ≡ place_after_record (head_place None r.new.head r.old.place) result }
    ensures grows { r.new.place ≤ r.old.place + 262184 }
    ensures fault { r.new.fault ≡ r.old.fault }
{
    let head = read_head(r.source)?;
    r.head = Some(head);
    r.place += HEAD_BYTES as u64;
    read_on(r, head.order)
}

// Reads the next record, whose numbers have this order.
fn read_on<S: Source>(r: &mut PcapReader<S>, order: Order) -> Result<Option<Vec<u8>>, PcapFault>
    requires { r.old.place < 2 ^ 63 + 24 }
    ensures borrows { r.new.source.ghost_name ≡ r.old.source.ghost_name }
    ensures reads { ReadsRecord order
        (S.left r.old.source.now) (S.left r.new.source.now) r.old.place result }
    ensures cause { HasCause (S.faults r.old.source.now) (S.faults r.new.source.now)
        (result ≡ Err PcapFault.ReadFault) }
    ensures place { r.new.place ≡ place_after_record r.old.place result }
    ensures grows { r.new.place ≤ r.old.place + 262160 }
    ensures head { r.new.head ≡ r.old.head }
    ensures fault { r.new.fault ≡ r.old.fault }
{
    let answer = read_record(r.alloc, r.source, order, r.place);
    match &answer {
        Ok(Some(kept)) => r.place += (RECORD_BYTES + kept.len()) as u64,
        Ok(None) => {}
        Err(_) => {}
    }
    answer
}

// Reads the 24 bytes before the records.
fn read_head<S: Source>(source: &mut S) -> Result<FileHead, PcapFault>
    ensures reads { ReadsHead (S.left source.old) (S.left source.new) result }
    ensures cause { HasCause (S.faults source.old) (S.faults source.new)
        (result ≡ Err PcapFault.ReadFault) }
{
    let mut head = [0; HEAD_BYTES];
    match fill(source, &mut head) {
        Filled::Whole => file_head(&head).ok_or(PcapFault::Header { place: 0 }),
        Filled::End(_) => Err(PcapFault::Header { place: 0 }),
        Filled::Failed(_) => Err(PcapFault::ReadFault),
    }
}

// Reads the record whose first byte is at a place.
fn read_record<S: Source>(
    alloc: Global,
    source: &mut S,
    order: Order,
    place: u64,
) -> Result<Option<Vec<u8>>, PcapFault>
    ensures reads { ReadsRecord order (S.left source.old) (S.left source.new) place result }
    ensures cause { HasCause (S.faults source.old) (S.faults source.new)
        (result ≡ Err PcapFault.ReadFault) }
    ensures grows { place_after_record place result ≤ place + 262160 }
{
    let mut head = [0; RECORD_BYTES];
    match fill(source, &mut head) {
        Filled::Whole => {}
        Filled::End(0) => return Ok(None),
        Filled::End(_) => return Err(PcapFault::Cut { place }),
        Filled::Failed(_) => return Err(PcapFault::ReadFault),
    }
    let count = kept_length(order, &head);
    if count > MOST_KEPT {
        return Err(PcapFault::Length { place });
    }
    let mut kept = Vec::new(alloc);
    match kept.resize(count as usize, 0) {
        Ok(()) => {}
        Err(_) => return Err(PcapFault::NoMemory),
    }
    match fill(source, &mut kept) {
        Filled::Whole => Ok(Some(kept)),
        Filled::End(_) => Err(PcapFault::Cut { place }),
        Filled::Failed(_) => Err(PcapFault::ReadFault),
    }
}
