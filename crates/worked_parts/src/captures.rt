//! Rows of pcap files, and of the payloads that their records carry.
ghost use Rattle.std.specs.Prelude.{◌≤◌, ◌<◌, ◌+◌, ◌^◌, ℕ, IfOk, IsTrue};
ghost use Rattle.pcap_in.specs.Feeding.{IsReady};

use crate::ports::{add_left, failing_source, fails};
use crate::said::Said;
use crate::words::{bytes_of, natural, parted};
use pcap_in::{
    CarriedFeed, Fed, Network, Payload, PcapFault, PcapReader, carried, next_payload, next_record,
};
use std::alloc::Global;
use vc_ports::{MemSource, PlainSource, Source};
use worked_common::{Bad, NamedBytes};

fn network(word: &str) -> Result<Network, Bad> {
    match word {
        "ethernet" => Ok(Network::Ethernet),
        "cooked" => Ok(Network::LinuxCooked),
        "cooked-2" => Ok(Network::LinuxCooked2),
        _ => Err(Bad::NoRow),
    }
}

fn port(word: &str) -> Result<u16, Bad> {
    match u16::try_from(natural(word)?) {
        Ok(port) => Ok(port),
        Err(_) => Err(Bad::NoRow),
    }
}

fn add_part(part: Option<(usize, usize)>, said: &mut Said) {
    match part {
        Some((from, to)) => said.words(&[from, to]),
        None => said.word("none"),
    }
}

// A network and a port.
fn network_and_port(text: &str) -> Result<(Network, u16), Bad> {
    match text.trim().split_once(' ') {
        Some((first, second)) => Ok((network(first)?, port(second)?)),
        None => Err(Bad::NoRow),
    }
}

// A record, and which payload is wanted of it.
#[derive(Drop)]
struct Wanted {
    network: Network,
    port: u16,
    bytes: Vec<u8>,
}

fn wanted_of(alloc: Global, parts: &[NamedBytes], given: &str) -> Result<Wanted, Bad> {
    let (front, bytes) = parted(given);
    let (network, port) = network_and_port(front)?;
    Ok(Wanted {
        network,
        port,
        bytes: bytes_of(alloc, parts, bytes)?,
    })
}

/// Where the payload begins and ends that a record carries.
pub(crate) fn carried_by(parts: &[NamedBytes], given: &str, said: &mut Said) -> Result<(), Bad> {
    let of = wanted_of(said.alloc(), parts, given)?;
    add_part(carried(of.network, of.bytes.as_slice(), of.port), said);
    Ok(())
}

fn add_cuts(of: &Wanted, said: &mut Said) {
    let bytes = of.bytes.as_slice();
    for length in 0..=bytes.len() {
        let kept = bytes.get(..length).unwrap_or(bytes);
        add_part(carried(of.network, kept, of.port), said);
    }
}

/// The same of the first 0, 1, 2, .. and all of the bytes.
pub(crate) fn carried_cuts(parts: &[NamedBytes], given: &str, said: &mut Said) -> Result<(), Bad> {
    add_cuts(&wanted_of(said.alloc(), parts, given)?, said);
    Ok(())
}

fn add_fault(fault: PcapFault, said: &mut Said) {
    match fault {
        PcapFault::Header { place } => write!(said, "header@{place} "),
        PcapFault::Cut { place } => write!(said, "cut@{place} "),
        PcapFault::Length { place } => write!(said, "length@{place} "),
        PcapFault::ReadFault => said.word("read"),
        PcapFault::NoMemory => said.word("memory"),
    }
}

fn add_kept(kept: &[u8], said: &mut Said) {
    said.word("kept");
    said.bytes(kept);
}

fn add_record<S: Source>(reader: &mut PcapReader<S>, said: &mut Said)
    requires { reader.old.place < 2 ^ 62 }
    ensures { reader.new.place ≤ reader.old.place + 262184 }
{
    match next_record(reader) {
        Ok(Some(kept)) => add_kept(kept.as_slice(), said),
        Ok(None) => said.word("end"),
        Err(fault) => add_fault(fault, said),
    }
}

fn add_records<S: Source>(source: &mut S, said: &mut Said) {
    let mut reader = PcapReader::new(said.alloc(), source);
    add_record(&mut reader, said);
    add_record(&mut reader, said);
    add_record(&mut reader, said);
    add_record(&mut reader, said);
    add_record(&mut reader, said);
}

/// What five reads of a record answer, where the reads of these numbers fail.
pub(crate) fn records(parts: &[NamedBytes], given: &str, said: &mut Said) -> Result<(), Bad> {
    let mut source = failing_source(said.alloc(), parts, given)?;
    add_records(&mut source, said);
    Ok(())
}

/// The same, and how many bytes are left.
pub(crate) fn records_left(parts: &[NamedBytes], given: &str, said: &mut Said) -> Result<(), Bad> {
    let mut source = failing_source(said.alloc(), parts, given)?;
    add_records(&mut source, said);
    add_left(&mut source, said);
    Ok(())
}

fn add_first(bytes: &[u8], said: &mut Said) -> Result<(), Bad> {
    let mut source = PlainSource::new(Vec::from_slice(said.alloc(), bytes)?);
    let mut reader = PcapReader::new(said.alloc(), &mut source);
    add_record(&mut reader, said);
    Ok(())
}

/// What the first read answers of the first 0, 1, 2, .. and all of the bytes.
pub(crate) fn record_cuts(parts: &[NamedBytes], given: &str, said: &mut Said) -> Result<(), Bad> {
    let (_, bytes) = parted(given);
    let bytes = bytes_of(said.alloc(), parts, bytes)?;
    for length in 0..=bytes.len() {
        add_first(bytes.get(..length).unwrap_or(bytes.as_slice()), said)?;
    }
    Ok(())
}

fn add_payload(payload: &Payload, said: &mut Said) -> Result<(), Bad> {
    let Some(bytes) = payload.kept.get(payload.from..payload.to) else {
        return Err(Bad::NoRow);
    };
    said.word("payload");
    said.bytes(bytes);
    Ok(())
}

fn add_answer(fed: &Fed, said: &mut Said) -> Result<(), Bad> {
    match fed {
        Fed::Payload(payload) => return add_payload(payload, said),
        Fed::End => said.word("end"),
        Fed::Limit => said.word("limit"),
    }
    Ok(())
}

// Whether there was no fault.
fn add_fed<S: Source>(
    feed: &mut CarriedFeed,
    reader: &mut PcapReader<S>,
    said: &mut Said,
) -> Result<bool, Bad>
    requires { IsReady 1 reader.old feed.old }
    ensures { (more : ℕ) → IsReady (more + 1) reader.old feed.old
        → IfOk result (λ goes_on. IsTrue goes_on → IsReady more reader.new feed.new) }
{
    match next_payload(feed, reader) {
        Ok(fed) => {
            add_answer(&fed, said)?;
            Ok(true)
        }
        Err(fault) => {
            add_fault(fault, said);
            Ok(false)
        }
    }
}

fn add_counts(feed: &CarriedFeed, said: &mut Said) {
    said.word("records");
    said.word(feed.records());
    said.word("other");
    said.word(feed.other());
}

// How often a feed is asked.
const TURNS: u32 = 5;

// Asks a feed so often, or until a fault.
fn add_all_fed<S: Source>(
    feed: &mut CarriedFeed,
    reader: &mut PcapReader<S>,
    said: &mut Said,
) -> Result<(), Bad>
    requires { IsReady 5 reader.old feed.old }
{
    for _turn in 0..TURNS {
        if !add_fed(feed, reader, said)? {
            return Ok(());
        }
    }
    Ok(())
}

// What a feed is asked: a port, a number of records, and a source with the numbers of the reads that fail.
#[derive(Drop)]
struct Asked {
    port: u16,
    packets: u32,
    source: MemSource,
}

// A port, a number of records, and the numbers of the reads that fail.
fn front_of(text: &str) -> Result<(u16, u32, &str), Bad> {
    let Some((first, rest)) = text.trim().split_once(' ') else {
        return Err(Bad::NoRow);
    };
    let (second, numbers) = rest.split_once(' ').unwrap_or((rest, ""));
    Ok((port(first)?, natural(second)?, numbers))
}

fn asked_of(alloc: Global, parts: &[NamedBytes], given: &str) -> Result<Asked, Bad> {
    let (front, bytes) = parted(given);
    let (port, packets, numbers) = front_of(front)?;
    let bytes = bytes_of(alloc, parts, bytes)?;
    Ok(Asked {
        port,
        packets,
        source: MemSource::new(bytes, fails(alloc, numbers)?),
    })
}

/// What a feed answers, and its counts.
pub(crate) fn fed(parts: &[NamedBytes], given: &str, said: &mut Said) -> Result<(), Bad> {
    let mut of = asked_of(said.alloc(), parts, given)?;
    let mut reader = PcapReader::new(said.alloc(), &mut of.source);
    let mut feed = CarriedFeed::new(of.port, of.packets);
    add_all_fed(&mut feed, &mut reader, said)?;
    add_counts(&feed, said);
    Ok(())
}
