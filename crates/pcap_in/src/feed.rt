ghost use Rattle.std.specs.Prelude.{◌≡◌, ◌≤◌, ◌<◌, ◌+◌, ◌^◌, ℕ, None, IfSome, OnOk};
ghost use Rattle.pcap_in.specs.Feeding.{Feeds, IsReady, StepDid, StandsIn, feed_value, part_of};

use crate::fault::PcapFault;
use crate::head::FileHead;
use crate::payload::carried;
use crate::reader::{PcapReader, next_record};
use vc_ports::Source;

/// What a record keeps, and where in it the payload stands that it carries.
#[derive(Drop)]
pub struct Payload {
    pub kept: Vec<u8>,
    pub from: usize,
    pub to: usize,
}

/// What a feed gave.
#[derive(Drop)]
pub enum Fed {
    Payload(Payload),
    /// The source ended at a record's edge.
    End,
    /// As many records were read as may be.
    Limit,
}

// What came of one record.
#[derive(Drop)]
enum Step {
    Payload(Payload),
    Other,
    End,
}

/// Which payloads are taken from the records of a pcap file: those to a port, where port 0 means any, from at
/// most so many records. Records that carry none are skipped, and both are counted.
#[derive(Drop)]
pub struct CarriedFeed {
    port: u16,
    packets: u32,
    records: u32,
    other: u32,
}

impl CarriedFeed {
    /// A feed before the first record.
    pub fn new(port: u16, packets: u32) -> CarriedFeed
        ensures port { result.port ≡ port }
        ensures packets { result.packets ≡ packets }
        ensures records { result.records ≡ 0 }
        ensures other { result.other ≡ 0 }
    {
        CarriedFeed {
            port,
            packets,
            records: 0,
            other: 0,
        }
    }

    /// How many records were read whole.
    pub fn records(&self) -> u32
        ensures { result ≡ self.now.records }
    {
        self.records
    }

    /// How many of these carried nothing to the port.
    pub fn other(&self) -> u32
        ensures { result ≡ self.now.other }
    {
        self.other
    }
}

/// Reads records up to the next that carries a payload to the feed's port, and answers that, `End` where the
/// source ended at a record's edge, or `Limit` where as many records were read as may be, without reading
/// more. It is refused as `next_record` is.
pub fn next_payload<S: Source>(f: &mut CarriedFeed, r: &mut PcapReader<S>) -> Result<Fed, PcapFault>
    requires { IsReady 1 r.old f.old }
    ensures borrows { r.new.source.ghost_name ≡ r.old.source.ghost_name }
    ensures feeds { Feeds (feed_value S.left S.faults r.old f.old)
        (feed_value S.left S.faults r.new f.new) result }
    ensures ready { (more : ℕ) → IsReady (more + 1) r.old f.old
        → OnOk result (IsReady more r.new f.new) }
{
    'records: while f.records < f.packets {
        match next_step(f, r)? {
            Step::Payload(payload) => return Ok(Fed::Payload(payload)),
            Step::Other => {}
            Step::End => return Ok(Fed::End),
        }
    }
    Ok(Fed::Limit)
}

// Reads a record, and counts it.
fn next_step<S: Source>(f: &mut CarriedFeed, r: &mut PcapReader<S>) -> Result<Step, PcapFault>
    requires sound { r.old.fault ≡ None }
    requires place { r.old.place < 2 ^ 63 }
    requires counts { f.old.other ≤ f.old.records }
    requires more { f.old.records < f.old.packets }
    ensures borrows { r.new.source.ghost_name ≡ r.old.source.ghost_name }
    ensures did { StepDid (feed_value S.left S.faults r.old f.old)
        (feed_value S.left S.faults r.new f.new) result }
    ensures sound { OnOk result (r.new.fault ≡ None) }
    ensures counts { OnOk result (f.new.other ≤ f.new.records) }
    ensures records { OnOk result
        ((f.old.records ≤ f.new.records) × (f.new.records ≤ f.old.records + 1)) }
    ensures packets { f.new.packets ≡ f.old.packets }
    ensures grows { r.new.place ≤ r.old.place + 262184 }
{
    let Some(kept) = next_record(r)? else {
        return Ok(Step::End);
    };
    f.records += 1;
    match part_of(r.head, &kept, f.port) {
        Some((from, to)) => Ok(Step::Payload(Payload { kept, from, to })),
        None => {
            f.other += 1;
            Ok(Step::Other)
        }
    }
}

// Where a record's payload stands, by the head of its file.
fn part_of(head: Option<FileHead>, kept: &[u8], port: u16) -> Option<(usize, usize)>
    ensures value { result ≡ part_of head port kept.now }
    ensures within { IfSome result (λ part. StandsIn kept.now part.0 part.1) }
{
    carried(head?.network, kept, port)
}
