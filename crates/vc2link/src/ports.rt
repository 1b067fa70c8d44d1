//! Which ports the first datagrams in a pcap file go to.

use pcap_in::{Network, PcapReader, carried, next_record};
use std::alloc::Global;
use vc_ports::PlainSource;

// So many ports are found at most, in so many records.
const MOST: usize = 8;

const RECORDS: usize = 10_000;

/// Some ports, each once, in the order in which they came.
#[derive(Drop)]
pub(crate) struct Ports {
    found: [u16; MOST],
    count: usize,
}

impl Ports {
    /// Those of the datagrams in a file, of which the first bytes are given.
    pub(crate) fn of_file(alloc: Global, bytes: Vec<u8>) -> Ports {
        let mut ports = Ports {
            found: [0; MOST],
            count: 0,
        };
        let mut source = PlainSource::new(bytes);
        let mut reader = PcapReader::new(alloc, &mut source);
        'records: for record in 0..RECORDS {
            let Ok(Some(kept)) = next_record(&mut reader) else {
                break;
            };
            if let Some(port) = port_in(reader.network(), &kept) {
                ports.note(port);
            }
        }
        ports
    }

    pub(crate) fn found(&self) -> &[u16] {
        self.found.get(..self.count).unwrap_or(&[])
    }

    fn note(&mut self, port: u16) {
        if self.count < MOST && !self.found().contains(&port) {
            self.found[self.count] = port;
            self.count += 1;
        }
    }
}

// The port to which the datagram in a record goes. It stands six bytes before what the datagram carries.
fn port_in(network: Option<Network>, kept: &[u8]) -> Option<u16> {
    let (payload, _) = carried(network?, kept, 0)?;
    let place = payload.checked_sub(6)?;
    let high = kept.get(place)?;
    let low = kept.get(place.saturating_add(1))?;
    Some(u16::from_be_bytes([*high, *low]))
}
