//! Captures of other programs: classic pcap files, read record by record, and the UDP payloads that their
//! records carry.
#![tactic(auto)]

mod fault;
mod feed;
mod head;
mod internet;
mod laws;
mod links;
mod network;
mod payload;
mod reader;

pub use fault::PcapFault;
pub use feed::{CarriedFeed, Fed, Payload, next_payload};
pub use laws::written_record_is_read;
pub use network::Network;
pub use payload::carried;
pub use reader::{PcapReader, next_record};
