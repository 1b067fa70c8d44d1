ghost use Rattle.std.specs.Prelude.{◌≡◌, ◌≤◌, ◌+◌, length, IfSome};
ghost use Rattle.pcap_in.specs.Frames.{carried};

use crate::internet::{ip_payload, udp_payload};
use crate::links::packet_of;
use crate::network::Network;

/// Where the payload of the UDP datagram begins and ends that a record of this network carries, for packets
/// of IPv4 (RFC 791) and IPv6 (RFC 8200) that are whole, and datagrams (RFC 768) to a port; port 0 stands for
/// all of them. An Ethernet frame may have two tags, and IPv4 options. A fragment carries nothing, and
/// neither does a packet of IPv6 with extension headers. Checksums aren't looked at, nor what stands behind
/// a packet.
#[tactic(auto, unfolding(crate::specs::Frames::carried))]
pub fn carried(network: Network, kept: &[u8], port: u16) -> Option<(usize, usize)>
    ensures value { result ≡ carried network kept.now port }
    ensures within { IfSome result (λ payload. (payload.0 ≤ payload.1)
        × (payload.1 ≤ length kept.now) × (payload.1 ≤ payload.0 + 65527)) }
{
    let (protocol, place) = packet_of(network, kept)?;
    let part = ip_payload(kept, protocol, place)?;
    udp_payload(kept, port, part)
}
