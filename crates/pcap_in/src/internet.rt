//! The Internet's packets: the part of the bytes that a packet of IPv4 or IPv6 carries, and the payload of
//! the UDP datagram that stands there.
ghost use Rattle.std.specs.Prelude.{◌≡◌, ◌≤◌, ◌+◌, length, IfSome, IsTrue};
ghost use Rattle.pcap_in.specs.Frames.{ip_version, ipv4_header, ipv4_total, is_fragment, ipv4_fits};
ghost use Rattle.pcap_in.specs.Frames.{is_ipv4_udp, ipv4_payload, ipv6_length, is_ipv6_udp, ipv6_payload};
ghost use Rattle.pcap_in.specs.Frames.{ip_payload, udp_port, udp_length, is_to_port, is_udp_for, udp_payload};

use byteorder::{BigEndian, ByteOrder};

// The types of both packets (RFC 894, RFC 2464), and the number of UDP in both.
const IPV4: u16 = 0x0800;

const IPV6: u16 = 0x86DD;

const UDP: u8 = 17;

// The bytes of a header of IPv4 without options, of one of IPv6, and of one of UDP.
const IPV4_BYTES: usize = 20;

const IPV6_BYTES: usize = 40;

const UDP_BYTES: usize = 8;

fn ip_version(packet: &[u8]) -> u8
    requires { 1 ≤ length packet.now }
    ensures { result ≡ ip_version packet.now }
{
    packet[0] >> 4
}

fn ipv4_header(packet: &[u8]) -> usize
    requires { 1 ≤ length packet.now }
    ensures value { result ≡ ipv4_header packet.now }
    ensures small { result ≤ 60 }
{
    4 * usize::from(packet[0] & 0x0F)
}

fn ipv4_total(packet: &[u8]) -> usize
    requires { 20 ≤ length packet.now }
    ensures value { result ≡ ipv4_total packet.now }
    ensures small { result ≤ 65535 }
{
    usize::from(BigEndian::read_u16(&packet[2..]))
}

fn is_fragment(packet: &[u8]) -> bool
    requires { 20 ≤ length packet.now }
    ensures { result ≡ is_fragment packet.now }
{
    BigEndian::read_u16(&packet[6..]) % (1 << 14) != 0
}

fn ipv4_fits(packet: &[u8]) -> bool
    requires { 20 ≤ length packet.now }
    ensures value { result ≡ ipv4_fits packet.now }
    ensures fits { IsTrue result → (ipv4_header packet.now ≤ ipv4_total packet.now)
        × (ipv4_total packet.now ≤ length packet.now) }
{
    let header = ipv4_header(packet);
    let total = ipv4_total(packet);
    IPV4_BYTES <= header && header <= total && total <= packet.len()
}

#[tactic(auto, unfolding(crate::specs::Frames::is_ipv4_udp))]
fn is_ipv4_udp(packet: &[u8]) -> bool
    ensures value { result ≡ is_ipv4_udp packet.now }
    ensures fits { IsTrue result → (20 ≤ length packet.now)
        × (ipv4_header packet.now ≤ ipv4_total packet.now)
        × (ipv4_total packet.now ≤ length packet.now) }
{
    if packet.len() < IPV4_BYTES {
        return false;
    }
    ip_version(packet) == 4 && ipv4_fits(packet) && packet[9] == UDP && !is_fragment(packet)
}

// What a packet of IPv4 carries, where that is a whole UDP datagram.
#[tactic(auto, unfolding(crate::specs::Frames::ipv4_payload))]
fn ipv4_payload(kept: &[u8], place: usize) -> Option<(usize, usize)>
    requires { place ≤ length kept.now }
    ensures value { result ≡ ipv4_payload kept.now place }
    ensures within { IfSome result
        (λ part. (part.0 ≤ part.1) × (part.1 ≤ length kept.now) × (part.1 ≤ part.0 + 65535)) }
{
    let packet = &kept[place..];
    if is_ipv4_udp(packet) {
        Some((place + ipv4_header(packet), place + ipv4_total(packet)))
    } else {
        None
    }
}

fn ipv6_length(packet: &[u8]) -> usize
    requires { 40 ≤ length packet.now }
    ensures value { result ≡ ipv6_length packet.now }
    ensures small { result ≤ 65535 }
{
    usize::from(BigEndian::read_u16(&packet[4..]))
}

#[tactic(auto, unfolding(crate::specs::Frames::is_ipv6_udp))]
fn is_ipv6_udp(packet: &[u8]) -> bool
    ensures value { result ≡ is_ipv6_udp packet.now }
    ensures fits { IsTrue result
        → (40 ≤ length packet.now) × (40 + ipv6_length packet.now ≤ length packet.now) }
{
    if packet.len() < IPV6_BYTES {
        return false;
    }
    ip_version(packet) == 6 && IPV6_BYTES + ipv6_length(packet) <= packet.len() && packet[6] == UDP
}

// What a packet of IPv6 carries, where that is a whole UDP datagram.
#[tactic(auto, unfolding(crate::specs::Frames::ipv6_payload))]
fn ipv6_payload(kept: &[u8], place: usize) -> Option<(usize, usize)>
    requires { place ≤ length kept.now }
    ensures value { result ≡ ipv6_payload kept.now place }
    ensures within { IfSome result
        (λ part. (part.0 ≤ part.1) × (part.1 ≤ length kept.now) × (part.1 ≤ part.0 + 65535)) }
{
    let packet = &kept[place..];
    if is_ipv6_udp(packet) {
        Some((place + IPV6_BYTES, place + IPV6_BYTES + ipv6_length(packet)))
    } else {
        None
    }
}

/// What a packet of this type at a place carries, where that is a whole UDP datagram.
#[tactic(auto, unfolding(crate::specs::Frames::ip_payload))]
pub(crate) fn ip_payload(kept: &[u8], protocol: u16, place: usize) -> Option<(usize, usize)>
    requires { place ≤ length kept.now }
    ensures value { result ≡ ip_payload kept.now protocol place }
    ensures within { IfSome result
        (λ part. (part.0 ≤ part.1) × (part.1 ≤ length kept.now) × (part.1 ≤ part.0 + 65535)) }
{
    match protocol {
        IPV4 => ipv4_payload(kept, place),
        IPV6 => ipv6_payload(kept, place),
        _ => None,
    }
}

fn udp_port(datagram: &[u8]) -> u16
    requires { 8 ≤ length datagram.now }
    ensures { result ≡ udp_port datagram.now }
{
    BigEndian::read_u16(&datagram[2..])
}

fn udp_length(datagram: &[u8]) -> usize
    requires { 8 ≤ length datagram.now }
    ensures value { result ≡ udp_length datagram.now }
    ensures small { result ≤ 65535 }
{
    usize::from(BigEndian::read_u16(&datagram[4..]))
}

fn is_to_port(port: u16, to: u16) -> bool
    ensures { result ≡ is_to_port port to }
{
    port == 0 || to == port
}

#[tactic(auto, unfolding(crate::specs::Frames::is_udp_for))]
fn is_udp_for(port: u16, datagram: &[u8]) -> bool
    ensures value { result ≡ is_udp_for port datagram.now }
    ensures fits { IsTrue result → (8 ≤ length datagram.now)
        × (8 ≤ udp_length datagram.now) × (udp_length datagram.now ≤ length datagram.now) }
{
    if datagram.len() < UDP_BYTES {
        return false;
    }
    let length = udp_length(datagram);
    UDP_BYTES <= length && length <= datagram.len() && is_to_port(port, udp_port(datagram))
}

/// The payload of the UDP datagram in a part of the bytes.
#[tactic(auto, unfolding(crate::specs::Frames::udp_payload))]
pub(crate) fn udp_payload(kept: &[u8], port: u16, part: (usize, usize)) -> Option<(usize, usize)>
    requires ordered { part.0 ≤ part.1 }
    requires within { part.1 ≤ length kept.now }
    ensures value { result ≡ udp_payload kept.now port part }
    ensures within { IfSome result (λ payload. (payload.0 ≤ payload.1)
        × (payload.1 ≤ part.1) × (part.0 + 8 ≤ payload.0)) }
{
    let datagram = &kept[part.0..part.1];
    if is_udp_for(port, datagram) {
        Some((part.0 + UDP_BYTES, part.0 + udp_length(datagram)))
    } else {
        None
    }
}
