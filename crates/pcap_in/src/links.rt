//! Networks: which packet a frame has, by its number among the types of Ethernet, and where.
ghost use Rattle.std.specs.Prelude.{◌≡◌, ◌≤◌, ◌+◌, length, IfSome};
ghost use Rattle.pcap_in.specs.Frames.{word_at, is_tag, behind_tag, ethernet_packet};
ghost use Rattle.pcap_in.specs.Frames.{cooked_packet, cooked_2_packet, packet_of};

use crate::network::Network;
use byteorder::{BigEndian, ByteOrder};

// The bytes of the two addresses before the type of an Ethernet frame.
const ADDRESS_BYTES: usize = 12;

// Tags of a network and of a provider's network.
const TAG: u16 = 0x8100;

const PROVIDER_TAG: u16 = 0x88A8;

const TAG_BYTES: usize = 4;

// The bytes before the packet in both versions of Linux cooked capture.
const COOKED_BYTES: usize = 16;

const COOKED_2_BYTES: usize = 20;

#[tactic(auto, unfolding(crate::specs::Frames::word_at))]
fn word_at(bytes: &[u8], place: usize) -> Option<u16>
    requires { place ≤ 64 }
    ensures value { result ≡ word_at bytes.now place }
    ensures within { IfSome result (λ word. place + 2 ≤ length bytes.now) }
{
    if bytes.len() < place + 2 {
        return None;
    }
    Some(BigEndian::read_u16(&bytes[place..]))
}

fn is_tag(word: Option<u16>) -> bool
    ensures { result ≡ is_tag word }
{
    match word {
        Some(word) => word == TAG || word == PROVIDER_TAG,
        None => false,
    }
}

// The place behind a tag, where one stands at a place.
#[tactic(auto, unfolding(crate::specs::Frames::behind_tag))]
fn behind_tag(frame: &[u8], place: usize) -> usize
    requires { place ≤ 32 }
    ensures value { result ≡ behind_tag frame.now place }
    ensures within { result ≤ place + 4 }
{
    if is_tag(word_at(frame, place)) {
        place + TAG_BYTES
    } else {
        place
    }
}

#[tactic(auto, unfolding(crate::specs::Frames::ethernet_packet))]
fn ethernet_packet(frame: &[u8]) -> Option<(u16, usize)>
    ensures value { result ≡ ethernet_packet frame.now }
    ensures within { IfSome result (λ packet. packet.1 ≤ length frame.now) }
{
    let place = behind_tag(frame, behind_tag(frame, ADDRESS_BYTES));
    let protocol = word_at(frame, place)?;
    Some((protocol, place + 2))
}

#[tactic(auto, unfolding(crate::specs::Frames::cooked_packet))]
fn cooked_packet(frame: &[u8]) -> Option<(u16, usize)>
    ensures value { result ≡ cooked_packet frame.now }
    ensures within { IfSome result (λ packet. packet.1 ≤ length frame.now) }
{
    let protocol = word_at(frame, COOKED_BYTES - 2)?;
    Some((protocol, COOKED_BYTES))
}

#[tactic(auto, unfolding(crate::specs::Frames::cooked_2_packet))]
fn cooked_2_packet(frame: &[u8]) -> Option<(u16, usize)>
    ensures value { result ≡ cooked_2_packet frame.now }
    ensures within { IfSome result (λ packet. packet.1 ≤ length frame.now) }
{
    if frame.len() < COOKED_2_BYTES {
        return None;
    }
    let protocol = word_at(frame, 0)?;
    Some((protocol, COOKED_2_BYTES))
}

/// The type of the packet that a frame has, and where the packet begins.
pub(crate) fn packet_of(network: Network, frame: &[u8]) -> Option<(u16, usize)>
    ensures value { result ≡ packet_of network frame.now }
    ensures within { IfSome result (λ packet. packet.1 ≤ length frame.now) }
{
    match network {
        Network::Ethernet => ethernet_packet(frame),
        Network::LinuxCooked => cooked_packet(frame),
        Network::LinuxCooked2 => cooked_2_packet(frame),
    }
}
