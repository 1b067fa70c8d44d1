//! The head of a pcap file: 24 bytes, with the order of the file's numbers and its network.
ghost use Rattle.std.specs.Prelude.{◌≡◌, ◌≤◌, length};
ghost use Rattle.pcap_in.specs.Pcap.{is_magic, file_number, order_of, network_of, file_head, kept_length};

use crate::network::Network;
use byteorder::{BigEndian, ByteOrder, LittleEndian};

/// How many bytes stand before the records.
pub(crate) const HEAD_BYTES: usize = 24;

/// How many bytes each record has before those that it keeps.
pub(crate) const RECORD_BYTES: usize = 16;

// The magic numbers of files with microseconds and with nanoseconds.
const MICROSECONDS: u32 = 0xA1B2_C3D4;

const NANOSECONDS: u32 = 0xA1B2_3C4D;

const ETHERNET: u32 = 1;

const LINUX_COOKED: u32 = 113;

const LINUX_COOKED_2: u32 = 276;

/// The order in which a file has the bytes of its numbers.
#[derive(Clone, Copy)]
pub enum Order {
    Big,
    Little,
}

/// What the head of a file tells.
#[derive(Clone, Copy)]
pub struct FileHead {
    pub order: Order,
    pub network: Network,
}

// The number in the first four bytes.
fn file_number(order: Order, bytes: &[u8]) -> u32
    requires { 4 ≤ length bytes.now }
    ensures { result ≡ file_number order bytes.now }
{
    match order {
        Order::Big => BigEndian::read_u32(bytes),
        Order::Little => LittleEndian::read_u32(bytes),
    }
}

fn is_magic(number: u32) -> bool
    ensures { result ≡ is_magic number }
{
    number == MICROSECONDS || number == NANOSECONDS
}

// The order in which the first four bytes are a magic number.
#[tactic(auto, unfolding(crate::specs::Pcap::order_of))]
fn order_of(head: &[u8]) -> Option<Order>
    requires { 4 ≤ length head.now }
    ensures { result ≡ order_of head.now }
{
    if is_magic(BigEndian::read_u32(head)) {
        Some(Order::Big)
    } else if is_magic(LittleEndian::read_u32(head)) {
        Some(Order::Little)
    } else {
        None
    }
}

// The network of a number, of which the low 16 bits count.
#[tactic(auto, unfolding(crate::specs::Pcap::network_of))]
fn network_of(number: u32) -> Option<Network>
    ensures { result ≡ network_of number }
{
    match number % (1 << 16) {
        ETHERNET => Some(Network::Ethernet),
        LINUX_COOKED => Some(Network::LinuxCooked),
        LINUX_COOKED_2 => Some(Network::LinuxCooked2),
        _ => None,
    }
}

/// What the 24 bytes before the records tell, or None where they are no head.
#[tactic(auto, unfolding(crate::specs::Pcap::file_head))]
pub(crate) fn file_head(head: &[u8; HEAD_BYTES]) -> Option<FileHead>
    ensures { result ≡ file_head head.now }
{
    let order = order_of(head)?;
    let network = network_of(file_number(order, &head[20..]))?;
    Some(FileHead { order, network })
}

/// How many bytes a record keeps, by the 16 bytes before them.
pub(crate) fn kept_length(order: Order, head: &[u8; RECORD_BYTES]) -> u32
    ensures { result ≡ kept_length order head.now }
{
    file_number(order, &head[8..])
}
