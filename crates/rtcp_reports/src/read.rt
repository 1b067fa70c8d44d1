ghost use Rattle.std.specs.Prelude.{◌≡◌, ◌≢◌, ◌↔◌, ◌⊎◌, ◌<◌, ◌≤◌, length, Some, None, Ok, Err};
ghost use Rattle.std.specs.Prelude.{IfOk, IfErr, OnOk, IsFalse};
ghost use Rattle.link_model.specs.Packets.{version, has_padding};
ghost use Rattle.rtcp_reports.specs.Rtcp.{item_count, packet_size, whole_packet, refusal_in};
ghost use Rattle.rtcp_reports.specs.Rtcp.{is_sender_report, is_report, fixed_size, report_room};
ghost use Rattle.rtcp_reports.specs.Rtcp.{report_size, sender_info, reported_sender, report_view};
ghost use Rattle.rtcp_reports.specs.Rtcp.{compound, IsRefusedLater, block_in, block_of_report};

use crate::block::{Block, CompoundView, SenderInfo};
use crate::packet_types::{RECEIVER_REPORT, SENDER_REPORT};
use crate::refusal::RtcpRefusal;
use byteorder::{BigEndian, ByteOrder};
use rtp_head::{has_padding, version};

// The bytes of a packet's first word, of a report's first two, and of a block.
const HEAD_BYTES: usize = 4;

const SHORTEST: usize = 8;

const BLOCK_BYTES: usize = 24;

fn item_count(bytes: &[u8]) -> u8
    requires { 1 ≤ length bytes.now }
    ensures value { result ≡ item_count bytes.now }
    ensures small { result < 32 }
{
    bytes[0] & 0x1F
}

fn packet_size(bytes: &[u8]) -> usize
    requires { 4 ≤ length bytes.now }
    ensures { result ≡ packet_size bytes.now }
{
    4 * (usize::from(BigEndian::read_u16(&bytes[2..])) + 1)
}

// How many bytes a packet takes that is whole and of version 2.
#[tactic(auto, unfolding(crate::specs::Rtcp::whole_packet))]
fn whole_packet(bytes: &[u8]) -> Result<usize, RtcpRefusal>
    ensures value { result ≡ whole_packet bytes.now }
    ensures within { IfOk result (λ size. (4 ≤ size) × (size ≤ length bytes.now)) }
{
    if bytes.len() < HEAD_BYTES {
        return Err(RtcpRefusal::Length);
    }
    if version(bytes) != 2 {
        return Err(RtcpRefusal::Version);
    }
    let size = packet_size(bytes);
    if bytes.len() < size {
        return Err(RtcpRefusal::Length);
    }
    Ok(size)
}

// Reads packets one after another up to the end.
fn read_packets(bytes: &[u8]) -> Result<(), RtcpRefusal>
    ensures ok { OnOk result (refusal_in bytes.now ≡ None) }
    ensures err { IfErr result (λ refusal. refusal_in bytes.now ≡ Some refusal) }
{
    let mut rest = bytes;
    'packets: while !rest.is_empty() {
        let size = whole_packet(rest)?;
        let (_, behind) = rest.split_at(size);
        rest = behind;
    }
    Ok(())
}

fn is_sender_report(bytes: &[u8]) -> bool
    requires { 2 ≤ length bytes.now }
    ensures { result ≡ is_sender_report bytes.now }
{
    bytes[1] == SENDER_REPORT
}

fn is_report(bytes: &[u8]) -> bool
    requires { 2 ≤ length bytes.now }
    ensures { result ≡ is_report bytes.now }
{
    match bytes[1] {
        SENDER_REPORT | RECEIVER_REPORT => !has_padding(bytes),
        _ => false,
    }
}

// What comes before the blocks: the first word, who reports, and what a sender says of itself.
fn fixed_size(is_sender: bool) -> usize
    ensures { result ≡ fixed_size is_sender }
{
    if is_sender { 28 } else { 8 }
}

fn report_room(bytes: &[u8]) -> usize
    requires { 2 ≤ length bytes.now }
    ensures { result ≡ report_room bytes.now }
{
    fixed_size(is_sender_report(bytes)) + BLOCK_BYTES * usize::from(item_count(bytes))
}

// How many bytes the report takes that a compound packet begins with.
#[tactic(auto, unfolding(crate::specs::Rtcp::report_size))]
fn report_size(bytes: &[u8]) -> Result<usize, RtcpRefusal>
    ensures value { result ≡ report_size bytes.now }
    ensures room { IfOk result (λ size. (8 ≤ length bytes.now)
        × (report_room bytes.now ≤ size) × (size ≤ length bytes.now)) }
{
    if bytes.len() < SHORTEST {
        return Err(RtcpRefusal::Short);
    }
    if version(bytes) != 2 {
        return Err(RtcpRefusal::Version);
    }
    if !is_report(bytes) {
        return Err(RtcpRefusal::First);
    }
    let size = packet_size(bytes);
    if bytes.len() < size {
        return Err(RtcpRefusal::Length);
    }
    if size < report_room(bytes) {
        return Err(RtcpRefusal::Length);
    }
    Ok(size)
}

fn sender_info(bytes: &[u8]) -> SenderInfo
    requires { 28 ≤ length bytes.now }
    ensures { result ≡ sender_info bytes.now }
{
    SenderInfo {
        ssrc: BigEndian::read_u32(&bytes[4..]),
        ntp: BigEndian::read_u32(&bytes[8..]),
        timestamp: BigEndian::read_u32(&bytes[16..]),
        packets: BigEndian::read_u32(&bytes[20..]),
        octets: BigEndian::read_u32(&bytes[24..]),
    }
}

fn reported_sender(bytes: &[u8]) -> Option<SenderInfo>
    requires long { 8 ≤ length bytes.now }
    requires room { report_room bytes.now ≤ length bytes.now }
    ensures { result ≡ reported_sender bytes.now }
{
    if is_sender_report(bytes) {
        Some(sender_info(bytes))
    } else {
        None
    }
}

#[tactic(auto, unfolding(crate::specs::Rtcp::report_view))]
fn report_view(bytes: &[u8]) -> CompoundView
    requires long { 8 ≤ length bytes.now }
    requires room { report_room bytes.now ≤ length bytes.now }
    ensures { result ≡ report_view bytes.now }
{
    CompoundView {
        sender: reported_sender(bytes),
        ssrc: BigEndian::read_u32(&bytes[4..]),
        blocks: item_count(bytes),
    }
}

fn compound(bytes: &[u8]) -> Result<CompoundView, RtcpRefusal>
    ensures { result ≡ compound bytes.now }
{
    let size = report_size(bytes)?;
    let (_, behind) = bytes.split_at(size);
    read_packets(behind)?;
    Ok(report_view(bytes))
}

/// Reads a compound packet (RFC 3550, 6.1): a receiver report or a sender report (6.4), and any packets after
/// it, of which only the version and the length are looked at. It is refused for the first of these: `Short`,
/// then packet after packet `Length` where fewer than 4 bytes are left, `Version`, `First` in the first
/// packet alone, and `Length` where the packet passes the end or is too short for its blocks.
pub fn read_compound(bytes: &[u8]) -> Result<CompoundView, RtcpRefusal>
    ensures value { result ≡ compound bytes.now }

    ensures short_exactly { (result ≡ Err RtcpRefusal.Short) ↔ (length bytes.now < 8) }
    ensures version_exactly { (result ≡ Err RtcpRefusal.Version)
        ↔ (((8 ≤ length bytes.now) × (version bytes.now ≢ 2))
        ⊎ IsRefusedLater bytes.now RtcpRefusal.Version) }
    ensures first_exactly { (result ≡ Err RtcpRefusal.First)
        ↔ ((8 ≤ length bytes.now) × (version bytes.now ≡ 2) × IsFalse (is_report bytes.now)) }
    ensures length_exactly { (result ≡ Err RtcpRefusal.Length)
        ↔ ((report_size bytes.now ≡ Err RtcpRefusal.Length)
        ⊎ IsRefusedLater bytes.now RtcpRefusal.Length) }
{
    compound(bytes)
}

/// Block i of a compound packet's report (RFC 3550, 6.4.1), counted from 0.
pub fn block_at(bytes: &[u8], v: &CompoundView, i: u8) -> Block
    requires view { compound bytes.now ≡ Ok v.now }
    requires block { i < v.now.blocks }
    ensures { result ≡ block_of_report bytes.now v.now i }
{
    let from = fixed_size(v.sender.is_some()) + BLOCK_BYTES * usize::from(i);
    let (_, block) = bytes.split_at(from);
    read_block(block)
}

#[tactic(auto, unfolding(crate::specs::Rtcp::block_in))]
fn read_block(bytes: &[u8]) -> Block
    requires { 24 ≤ length bytes.now }
    ensures { result ≡ block_in bytes.now }
{
    Block {
        ssrc: BigEndian::read_u32(bytes),
        fraction: bytes[4],
        lost: BigEndian::read_i24(&bytes[5..]),
        highest: BigEndian::read_u32(&bytes[8..]),
    }
}
