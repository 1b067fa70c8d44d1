ghost use Rattle.std.specs.Prelude.{◌≡◌, ◌+◌, ◌≤◌, ◌<◌, ◌↔◌, ◌≢◌, length, IfOk, IfSome};
ghost use Rattle.std.specs.Prelude.{IsNone, IsSome, IsTrue, IsFalse, MatchOption};
ghost use Rattle.vc_types.specs.Fields.{IsReadAs};
ghost use Rattle.link_model.specs.Packets.{version, has_padding, has_extension, csrc_count, marker};
ghost use Rattle.link_model.specs.Packets.{payload_type, header_end, padding_count, payload_end};
ghost use Rattle.link_model.specs.Packets.{is_shaped, packet_fields, rtp_packet};
ghost use Rattle.rtp_head.specs.Views.{packet_of};

use crate::view::RtpView;
use byteorder::{BigEndian, ByteOrder};
use link_model::RtpRefusal;

// The bytes of a header without CSRC list or extension.
const FIXED_BYTES: usize = 12;

/// The version in the first two bits of an RTP or RTCP packet (RFC 3550, 5.1 and 6.4.1).
pub fn version(bytes: &[u8]) -> u8
    requires { 1 ≤ length bytes.now }
    ensures { result ≡ version bytes.now }
{
    bytes[0] >> 6
}

/// Whether an RTP or RTCP packet says that it ends in padding (RFC 3550, 5.1 and 6.4.1).
pub fn has_padding(bytes: &[u8]) -> bool
    requires { 1 ≤ length bytes.now }
    ensures { result ≡ has_padding bytes.now }
{
    (bytes[0] >> 5) & 1 == 1
}

fn has_extension(bytes: &[u8]) -> bool
    requires { 1 ≤ length bytes.now }
    ensures { result ≡ has_extension bytes.now }
{
    (bytes[0] >> 4) & 1 == 1
}

fn csrc_count(bytes: &[u8]) -> u8
    requires { 1 ≤ length bytes.now }
    ensures value { result ≡ csrc_count bytes.now }
    ensures small { result < 16 }
{
    bytes[0] & 0x0F
}

fn marker(bytes: &[u8]) -> bool
    requires { 2 ≤ length bytes.now }
    ensures { result ≡ marker bytes.now }
{
    bytes[1] >> 7 == 1
}

fn payload_type(bytes: &[u8]) -> u8
    requires { 2 ≤ length bytes.now }
    ensures { result ≡ payload_type bytes.now }
{
    bytes[1] & 0x7F
}

// Where the header ends, if it ends within the bytes.
#[tactic(auto, unfolding(link_model::specs::Packets::header_end))]
fn header_end(bytes: &[u8]) -> Option<usize>
    requires { 12 ≤ length bytes.now }
    ensures passes { IsNone result ↔ (length bytes.now < header_end bytes.now) }
    ensures place { IfSome result (λ end. end ≡ header_end bytes.now) }
{
    let csrc_end = FIXED_BYTES + 4 * usize::from(csrc_count(bytes));
    let mut end = csrc_end;
    if has_extension(bytes) {
        if bytes.len() < csrc_end + 4 {
            return None;
        }
        end = csrc_end + 4 + 4 * usize::from(BigEndian::read_u16(&bytes[csrc_end + 2..]));
    }
    if end <= bytes.len() { Some(end) } else { None }
}

// Where the payload ends, if the padding leaves the header whole.
#[tactic(auto, unfolding(link_model::specs::Packets::is_shaped, link_model::specs::Packets::payload_end))]
fn payload_end(bytes: &[u8], from: usize) -> Option<usize>
    requires long { 12 ≤ length bytes.now }
    requires from { from ≡ header_end bytes.now }
    requires whole { header_end bytes.now ≤ length bytes.now }
    ensures shaped { IsSome result ↔ IsTrue (is_shaped bytes.now) }
    ensures place { IfSome result (λ end. end ≡ payload_end bytes.now) }
    ensures within { IfSome result (λ end. (from ≤ end) × (end ≤ length bytes.now)) }
{
    if !has_padding(bytes) {
        return Some(bytes.len());
    }
    let padding = usize::from(bytes[bytes.len() - 1]);
    if padding == 0 || bytes.len() < from + padding {
        return None;
    }
    Some(bytes.len() - padding)
}

/// Reads the RTP header of a datagram (RFC 3550, 5.1). The payload is what lies between the header, with
/// its CSRC list and extension, and the padding.
#[tactic(auto, unfolding(link_model::specs::Packets::rtp_packet, link_model::specs::Packets::packet_fields, link_model::specs::Packets::is_shaped))]
pub fn read_rtp(bytes: &[u8]) -> Result<RtpView, RtpRefusal>
    ensures value { IsReadAs packet_of result (rtp_packet bytes.now) }
    ensures places { IfOk result (λ v. (v.from ≤ v.to) × (v.to ≤ length bytes.now)) }

    ensures short_exactly { (result ≡ Err RtpRefusal.Short) ↔ (length bytes.now < 12) }
    ensures version_exactly { (result ≡ Err RtpRefusal.Version)
        ↔ ((12 ≤ length bytes.now) × (version bytes.now ≢ 2)) }
    ensures shape_exactly { (result ≡ Err RtpRefusal.Shape)
        ↔ ((12 ≤ length bytes.now) × (version bytes.now ≡ 2) × IsFalse (is_shaped bytes.now)) }
{
    if bytes.len() < FIXED_BYTES {
        return Err(RtpRefusal::Short);
    }
    if version(bytes) != 2 {
        return Err(RtpRefusal::Version);
    }
    let Some(from) = header_end(bytes) else {
        return Err(RtpRefusal::Shape);
    };
    let Some(to) = payload_end(bytes, from) else {
        return Err(RtpRefusal::Shape);
    };
    Ok(RtpView {
        marker: marker(bytes),
        payload_type: payload_type(bytes),
        sequence: BigEndian::read_u16(&bytes[2..]),
        timestamp: BigEndian::read_u32(&bytes[4..]),
        ssrc: BigEndian::read_u32(&bytes[8..]),
        from,
        to,
    })
}
