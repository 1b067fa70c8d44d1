ghost use Rattle.std.specs.Prelude.{◌≡◌, ◌≤◌};
ghost use Rattle.link_model.specs.Packets.{rtp_header};
ghost use Rattle.rtp_head.specs.Views.{packet_of};

use crate::view::RtpView;
use byteorder::{BigEndian, ByteOrder};

const VERSION: u8 = 2 << 6;

const MARKER: u8 = 1 << 7;

/// Writes a header of version 2 without CSRC list, extension or padding (RFC 3550, 5.1).
#[tactic(auto, unfolding(link_model::specs::Packets::rtp_header))]
pub fn write_rtp(v: &RtpView, out: &mut [u8; 12])
    requires { v.now.payload_type ≤ 127 }
    ensures value { out.new ≡ rtp_header (packet_of v.now) }
{
    let (bits, numbers) = out.split_at_mut(2);
    let (sequence, rest) = numbers.split_at_mut(2);
    let (timestamp, ssrc) = rest.split_at_mut(4);
    bits[0] = VERSION;
    bits[1] = if v.marker {
        MARKER + v.payload_type
    } else {
        v.payload_type
    };
    BigEndian::write_u16(sequence, v.sequence);
    BigEndian::write_u32(timestamp, v.timestamp);
    BigEndian::write_u32(ssrc, v.ssrc);
}
