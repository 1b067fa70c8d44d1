ghost use Rattle.std.specs.Prelude.{◌≡◌, ◌≤◌, ◌+◌, IfOk, length};
ghost use Rattle.link_model.specs.Packets.{payload_bytes};
ghost use Rattle.link_model.specs.Sending.{high_half};
ghost use Rattle.stream_model.specs.Packing.{datagram_around, end_around};
ghost use Rattle.vc2_payload.specs.Views.{CanBeWritten, payload_value};
ghost use Rattle.vc_types.specs.SenderSettings.{packing_view};

use crate::Datagram;
use rtp_head::{RtpView, write_rtp};
use std::alloc::Global;
use vc_types::{NoMemory, PackSettings};
use vc2_payload::{Payload, write_payload};

/// Where a datagram stands: its extended sequence number, its timestamp, and whether a picture ends
/// with it.
#[derive(Clone, Copy)]
pub(crate) struct Stamp {
    pub(crate) sequence: u32,
    pub(crate) timestamp: u32,
    pub(crate) marker: bool,
}

/// The datagram of a payload.
#[tactic(auto, unfolding(stream_model::specs::Packing::datagram_around))]
pub(crate) fn write_datagram(
    alloc: Global,
    s: &PackSettings,
    stamp: Stamp,
    payload: &Payload<'_>,
) -> Result<Datagram, NoMemory>
    requires payload { CanBeWritten payload.now }
    requires fits { length (payload_bytes (payload_value payload.now)) + 12 ≤ 65507 }
    ensures { IfOk result (λ d. d.bytes.items ≡ datagram_around (packing_view s.now)
        stamp.sequence stamp.timestamp stamp.marker (payload_value payload.now)) }
{
    let view = RtpView {
        marker: stamp.marker,
        payload_type: s.pt,
        sequence: (stamp.sequence & 0xffff) as u16,
        timestamp: stamp.timestamp,
        ssrc: s.ssrc,
        from: 12,
        to: 12,
    };
    let mut head = [0; 12];
    write_rtp(&view, &mut head);
    let mut bytes = Vec::with_capacity(alloc, s.size as usize)?;
    bytes.extend_from_slice(&head)?;
    write_payload(&mut bytes, payload)?;
    Ok(Datagram { bytes })
}

/// The end of a sequence.
#[tactic(auto, using(crate::proofs::PayloadLengths::end_length), unfolding(stream_model::specs::Packing::end_around))]
pub(crate) fn write_end(
    alloc: Global,
    s: &PackSettings,
    sequence: u32,
    timestamp: u32,
) -> Result<Datagram, NoMemory>
    ensures { IfOk result (λ d. d.bytes.items
        ≡ end_around (packing_view s.now) sequence timestamp) }
{
    let end = Payload::End {
        high: high_half(sequence),
    };
    let stamp = Stamp {
        sequence,
        timestamp,
        marker: false,
    };
    write_datagram(alloc, s, stamp, &end)
}

/// The upper half of an extended sequence number.
pub(crate) fn high_half(sequence: u32) -> u16
    ensures { result ≡ high_half sequence }
{
    (sequence >> 16) as u16
}
