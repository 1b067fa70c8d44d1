ghost use Rattle.std.specs.Prelude.{◌≡◌, ◌≤◌, OnOk, length};
ghost use Rattle.rtp_head.specs.Views.{packet_of};
ghost use Rattle.vc_types.specs.TransformParameters.{parameters_of};
ghost use Rattle.vc2_payload.specs.Views.{payload_value};
ghost use Rattle.cmd_probe.specs.Sources.{begun, source_from, with_packet, with_payload, with_plan};

use crate::arrivals::Arrivals;
use crate::formats::Formats;
use crate::pictures::Pictures;
use crate::slices::Indices;
use crate::stamps::Stamps;
use rtp_head::RtpView;
use std::alloc::Global;
use vc_types::{NoMemory, Plan};
use vc2_payload::{Payload, read_payload};

/// What is known of a source of packets.
#[derive(Drop)]
pub(crate) struct Source {
    pub(crate) ssrc: u32,
    /// That of its first packet.
    pub(crate) payload_type: u8,
    pub(crate) arrivals: Arrivals,
    pub(crate) formats: Formats,
    pub(crate) pictures: Pictures,
    pub(crate) indices: Indices,
    pub(crate) stamps: Stamps,
}

impl Source {
    /// Before its first packet, which is given.
    pub(crate) fn new(alloc: Global, first: &RtpView) -> Source
        ensures { result ≡ source_from (packet_of first.now) }
    {
        Source {
            ssrc: first.ssrc,
            payload_type: first.payload_type,
            arrivals: Arrivals::new(first.sequence),
            formats: Formats::new(alloc),
            pictures: Pictures::new(),
            indices: Indices::new(),
            stamps: Stamps::new(alloc),
        }
    }

    /// Takes its next packet, in a datagram. What the packet carries is looked at where it came in order.
    #[tactic(auto, unfolding(crate::specs::Sources::with_packet))]
    pub(crate) fn take(
        &mut self,
        alloc: Global,
        packet: &RtpView,
        datagram: &[u8],
    ) -> Result<(), NoMemory>
        requires from { packet.now.from ≤ packet.now.to }
        requires to { packet.now.to ≤ length datagram.now }
        ensures { OnOk result (self.new ≡ with_packet self.old (packet_of packet.now) datagram.now) }
    {
        if !self.arrivals.take(packet.sequence, datagram.len()) {
            return Ok(());
        }
        match read_payload(&datagram[packet.from..packet.to]) {
            Ok(payload) => self.take_payload(alloc, packet.timestamp, &payload),
            Err(_) => Ok(()),
        }
    }

    fn take_payload(
        &mut self,
        alloc: Global,
        timestamp: u32,
        payload: &Payload<'_>,
    ) -> Result<(), NoMemory>
        ensures { OnOk result (self.new ≡ with_payload self.old timestamp (payload_value payload.now)) }
    {
        match payload {
            Payload::Header { body, .. } => self.formats.take_header(alloc, body),
            Payload::Params { head, body, .. } => {
                self.begin(head.number, timestamp)?;
                match self.formats.heading.read_params(body) {
                    Some(plan) => self.take_plan(alloc, &plan),
                    None => Ok(()),
                }
            }
            Payload::Slices {
                head,
                count,
                x,
                y,
                body,
                ..
            } => {
                self.begin(head.number, timestamp)?;
                self.pictures.add(*x, *y, *count, body.len());
                self.indices
                    .take_slices(head.prefix, head.scaler, *count, body);
                Ok(())
            }
            Payload::End { .. } | Payload::Skip { .. } => Ok(()),
        }
    }

    // Begins a picture, if it isn't the last one.
    fn begin(&mut self, number: u32, timestamp: u32) -> Result<(), NoMemory>
        ensures { OnOk result (self.new ≡ begun self.old number timestamp) }
    {
        if !self.pictures.is_open(number) {
            self.stamps.take(self.pictures.count == 0, timestamp)?;
            self.pictures.begin(number);
        }
        Ok(())
    }

    // Takes the last picture's parameters.
    fn take_plan(&mut self, alloc: Global, plan: &Plan) -> Result<(), NoMemory>
        ensures { OnOk result (self.new ≡ with_plan self.old (parameters_of plan.now)) }
    {
        self.formats.take_transform(alloc, plan)?;
        self.pictures.cut(plan.slices_x, plan.slices_y);
        Ok(())
    }
}
