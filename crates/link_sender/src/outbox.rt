ghost use Rattle.std.specs.Prelude.{◌≡◌, ◌+◌, ◌%◌, ◌^◌, ◌≤◌, [], ◌∷◌, ◌++◌, OnOk, length};
ghost use Rattle.link_model.specs.Packets.{payload_bytes};
ghost use Rattle.link_model.specs.Sending.{HeaderContent, ParametersContent};
ghost use Rattle.stream_model.specs.Packing.{datagram_around, packed_head};
ghost use Rattle.link_sender.specs.Packing.{bytes_of_all};
ghost use Rattle.link_sender.specs.Puts.{PutsDatagrams};
ghost use Rattle.link_sender.specs.Views.{heads_of};
ghost use Rattle.vc2_payload.specs.Views.{CanBeWritten, head_of, payload_value};
ghost use Rattle.vc_types.specs.SenderSettings.{packing_view};

use crate::Datagram;
use crate::fields::flags;
use crate::picture::Picture;
use crate::writing::{Stamp, high_half, write_datagram};
use std::alloc::Global;
use vc_types::NoMemory;
use vc2_payload::{FragmentHead, Payload};

/// Datagrams that are made, and the extended sequence number of the next.
#[derive(Drop)]
pub(crate) struct Outbox {
    pub(crate) alloc: Global,
    pub(crate) datagrams: Vec<Datagram>,
    pub(crate) sequence: u32,
}

impl Outbox {
    /// Puts a picture's sequence header and transform parameters.
    pub(crate) fn put_heads(&mut self, p: &Picture<'_>) -> Result<(), NoMemory>
        requires header { length p.now.header.now + 16 ≤ 65507 }
        requires parameters { length p.now.params.now + 28 ≤ 65507 }
        ensures { OnOk result (PutsDatagrams p.now (HeaderContent ∷ ParametersContent ∷ [])
            self.old self.new) }
    {
        self.put_header(p)?;
        self.put_parameters(p)
    }

    // Puts a picture's sequence header.
    fn put_header(&mut self, p: &Picture<'_>) -> Result<(), NoMemory>
        requires { length p.now.header.now + 16 ≤ 65507 }
        ensures { OnOk result (PutsDatagrams p.now (HeaderContent ∷ []) self.old self.new) }
    {
        let payload = Payload::Header {
            high: high_half(self.sequence),
            from: 4,
            body: p.header,
        };
        self.put(p, false, &payload)
    }

    // Puts a picture's transform parameters.
    fn put_parameters(&mut self, p: &Picture<'_>) -> Result<(), NoMemory>
        requires { length p.now.params.now + 28 ≤ 65507 }
        ensures { OnOk result (PutsDatagrams p.now (ParametersContent ∷ []) self.old self.new) }
    {
        let payload = Payload::Params {
            head: self.fragment_head(p),
            from: 16,
            body: p.params,
        };
        self.put(p, false, &payload)
    }

    /// What the next fragment of a picture begins with.
    pub(crate) fn fragment_head(&self, p: &Picture<'_>) -> FragmentHead
        ensures { head_of result
            ≡ packed_head (packing_view p.now.settings) (heads_of p.now) self.now.sequence }
    {
        FragmentHead {
            high: high_half(self.sequence),
            flags: flags(&p.settings, p.number),
            number: p.number,
            prefix: p.plan.prefix as u16,
            scaler: p.plan.scaler as u16,
        }
    }

    /// Puts the datagram of a picture's payload.
    pub(crate) fn put(
        &mut self,
        p: &Picture<'_>,
        marker: bool,
        payload: &Payload<'_>,
    ) -> Result<(), NoMemory>
        requires payload { CanBeWritten payload.now }
        requires fits { length (payload_bytes (payload_value payload.now)) + 12 ≤ 65507 }
        ensures datagrams { OnOk result (bytes_of_all self.new.datagrams.items
            ≡ bytes_of_all self.old.datagrams.items
            ++ datagram_around (packing_view p.now.settings) self.old.sequence p.now.timestamp
            marker (payload_value payload.now) ∷ []) }
        ensures sequence { OnOk result (self.new.sequence ≡ (self.old.sequence + 1) % 2 ^ 32) }
    {
        let stamp = Stamp {
            sequence: self.sequence,
            timestamp: p.timestamp,
            marker,
        };
        let datagram = write_datagram(self.alloc, &p.settings, stamp, payload)?;
        self.datagrams.push(datagram)?;
        self.sequence = self.sequence.wrapping_add(1);
        Ok(())
    }
}
