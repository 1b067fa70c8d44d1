ghost use Rattle.std.specs.Prelude.{◌≡◌, IfOk, OnErr};
ghost use Rattle.stream_model.specs.Packing.{AreAllSlices};
ghost use Rattle.link_sender.specs.PackerState.{EndsPacking, PacksPicture, counts_of};
ghost use Rattle.link_sender.specs.Views.{packed_picture_of};
ghost use Rattle.vc_types.specs.SenderSettings.{packing_view};
ghost use Rattle.vc_types.specs.TransformParameters.{parameters_of};

use crate::fields::timestamp;
use crate::outbox::Outbox;
use crate::packer::Packer;
use crate::parts::check_parts;
use crate::picture::Picture;
use crate::writing::write_end;
use crate::{Datagram, SendRefusal};
use std::alloc::Global;
use vc_types::{NoMemory, PackSettings, Plan};

impl Packer {
    /// A packer that has packed nothing.
    pub fn new(alloc: Global, s: PackSettings) -> Packer
        ensures settings { result.settings ≡ s }
        ensures counts { counts_of result
            ≡ record { pictures = 0; sequence = s.seq; timestamp = 0 } }
    {
        Packer {
            alloc,
            settings: s,
            pictures: 0,
            sequence: s.seq,
            timestamp: 0,
        }
    }

    /// The datagrams of a picture by its own number: its sequence header, its transform parameters and its
    /// slices, whose bytes are given as they are coded. The bytes of the slices are exactly the plan's
    /// slices. A picture is refused whole, at its first part in order of sending that has no room in a
    /// datagram; for a sequence header or transform parameters the refusal says slice 0. A refusal or want
    /// of memory leaves the packer as it was.
    pub fn send_picture(
        &mut self,
        number: u32,
        plan: &Plan,
        header: &[u8],
        params: &[u8],
        slices: &[u8],
    ) -> Result<Vec<Datagram>, SendRefusal>
        requires whole { AreAllSlices (parameters_of plan.now) slices.now }
        ensures settings { self.new.settings ≡ self.old.settings }
        ensures value { PacksPicture (packing_view self.old.settings)
            (packed_picture_of number (parameters_of plan.now) header.now params.now slices.now)
            (counts_of self.old) (counts_of self.new) result }
    {
        let picture = Picture {
            settings: self.settings,
            timestamp: timestamp(&self.settings, self.pictures, number),
            number,
            plan,
            header,
            params,
        };
        check_parts(&picture, slices)?;
        let mut outbox = Outbox {
            alloc: self.alloc,
            datagrams: Vec::new(self.alloc),
            sequence: self.sequence,
        };
        outbox.put_heads(&picture)?;
        outbox.put_slices(&picture, slices)?;
        self.timestamp = picture.timestamp;
        self.pictures = (self.pictures + 1) % (1 << 63);
        self.sequence = outbox.sequence;
        Ok(outbox.datagrams)
    }

    /// The end of the sequence, with the timestamp of the last datagram, 0 if there was none.
    pub fn finish(&mut self) -> Result<Datagram, NoMemory>
        ensures settings { self.new.settings ≡ self.old.settings }
        ensures value { IfOk result (EndsPacking (packing_view self.old.settings)
            (counts_of self.old) (counts_of self.new)) }
        ensures unchanged { OnErr result (counts_of self.new ≡ counts_of self.old) }
    {
        let last = write_end(self.alloc, &self.settings, self.sequence, self.timestamp)?;
        self.sequence = self.sequence.wrapping_add(1);
        Ok(last)
    }
}
