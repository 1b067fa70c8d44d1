ghost use Rattle.std.specs.Prelude.{◌≡◌, ◌≢◌, ◌<◌, ◌+◌, ◌^◌, Err, OnOk};
ghost use Rattle.stream_model.specs.Packed.{PackStream};
ghost use Rattle.cmd_stream.specs.PackSteps.{PacksBody};
ghost use Rattle.cmd_stream.specs.PackViews.{IsBehindPictures};
ghost use Rattle.vc_types.specs.SenderSettings.{Packing};

use crate::pack_fault::UnitRefusal;
use crate::pack_slices::slices_len;
use byteorder::{BigEndian, ByteOrder};
use link_sender::{Datagram, Packer};
use vc_params::read_params;
use vc_types::Header;

// A picture's number has so many bytes.
const NUMBER_BYTES: usize = 4;

/// A stream behind its first header.
#[derive(Drop)]
pub(crate) struct Opened {
    /// The first header.
    pub(crate) header: Header,
    /// The coded bytes of the last header.
    pub(crate) coded: Vec<u8>,
    pub(crate) packer: Packer,
    pub(crate) pictures: u64,
}

impl Opened {
    /// The datagrams of the picture of a data unit's body.
    pub(crate) fn pack_picture(&mut self, body: &[u8]) -> Result<Vec<Datagram>, UnitRefusal>
        requires few { self.old.pictures < 2 ^ 32 }
        ensures header { self.new.header ≡ self.old.header }
        ensures counted { OnOk result (self.new.pictures ≡ self.old.pictures + 1) }
        ensures written { result ≢ Err UnitRefusal.WriteFault }
        ensures value { (s : Packing) (t : PackStream) → IsBehindPictures s t self.old
            → PacksBody s t body.now self.new result }
    {
        if body.len() < NUMBER_BYTES {
            return Err(UnitRefusal::Bad);
        }
        let number = BigEndian::read_u32(body);
        let (_, bytes) = body.split_at(NUMBER_BYTES);
        let Ok((plan, used)) = read_params(&self.header, bytes) else {
            return Err(UnitRefusal::Bad);
        };
        let (params, behind) = bytes.split_at(used);
        let Some(len) = slices_len(&plan, behind) else {
            return Err(UnitRefusal::Bad);
        };
        let (slices, _) = behind.split_at(len);
        let datagrams = self
            .packer
            .send_picture(number, &plan, &self.coded, params, slices)?;
        self.pictures += 1;
        Ok(datagrams)
    }
}
