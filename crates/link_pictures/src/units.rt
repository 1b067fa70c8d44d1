ghost use Rattle.std.specs.Prelude.{◌≡◌, ℕ, List, [], ◌∷◌, ◌++◌, OnOk, Option, None, IsTrue, unwrap_or};
ghost use Rattle.std.specs.Option.{option_map};
ghost use Rattle.byteorder.specs.Endian.{big_bytes};
ghost use Rattle.stream_model.specs.Streams.{picture_unit};
ghost use Rattle.link_pictures.specs.Writing.{AreUnits, header_before, field_unit};
ghost use Rattle.vc_types.specs.DataUnits.{DataUnit, is_unit_code};
ghost use Rattle.vc_types.specs.ParseCodes.{end_code};

use byteorder::{BigEndian, ByteOrder};
use std::alloc::Global;
use vc_types::{HIGH_QUALITY_PICTURE, NoMemory, SEQUENCE_HEADER};
use vc_units::{PARSE_INFO_BYTES, write_unit};

/// Units that are to go out behind others, and the low 32 bits of the length of the last unit.
#[derive(Drop)]
pub(crate) struct Units {
    alloc: Global,
    pub(crate) bytes: Vec<u8>,
    pub(crate) previous: Option<u32>,
}

impl Units {
    /// None yet, behind a unit whose length has these low 32 bits, if there is one.
    #[tactic(auto, using(crate::proofs::UnitLists::no_units))]
    pub(crate) fn new(alloc: Global, previous: Option<u32>) -> Units
        ensures { AreUnits previous [] result.bytes.items result.previous }
    {
        Units {
            alloc,
            bytes: Vec::new(alloc),
            previous,
        }
    }

    /// The header, where there is no unit before.
    pub(crate) fn begin(&mut self, header: &[u8]) -> Result<(), NoMemory>
        ensures { (before : Option ℕ) → AreUnits before [] self.old.bytes.items self.old.previous
            → OnOk result (AreUnits before (header_before header.now before)
            self.new.bytes.items self.new.previous) }
    {
        match self.previous {
            Some(_) => Ok(()),
            None => self.push(SEQUENCE_HEADER, header),
        }
    }

    /// A first field, if there is one.
    #[tactic(auto, using(crate::proofs::UnitLists::none_more))]
    pub(crate) fn push_field(
        &mut self,
        number: u64,
        field: &Option<Vec<u8>>,
    ) -> Result<(), NoMemory>
        ensures { (before : Option ℕ) (units : List DataUnit)
            → AreUnits before units self.old.bytes.items self.old.previous
            → OnOk result (AreUnits before
            (units ++ field_unit number (option_map (λ bytes. bytes.items) field.now))
            self.new.bytes.items self.new.previous) }
    {
        match field {
            Some(whole) => self.push_picture(number, whole),
            None => Ok(()),
        }
    }

    /// A picture, by its whole bytes.
    pub(crate) fn push_whole(
        &mut self,
        number: u64,
        whole: &Option<Vec<u8>>,
    ) -> Result<(), NoMemory>
        ensures { (before : Option ℕ) (units : List DataUnit)
            → AreUnits before units self.old.bytes.items self.old.previous
            → OnOk result (AreUnits before (units
            ++ picture_unit number (unwrap_or (option_map (λ bytes. bytes.items) whole.now) [])
            ∷ []) self.new.bytes.items self.new.previous) }
    {
        match whole {
            Some(whole) => self.push_picture(number, whole),
            None => self.push_picture(number, &[]),
        }
    }

    fn push_picture(&mut self, number: u64, whole: &[u8]) -> Result<(), NoMemory>
        ensures { (before : Option ℕ) (units : List DataUnit)
            → AreUnits before units self.old.bytes.items self.old.previous
            → OnOk result (AreUnits before (units ++ picture_unit number whole.now ∷ [])
            self.new.bytes.items self.new.previous) }
    {
        let mut body = Vec::new(self.alloc);
        body.extend_from_slice(&low_bytes(number))?;
        body.extend_from_slice(whole)?;
        self.push(HIGH_QUALITY_PICTURE, &body)
    }

    #[tactic(auto, using(crate::proofs::UnitLists::unit_more))]
    fn push(&mut self, code: u8, body: &[u8]) -> Result<(), NoMemory>
        requires code { IsTrue (is_unit_code code) }
        requires body { code ≡ end_code → body.now ≡ [] }
        ensures { (before : Option ℕ) (units : List DataUnit)
            → AreUnits before units self.old.bytes.items self.old.previous
            → OnOk result (AreUnits before
            (units ++ (record { code = code; body = body.now }) ∷ [])
            self.new.bytes.items self.new.previous) }
    {
        write_unit(&mut self.bytes, code, body, self.previous.unwrap_or(0))?;
        self.previous = Some(((PARSE_INFO_BYTES + body.len()) % (1 << 32)) as u32);
        Ok(())
    }
}

// The low 32 bits of a picture's number.
#[tactic(auto, using(vc_units::proofs::Written::low_bytes))]
fn low_bytes(number: u64) -> [u8; 4]
    ensures { result ≡ big_bytes 4 number }
{
    let mut bytes = [0; 4];
    BigEndian::write_u32(&mut bytes, (number % (1 << 32)) as u32);
    bytes
}
