ghost use Rattle.std.specs.Prelude.{◌≡◌, ◌≤◌, OnOk};
ghost use Rattle.vc_types.specs.declared.video.Component.TheVariants.{Y, C1, C2};
ghost use Rattle.vc_types.specs.Bits.{bits_of};
ghost use Rattle.vc_slice.specs.Bands.{AreCoefficients, codes_at};
ghost use Rattle.vc_slice.specs.Inside.{up_to_bytes};

use crate::bands::{SliceBands, SliceParts};
use crate::blocks::Blocks;
use crate::coeffs::SliceCoeffs;
use std::alloc::Global;
use std::mem::replace;
use vc_types::{Component, NoMemory};

/// Memory to encode slices by means of, one after another.
#[derive(Drop)]
pub struct EncodeRoom {
    pub(crate) alloc: Global,
    // The numbers of a component.
    pub(crate) numbers: Vec<i32>,
    pub(crate) blocks: Blocks,
}

impl EncodeRoom {
    /// No memory yet.
    pub fn new(alloc: Global) -> EncodeRoom {
        EncodeRoom {
            alloc,
            numbers: Vec::new(alloc),
            blocks: Blocks::new(alloc),
        }
    }

    /// Makes the codes of a slice's three blocks.
    pub(crate) fn fill(
        &mut self,
        parts: &SliceParts,
        coeffs: &SliceCoeffs,
        q: u8,
    ) -> Result<(), NoMemory>
        requires coefficients { AreCoefficients parts.now coeffs.now }
        requires index { q ≤ 127 }
        ensures y { OnOk result (bits_of self.new.blocks.y.items
            ≡ up_to_bytes (codes_at parts.now q coeffs.now Y)) }
        ensures c1 { OnOk result (bits_of self.new.blocks.c1.items
            ≡ up_to_bytes (codes_at parts.now q coeffs.now C1)) }
        ensures c2 { OnOk result (bits_of self.new.blocks.c2.items
            ≡ up_to_bytes (codes_at parts.now q coeffs.now C2)) }
    {
        let bands = SliceBands::new(parts, q);
        let Blocks { y, c1, c2 } = replace(&mut self.blocks, Blocks::new(self.alloc));
        let y = self.codes_of(y, &bands, Component::Y, coeffs)?;
        let c1 = self.codes_of(c1, &bands, Component::C1, coeffs)?;
        let c2 = self.codes_of(c2, &bands, Component::C2, coeffs)?;
        self.blocks = Blocks { y, c1, c2 };
        Ok(())
    }
}
