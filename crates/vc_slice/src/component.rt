ghost use Rattle.std.specs.Prelude.{◌≡◌, ◌++◌, Err, OnOk, true, false};
ghost use Rattle.std.specs.List.{list_any};
ghost use Rattle.vc_types.specs.Bits.{bits_of};
ghost use Rattle.vc_types.specs.Slices.{is_large};
ghost use Rattle.vc_slice.specs.Bands.{coefficients_of_block};
ghost use Rattle.vc_slice.specs.declared.subband.Stopped.TheVariants.{Large};

use crate::bands::SliceBands;
use crate::subband::{Stopped, read_subband};
use vc_bits::{BitReader, Block};
use vc_geometry::bands as band_count;
use vc_types::Component;

// Puts the coefficients that a component's block stands for at the end of others.
pub(crate) fn read_component(
    bands: &SliceBands,
    c: Component,
    block: &[u8],
    coeffs: &mut Vec<i64>,
) -> Result<(), Stopped>
    requires sound { list_any is_large coeffs.old.items ≡ false }
    ensures value { OnOk result (coeffs.new.items ≡ coeffs.old.items
        ++ coefficients_of_block bands.now c block.now) }
    ensures sound { OnOk result (list_any is_large coeffs.new.items ≡ false) }
    ensures large { result ≡ Err Large
        → list_any is_large (coefficients_of_block bands.now c block.now) ≡ true }
{
    let mut bits = bits_of(block);
    for b in 0..band_count(&bands.parts.plan) {
        read_subband(
            &mut bits,
            bands.parts.area(c, b),
            &bands.quantiser(b),
            coeffs,
        )?;
    }
    Ok(())
}

#[tactic(auto, using(crate::proofs::BlockBits::blocks))]
pub(crate) fn bits_of(block: &[u8]) -> Block<'_>
    ensures { result ≡ bits_of block.now }
{
    match BitReader::new(block).block(block.len()) {
        Ok(bits) => bits,
        Err(_) => unreachable!(),
    }
}
