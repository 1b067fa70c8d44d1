ghost use Rattle.std.specs.Prelude.{◌≡◌, ◌++◌, ◌∷◌, ◌+◌, ◌^◌, ◌<◌, ◌≤◌, ℤ, List};
ghost use Rattle.std.specs.Prelude.{unsigned_abs, length, false, OnOk, IfOk};
ghost use Rattle.std.specs.List.{list_any};
ghost use Rattle.vc_types.specs.Bits.{bits_of};
ghost use Rattle.vc_types.specs.Slices.{is_large};
ghost use Rattle.vc_slice.specs.Inside.{codes_behind, subband_numbers, up_to_bytes};
ghost use Rattle.vc_slice.specs.Listed.{listed};
ghost use Rattle.vc_slice.specs.Bands.{AreCoefficients, component_codes};

use crate::bands::SliceBands;
use crate::coeffs::{CoefficientList, SliceCoeffs};
use crate::encode_room::EncodeRoom;
use crate::narrow_codes::narrow_codes;
use vc_bits::BitWriter;
use vc_geometry::bands as band_count;
use vc_golomb::write_behind_zeros;
use vc_quant::Quantiser;
use vc_types::{Component, NoMemory};

impl EncodeRoom {
    /// The codes of a component's numbers, up to the last that isn't 0, and ones up to whole bytes: in the
    /// memory of bytes that are done with.
    pub(crate) fn codes_of(
        &mut self,
        used: Vec<u8>,
        bands: &SliceBands,
        c: Component,
        coeffs: &SliceCoeffs,
    ) -> Result<Vec<u8>, NoMemory>
        requires { AreCoefficients bands.now.parts.now coeffs.now }
        ensures { IfOk result (λ bytes. bits_of bytes.items
            ≡ up_to_bytes (component_codes bands.now coeffs.now c)) }
    {
        match coeffs.component(c) {
            CoefficientList::Narrow(numbers) => {
                narrow_codes(&mut self.numbers, used, bands, c, numbers)
            }
            CoefficientList::Wide(_) => {
                // Most codes have fewer bits than a byte.
                let mut w = BitWriter::with_room(self.alloc, coeffs.component(c).len())?;
                write_codes(&mut w, bands, c, coeffs)?;
                w.align(true)?;
                Ok(w.finish())
            }
        }
    }
}

// Adds the codes of a component's numbers, up to the last that isn't 0.
fn write_codes(
    w: &mut BitWriter,
    bands: &SliceBands,
    c: Component,
    coeffs: &SliceCoeffs,
) -> Result<(), NoMemory>
    requires { AreCoefficients bands.now.parts.now coeffs.now }
    ensures { OnOk result (w.new ≡ w.old ++ component_codes bands.now coeffs.now c) }
{
    let mut zeros = 0;
    let mut rest = coeffs.component(c);
    for b in 0..band_count(&bands.parts.plan) {
        let (subband, behind) = rest.split_at(bands.parts.area(c, b) as usize);
        zeros = write_subband(w, zeros, &subband, &bands.quantiser(b))?;
        rest = behind;
    }
    Ok(())
}

// Adds the codes of the next numbers of a block, where so many zeros came just before. The zeros at the end
// wait for a number that isn't 0: how many they are then.
fn write_subband(
    w: &mut BitWriter,
    zeros: u64,
    coefficients: &CoefficientList<'_>,
    quantiser: &Quantiser,
) -> Result<u64, NoMemory>
    requires small { list_any is_large (listed coefficients.now) ≡ false }
    requires room { zeros + length (listed coefficients.now) < 2 ^ 61 }
    ensures codes { IfOk result
        (λ left. (more : List ℤ)
        → w.new ++ codes_behind left more
        ≡ w.old ++ codes_behind zeros
        (subband_numbers quantiser.now.index (listed coefficients.now) ++ more)) }
    ensures room { IfOk result (λ left. left ≤ zeros + length (listed coefficients.now)) }
{
    let mut zeros = zeros;
    for place in 0..coefficients.len() {
        zeros = write_number(w, zeros, quantiser.quant(coefficients.get(place)))?;
    }
    Ok(zeros)
}

#[inline(always)]
fn write_number(w: &mut BitWriter, zeros: u64, number: i64) -> Result<u64, NoMemory>
    requires size { unsigned_abs number < 2 ^ 60 }
    requires room { zeros < 2 ^ 61 }
    ensures codes { IfOk result
        (λ left. (more : List ℤ)
        → w.new ++ codes_behind left more ≡ w.old ++ codes_behind zeros (number ∷ more)) }
    ensures room { IfOk result (λ left. left ≤ zeros + 1) }
{
    if number == 0 {
        return Ok(zeros + 1);
    }
    write_behind_zeros(w, zeros, number)?;
    Ok(0)
}
