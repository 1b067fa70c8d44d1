ghost use Rattle.std.specs.Prelude.{◌≡◌, ◌+◌, ◌-◌, ◌*◌, ◌^◌, ◌<◌, ◌≤◌, unsigned_abs};
ghost use Rattle.vc_types.specs.Quantisation.{quant_factor, quant_offset, dequantised, dequantised_magnitude};
ghost use Rattle.vc_types.specs.Quantisation.{with_sign_of};
ghost use Rattle.vc_quant.specs.Narrow.{IsNarrow};

use crate::quantiser::{factor, offset};

/// An index, with its factor and its offset, at which numbers up to a magnitude stand for coefficients that
/// fit 32 bits.
#[derive(Clone, Copy)]
pub struct NarrowQuantiser {
    pub index: u8,
    pub greatest: u32,
    pub(crate) factor: u32,
    pub(crate) offset: u32,
    ghost index_is_known: { index ≤ 127 },
    ghost factor_is: { factor ≡ quant_factor index },
    ghost offset_is: { offset ≡ quant_offset index },
    ghost is_narrow: { IsNarrow greatest index },
}

impl NarrowQuantiser {
    /// The coefficient that a number stands for.
    #[inline(always)]
    pub fn dequant(&self, number: i32) -> i32
        requires { unsigned_abs number ≤ self.now.greatest }
        ensures value { result ≡ dequantised number self.now.index }
        ensures narrow { unsigned_abs result < 2 ^ 29 }
    {
        coefficient(number, self.factor, self.offset)
    }

    /// The same at an index that is lower by so much, or at index 0 where there is none.
    #[inline(always)]
    pub fn lowered(&self, by: u8) -> NarrowQuantiser
        ensures index { result.index ≡ self.now.index - by }
        ensures greatest { result.greatest ≡ self.now.greatest }
    {
        let index = self.index.saturating_sub(by);
        NarrowQuantiser {
            index,
            greatest: self.greatest,
            factor: factor(index) as u32,
            offset: offset(index) as u32,
        }
    }
}

#[inline(always)]
fn coefficient(number: i32, factor: u32, offset: u32) -> i32
    requires room { unsigned_abs number * factor + offset + 2 < 2 ^ 31 }
    ensures { result ≡ with_sign_of number
        (dequantised_magnitude (unsigned_abs number) factor offset) }
{
    let size = number.unsigned_abs();
    let size = if size == 0 {
        0
    } else {
        (size * factor + offset + 2) / 4
    };
    let size = size as i32;
    if number < 0 { -size } else { size }
}
