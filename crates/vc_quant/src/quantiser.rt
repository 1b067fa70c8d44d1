ghost use Rattle.std.specs.Prelude.{◌≡◌, ◌+◌, ◌*◌, ◌/◌, ◌^◌, ◌<◌, ◌≤◌, ◌↔◌, All, IfSome, IsSome, length};
ghost use Rattle.std.specs.Prelude.{unsigned_abs, true, false, ℕ, ℤ};
ghost use Rattle.vc_types.specs.Lifting.{line_of};
ghost use Rattle.vc_types.specs.Quantisation.{quant_factor, quant_offset, dequantised, dequantised_magnitude};
ghost use Rattle.vc_types.specs.Quantisation.{quantised, with_sign_of};
ghost use Rattle.vc_quant.specs.Narrow.{IsNarrow};
ghost use Rattle.vc_quant.specs.Reciprocal.{IsReciprocal};

use crate::factors::FACTORS;
use crate::narrow::NarrowQuantiser;
use crate::quantising::{NARROW, NarrowReciprocal};
use crate::quotient::quotient;
use crate::reciprocal::factor_reciprocal;

/// The quantisation factor of an index from 0 to 127, in quarters (ST 2042-1, quantisation factor).
#[inline(always)]
pub fn factor(q: u8) -> u64
    requires index { q ≤ 127 }
    ensures value { result ≡ quant_factor q }
    ensures range { (4 ≤ result) × (result < 2 ^ 34) }
{
    FACTORS[q as usize]
}

/// The quantisation offset of an index from 0 to 127, in quarters (ST 2042-1, quantisation offset).
#[inline(always)]
pub fn offset(q: u8) -> u64
    requires index { q ≤ 127 }
    ensures value { result ≡ quant_offset q }
    ensures range { result < 2 ^ 34 }
{
    // Half of the factor, less 1 at the first two indexes.
    (factor(q) + 1) / 2 - u64::from(q < 2)
}

/// An index from 0 to 127, with its factor and its offset.
#[derive(Clone, Copy)]
pub struct Quantiser {
    pub index: u8,
    factor: u64,
    offset: u64,
    reciprocal: u64,
    ghost index_is_known: { index ≤ 127 },
    ghost factor_is: { factor ≡ quant_factor index },
    ghost offset_is: { offset ≡ quant_offset index },
    ghost factor_fits: { factor < 2 ^ 34 },
    ghost factor_is_large: { 4 ≤ factor },
    ghost offset_fits: { offset < 2 ^ 34 },
    ghost reciprocal_is: { IsReciprocal factor reciprocal },
}

impl Quantiser {
    pub fn new(index: u8) -> Quantiser
        requires { index ≤ 127 }
        ensures { result.index ≡ index }
    {
        Quantiser {
            index,
            factor: factor(index),
            offset: offset(index),
            reciprocal: factor_reciprocal(index),
        }
    }

    /// The coefficient that the number `m` stands for (ST 2042-1, inverse quantisation).
    #[inline]
    pub fn dequant(&self, m: i64) -> i128
        requires size { unsigned_abs m ≤ 2 ^ 62 }
        ensures value { result ≡ dequantised m self.now.index }
        ensures range { unsigned_abs result < 2 ^ 95 }
        ensures not_smaller { unsigned_abs m ≤ unsigned_abs result }
    {
        let size = self.magnitude(m.unsigned_abs());
        let value = size as i128;
        if m < 0 { -value } else { value }
    }

    /// The number that this encoder quantises the coefficient `c` to.
    #[inline]
    pub fn quant(&self, c: i64) -> i64
        requires size { unsigned_abs c < 2 ^ 60 }
        ensures value { result ≡ quantised c self.now.index }
        ensures not_larger { unsigned_abs result ≤ unsigned_abs c }
    {
        let quarters = 4 * c.unsigned_abs();
        // Most coefficients are quantised to 0.
        if quarters < self.factor {
            return 0;
        }
        let value = quotient(quarters, self.factor, self.reciprocal) as i64;
        if c < 0 { -value } else { value }
    }

    /// Puts in the place of numbers the coefficients that they stand for, where those surely fit 32 bits:
    /// `greatest` is at least each number's magnitude. Else they stay, and it is false.
    #[inline]
    pub fn dequant_all(&self, numbers: &mut [i32], greatest: u32) -> bool
        requires greatest { All (λ z. unsigned_abs z ≤ greatest) numbers.old }
        ensures value { result ≡ true → (k : ℕ) → k < length numbers.old
            → line_of numbers.new k ≡ dequantised (line_of numbers.old k) self.now.index }
        ensures narrow { result ≡ true → (k : ℕ) → k < length numbers.old
            → unsigned_abs (line_of numbers.new k) < 2 ^ 29 }
        ensures unchanged { result ≡ false → numbers.new ≡ numbers.old }
        ensures exactly { (result ≡ true) ↔ IsNarrow greatest self.now.index }
    {
        let Some(narrow) = self.narrow(greatest) else {
            return false;
        };
        for number in numbers.iter_mut() {
            *number = narrow.dequant(*number);
        }
        true
    }

    /// The same for numbers up to the greatest magnitude, where their coefficients surely fit 32 bits.
    #[inline]
    pub fn narrow(&self, greatest: u32) -> Option<NarrowQuantiser>
        ensures same { IfSome result
            (λ narrow. (narrow.index ≡ self.now.index) × (narrow.greatest ≡ greatest)) }
        ensures exactly { IsSome result ↔ IsNarrow greatest self.now.index }
    {
        if !self.is_narrow(greatest) {
            return None;
        }
        Some(NarrowQuantiser {
            index: self.index,
            greatest,
            factor: self.factor as u32,
            offset: self.offset as u32,
        })
    }

    /// Writes the numbers that this encoder quantises coefficients to: `greatest` is at least each
    /// coefficient's magnitude.
    #[inline]
    pub fn quant_to(&self, coefficients: &[i32], numbers: &mut [i32], greatest: u32)
        requires greatest { All (λ z. unsigned_abs z ≤ greatest) coefficients.now }
        requires length { length numbers.old ≡ length coefficients.now }
        ensures { (k : ℕ) → k < length coefficients.now
            → line_of numbers.new k ≡ quantised (line_of coefficients.now k) self.now.index }
    {
        if greatest < NARROW {
            NarrowReciprocal::new(self.index).quantise(coefficients, numbers);
        } else {
            self.quant_each(coefficients, numbers);
        }
    }

    // The same one by one, however large they are.
    fn quant_each(&self, coefficients: &[i32], numbers: &mut [i32])
        requires { length numbers.old ≡ length coefficients.now }
        ensures { (k : ℕ) → k < length coefficients.now
            → line_of numbers.new k ≡ quantised (line_of coefficients.now k) self.now.index }
    {
        for k in 0..coefficients.len() {
            numbers[k] = self.quant_one(coefficients[k]);
        }
    }

    fn quant_one(&self, coefficient: i32) -> i32
        ensures { result ≡ quantised coefficient self.now.index }
    {
        self.quant(i64::from(coefficient)) as i32
    }

    #[inline]
    fn is_narrow(&self, greatest: u32) -> bool
        ensures exactly { (result ≡ true) ↔ IsNarrow greatest self.now.index }
        ensures factor { result ≡ true → self.now.factor < 2 ^ 31 }
        ensures offset { result ≡ true → self.now.offset < 2 ^ 31 }
        ensures room { result ≡ true
            → greatest * self.now.factor + self.now.offset + 2 < 2 ^ 31 }
    {
        if self.factor >= 1 << 31 {
            return false;
        }
        u64::from(greatest) * self.factor + self.offset + 2 < 1 << 31
    }

    #[inline]
    fn magnitude(&self, size: u64) -> u128
        requires { size ≤ 2 ^ 62 }
        ensures value { result ≡ dequantised_magnitude size
            (quant_factor self.now.index) (quant_offset self.now.index) }
        ensures range { result < 2 ^ 95 }
        ensures not_smaller { size ≤ result }
    {
        if size == 0 {
            return 0;
        }
        (u128::from(size) * u128::from(self.factor) + u128::from(self.offset) + 2) / 4
    }
}

/// The coefficient that the number `m` stands for at index `q`.
pub fn dequant(m: i64, q: u8) -> i128
    requires index { q ≤ 127 }
    requires size { unsigned_abs m ≤ 2 ^ 62 }
    ensures value { result ≡ dequantised m q }
    ensures range { unsigned_abs result < 2 ^ 95 }
    ensures not_smaller { unsigned_abs m ≤ unsigned_abs result }
{
    Quantiser::new(q).dequant(m)
}

/// The number that this encoder quantises the coefficient `c` to at index `q`.
pub fn quant(c: i64, q: u8) -> i64
    requires index { q ≤ 127 }
    requires size { unsigned_abs c < 2 ^ 60 }
    ensures value { result ≡ quantised c q }
    ensures not_larger { unsigned_abs result ≤ unsigned_abs c }
{
    Quantiser::new(q).quant(c)
}
