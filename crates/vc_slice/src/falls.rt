ghost use Rattle.std.specs.Prelude.{◌≡◌, ◌++◌, ◌+◌, ◌-◌, ◌*◌, ◌/◌, ◌^◌, ◌<◌, ◌≤◌, ◌↔◌, ℕ};
ghost use Rattle.std.specs.Prelude.{ℤ, List, false, length, slice_index_or};
ghost use Rattle.std.specs.List.{list_any};
ghost use Rattle.vc_types.specs.Quantisation.{quant_factor};
ghost use Rattle.vc_types.specs.Slices.{is_large};
ghost use Rattle.vc_slice.specs.Falls.{sum_from, most_from, code_steps, block_from};
ghost use Rattle.vc_slice.specs.Inside.{subband_numbers};
ghost use Rattle.vc_slice.specs.Listed.{listed};
ghost use Rattle.vc_slice.specs.Bands.{AreCoefficients, codes_at};

use crate::bands::SliceParts;
use crate::coeffs::{CoefficientList, SliceCoeffs};
use vc_geometry::bands as band_count;
use vc_quant::last_index_with;
use vc_types::Component;

// How the codes of a block's numbers get shorter as the slice's index rises. Each code has one bit at every
// index, and further ones up to some index: how many of those end at each index, and how many numbers there
// are up to the last that turns 0 behind it.
#[derive(Drop)]
pub(crate) struct Falls {
    count: u64,
    bits: [u64; 128],
    kept: [u64; 128],
}

impl Falls {
    pub(crate) fn new() -> Falls
        ensures count { result.count ≡ 0 }
        ensures bits { (q : ℕ) → sum_from q result.bits ≡ 0 }
        ensures kept { (q : ℕ) → most_from q result.kept ≡ 0 }
    {
        Falls {
            count: 0,
            bits: [0; 128],
            kept: [0; 128],
        }
    }

    // Adds a coefficient's number, where the matrix value of its subband is `least`.
    fn add(&mut self, magnitude: u64, least: u8)
        requires size { magnitude < 2 ^ 60 }
        requires few { self.old.count < 2 ^ 32 }
        requires room { sum_from 0 self.old.bits ≤ 128 * self.old.count }
        requires places { (q : ℕ) → most_from q self.old.kept ≤ self.old.count }
        ensures count { self.new.count ≡ self.old.count + 1 }
        ensures room { sum_from 0 self.new.bits ≤ 128 * self.new.count }
        ensures places { (q : ℕ) → most_from q self.new.kept ≤ self.new.count }
        ensures bits { (q : ℕ) → q ≤ 127 → sum_from q self.new.bits ≡ sum_from q self.old.bits
            + code_steps 60 (4 * magnitude / quant_factor (q - least) + 1) }
        ensures zero { (q : ℕ) → q ≤ 127 → 4 * magnitude / quant_factor (q - least) ≡ 0
            → most_from q self.new.kept ≡ most_from q self.old.kept }
        ensures other { (q : ℕ) → q ≤ 127 → 0 < 4 * magnitude / quant_factor (q - least)
            → most_from q self.new.kept ≡ self.new.count }
    {
        self.count += 1;
        if magnitude > 0 {
            let last = last_with(1, magnitude, least);
            add_at(&mut self.bits, last, 3);
            mark(&mut self.kept, last, self.count);
            add_more(&mut self.bits, magnitude, least);
        }
    }

    // How many bits the codes have at each index, up to the last number that isn't 0.
    pub(crate) fn lens(&self) -> [u64; 128]
        requires few { self.now.count < 2 ^ 33 }
        requires room { sum_from 0 self.now.bits ≤ 128 * self.now.count }
        requires places { (q : ℕ) → most_from q self.now.kept ≤ self.now.count }
        ensures { (q : ℕ) → q ≤ 127 → slice_index_or result q 0
            ≡ sum_from q self.now.bits + most_from q self.now.kept }
    {
        let mut lens = [0; 128];
        let mut bits = 0;
        let mut kept = 0;
        let mut index = 128;
        'indices: while index > 0 {
            index -= 1;
            bits += self.bits[index];
            kept = self.kept[index].max(kept);
            lens[index] = bits + kept;
        }
        lens
    }
}

// How many bits the codes of a component's numbers have at each index of the slice, up to the last that
// isn't 0.
pub(crate) fn all_lens(parts: &SliceParts, c: Component, coeffs: &SliceCoeffs) -> [u64; 128]
    requires coefficients { AreCoefficients parts.now coeffs.now }
    ensures value { (q : ℕ) → q ≤ 127 → slice_index_or result q 0
        ≡ length (codes_at parts.now q coeffs.now c) }
    ensures range { (q : ℕ) → q ≤ 127 → slice_index_or result q 0 < 2 ^ 40 }
{
    let mut falls = Falls::new();
    let mut rest = coeffs.component(c);
    for b in 0..band_count(&parts.plan) {
        let (subband, behind) = rest.split_at(parts.area(c, b) as usize);
        add_subband(&mut falls, &subband, parts.plan.matrix[b as usize]);
        rest = behind;
    }
    falls.lens()
}

// Adds the next numbers of a block, where the matrix value of the subband is `least`.
fn add_subband(falls: &mut Falls, coefficients: &CoefficientList<'_>, least: u8)
    requires small { list_any is_large (listed coefficients.now) ≡ false }
    requires few { falls.old.count + length (listed coefficients.now) < 2 ^ 32 }
    requires room { sum_from 0 falls.old.bits ≤ 128 * falls.old.count }
    requires places { (q : ℕ) → most_from q falls.old.kept ≤ falls.old.count }
    ensures count { falls.new.count ≡ falls.old.count + length (listed coefficients.now) }
    ensures room { sum_from 0 falls.new.bits ≤ 128 * falls.new.count }
    ensures places { (q : ℕ) → most_from q falls.new.kept ≤ falls.new.count }
    ensures bits { (q : ℕ) → q ≤ 127 → (more : List ℤ)
        → block_from q falls.new.count falls.new.bits falls.new.kept more
        ≡ block_from q falls.old.count falls.old.bits falls.old.kept
        (subband_numbers (q - least) (listed coefficients.now) ++ more) }
{
    for place in 0..coefficients.len() {
        falls.add(coefficients.get(place).unsigned_abs(), least);
    }
}

// More bits end at an index.
#[inline(always)]
fn add_at(bits: &mut [u64; 128], last: u8, more: u64)
    requires index { last ≤ 127 }
    requires room { sum_from 0 bits.old + more < 2 ^ 63 }
    ensures on { (q : ℕ) → q ≤ last → sum_from q bits.new ≡ sum_from q bits.old + more }
    ensures off { (q : ℕ) → last < q → sum_from q bits.new ≡ sum_from q bits.old }
{
    bits[usize::from(last)] += more;
}

// The number in this place is the last but zeros, up to an index.
#[inline(always)]
fn mark(kept: &mut [u64; 128], last: u8, place: u64)
    requires index { last ≤ 127 }
    requires places { (q : ℕ) → most_from q kept.old ≤ place }
    ensures on { (q : ℕ) → q ≤ last → most_from q kept.new ≡ place }
    ensures off { (q : ℕ) → last < q → most_from q kept.new ≡ most_from q kept.old }
    ensures places { (q : ℕ) → most_from q kept.new ≤ place }
{
    kept[usize::from(last)] = place;
}

// The bits of a number's digits behind the first.
#[inline(always)]
fn add_more(bits: &mut [u64; 128], magnitude: u64, least: u8)
    requires size { magnitude < 2 ^ 60 }
    requires some { 0 < magnitude }
    requires room { sum_from 0 bits.old < 2 ^ 62 }
    ensures bits { (q : ℕ) → q ≤ 127
        → sum_from q bits.new + code_steps 1 (4 * magnitude / quant_factor (q - least) + 1)
        ≡ sum_from q bits.old + code_steps 60 (4 * magnitude / quant_factor (q - least) + 1) }
    ensures room { sum_from 0 bits.new ≤ sum_from 0 bits.old + 120 }
{
    let mut digits = 2;
    'digits: while 1u64 << digits <= magnitude + 1 {
        add_at(bits, last_with(digits, magnitude, least), 2);
        digits += 1;
    }
}

// The last index of a slice at which a number has so many binary digits where 1 is added.
fn last_with(digits: u32, magnitude: u64, least: u8) -> u8
    requires digits { (1 ≤ digits) × (2 ^ digits ≤ magnitude + 1) }
    requires size { magnitude < 2 ^ 60 }
    ensures value { (q : ℕ) → q ≤ 127
        → (2 ^ digits ≤ 4 * magnitude / quant_factor (q - least) + 1) ↔ (q ≤ result) }
    ensures range { result ≤ 127 }
{
    last_index_with(digits, magnitude)
        .saturating_add(least)
        .min(127)
}
