ghost use Rattle.std.specs.Prelude.{◌≡◌, ◌<◌, ◌≤◌, ◌+◌, ℕ, Ok, OnOk, IfOk, IfSome, length, false};
ghost use Rattle.std.specs.List.{list_any};
ghost use Rattle.vc_types.specs.declared.video.Component.TheVariants.{Y, C1};
ghost use Rattle.vc_types.specs.Lifting.{line_of};
ghost use Rattle.vc_types.specs.Slices.{in_range, is_large};
ghost use Rattle.vc_slice.specs.Bands.{coefficient_count, coefficients_of_block, coefficients_of_slice};
ghost use Rattle.vc_slice.specs.Coded.{coded_of};
ghost use Rattle.vc_slice.specs.OneBlock.{three_parts};

use crate::bands::SliceBands;
use crate::coded::CodedSlice;
use crate::coeffs::SliceCoeffs;
use crate::narrow::{TooWide, read_narrow};
use std::alloc::Global;
use vc_types::{Component, NoMemory};

// The coefficients of a slice in 32 bits each, unless one may be too wide.
pub(crate) fn narrow_coefficients(
    alloc: Global,
    bands: &SliceBands,
    coded: &CodedSlice<'_>,
) -> Result<Option<SliceCoeffs>, NoMemory>
    requires index { bands.now.index ≡ coded.now.index }
    ensures value { IfOk result (λ found. IfSome found (λ coeffs. Ok coeffs
        ≡ in_range (coefficients_of_slice bands.now.parts.now (coded_of coded.now)))) }
{
    let y = bands.parts.count(Component::Y) as usize;
    let c = bands.parts.count(Component::C1) as usize;
    let mut numbers = vec![in alloc; 0i32; y + c + c + 8]?;
    match read_blocks(bands, coded, y, c, &mut numbers) {
        Ok(()) => Ok(Some(SliceCoeffs::narrow(numbers, y, c, c))),
        Err(TooWide) => Ok(None),
    }
}

// Reads the three blocks of a slice one behind the other, where Y has so many coefficients and each colour
// so many.
fn read_blocks(
    bands: &SliceBands,
    coded: &CodedSlice<'_>,
    y: usize,
    c: usize,
    numbers: &mut [i32],
) -> Result<(), TooWide>
    requires index { bands.now.index ≡ coded.now.index }
    requires y { y ≡ coefficient_count bands.now.parts.now Y }
    requires c { c ≡ coefficient_count bands.now.parts.now C1 }
    requires room { y + c + c + 8 ≤ length numbers.old }
    ensures value { OnOk result (three_parts y c c numbers.new
        ≡ coefficients_of_slice bands.now.parts.now (coded_of coded.now)) }
    ensures sound { OnOk result (in_range (coefficients_of_slice bands.now.parts.now (coded_of coded.now))
        ≡ Ok (coefficients_of_slice bands.now.parts.now (coded_of coded.now))) }
{
    read_at(bands, Component::Y, coded.y, 0, numbers)?;
    read_at(bands, Component::C1, coded.c1, y, numbers)?;
    read_at(bands, Component::C2, coded.c2, y + c, numbers)?;
    Ok(())
}

// Reads a component's block to the numbers from one of them on.
fn read_at(
    bands: &SliceBands,
    c: Component,
    block: &[u8],
    from: usize,
    numbers: &mut [i32],
) -> Result<(), TooWide>
    requires room { from + coefficient_count bands.now.parts.now c + 8 ≤ length numbers.old }
    ensures on { OnOk result ((i : ℕ) → i < coefficient_count bands.now.parts.now c
        → line_of numbers.new (from + i) ≡ line_of (coefficients_of_block bands.now c block.now) i) }
    ensures off { (i : ℕ) → i < from → line_of numbers.new i ≡ line_of numbers.old i }
    ensures sound { OnOk result
        (list_any is_large (coefficients_of_block bands.now c block.now) ≡ false) }
{
    read_narrow(bands, c, block, &mut numbers[from..])
}
