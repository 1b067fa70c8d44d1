ghost use Rattle.std.specs.Prelude.{◌≡◌, ◌+◌, ◌<◌, ◌≤◌, ℕ, length, false, Some, Ok, OnOk};
ghost use Rattle.std.specs.List.{list_any};
ghost use Rattle.vc_types.specs.declared.video.Component.{Component};
ghost use Rattle.vc_types.specs.declared.video.Component.TheVariants.{Y, C1, C2};
ghost use Rattle.vc_types.specs.Slices.{decoded_slice, in_range, is_large, slice_length};
ghost use Rattle.vc_types.specs.TransformParameters.{parameters_of};
ghost use Rattle.vc_types.specs.OfPlan.{slice_coefficients};
ghost use Rattle.vc_slice.specs.Bands.{coefficient_count, coefficients_of_block, coefficients_of_slice};
ghost use Rattle.vc_slice.specs.Coded.{coded_of};
ghost use Rattle.vc_slice.specs.RunSlices.{ArePartsOfRun, ChangesStrip, FillsStrip, slice_of_strip};
ghost use Rattle.vc_slice.specs.RunSlices.{strip_length};

use crate::bands::{SliceBands, SliceParts};
use crate::coded::{CodedSlice, coded_slice};
use crate::narrow::{TooWide, read_numbers};
use crate::run_parts::RunParts;
use crate::strip_parts::strip_numbers;
use vc_types::{Component, Plan};

/// The parts of one whole slice.
#[tactic(auto, unfolding(vc_types::specs::Slices::slice_coefficients, vc_types::specs::Slices::slice_length))]
pub fn parts_of<'a>(plan: &Plan, bytes: &'a [u8]) -> CodedSlice<'a>
    requires whole { slice_length plan.now.prefix plan.now.scaler bytes.now
        ≡ Some (length bytes.now) }
    ensures decoded { (n : ℕ) → slice_coefficients plan.now n bytes.now
        ≡ decoded_slice (parameters_of plan.now) n (coded_of result) }
{
    let Some((coded, _)) = coded_slice(plan.prefix, plan.scaler, bytes) else {
        unreachable!();
    };
    coded
}

/// Decodes a slice of a run to its places in the strip. TooWide where it is unsound or may be wide; only its
/// own places were changed then.
pub(crate) fn put_slice(
    run: &RunParts,
    parts: &SliceParts,
    bytes: &[u8],
    numbers: &mut [i32],
    y: &mut [i32],
    c1: &mut [i32],
    c2: &mut [i32],
) -> Result<(), TooWide>
    requires own { ArePartsOfRun run.now parts.now }
    requires whole { slice_length parts.now.plan.prefix parts.now.plan.scaler bytes.now
        ≡ Some (length bytes.now) }
    requires room { (c : Component) → coefficient_count parts.now c + 8 ≤ length numbers.old }
    requires y { length y.old ≡ strip_length run.now Y }
    requires c1 { length c1.old ≡ strip_length run.now C1 }
    requires c2 { length c2.old ≡ strip_length run.now C2 }
    ensures y { ChangesStrip run.now parts.now Y y.old y.new }
    ensures c1 { ChangesStrip run.now parts.now C1 c1.old c1.new }
    ensures c2 { ChangesStrip run.now parts.now C2 c2.old c2.new }
    ensures value { OnOk result
        (slice_coefficients run.now.plan parts.now.slice bytes.now
        ≡ Ok (slice_of_strip run.now (record { y = y.new; c1 = c1.new; c2 = c2.new })
        parts.now.slice)) }
{
    let coded = parts_of(&parts.plan, bytes);
    if coded.index > 127 {
        return Err(TooWide);
    }
    strip_blocks(run, parts, &coded, numbers, y, c1, c2)
}

fn strip_blocks(
    run: &RunParts,
    parts: &SliceParts,
    coded: &CodedSlice<'_>,
    numbers: &mut [i32],
    y: &mut [i32],
    c1: &mut [i32],
    c2: &mut [i32],
) -> Result<(), TooWide>
    requires own { ArePartsOfRun run.now parts.now }
    requires index { coded.now.index ≤ 127 }
    requires room { (c : Component) → coefficient_count parts.now c + 8 ≤ length numbers.old }
    requires y { length y.old ≡ strip_length run.now Y }
    requires c1 { length c1.old ≡ strip_length run.now C1 }
    requires c2 { length c2.old ≡ strip_length run.now C2 }
    ensures y { ChangesStrip run.now parts.now Y y.old y.new }
    ensures c1 { ChangesStrip run.now parts.now C1 c1.old c1.new }
    ensures c2 { ChangesStrip run.now parts.now C2 c2.old c2.new }
    ensures filled { OnOk result (
        FillsStrip run.now parts.now Y (coefficients_of_slice parts.now (coded_of coded.now)).y y.old y.new
        × FillsStrip run.now parts.now C1
        (coefficients_of_slice parts.now (coded_of coded.now)).c1 c1.old c1.new
        × FillsStrip run.now parts.now C2
        (coefficients_of_slice parts.now (coded_of coded.now)).c2 c2.old c2.new) }
    ensures sound { OnOk result
        (in_range (coefficients_of_slice parts.now (coded_of coded.now))
        ≡ Ok (coefficients_of_slice parts.now (coded_of coded.now))) }
{
    let bands = SliceBands::new(parts, coded.index);
    strip_block(run, &bands, Component::Y, coded.y, numbers, y)?;
    strip_block(run, &bands, Component::C1, coded.c1, numbers, c1)?;
    strip_block(run, &bands, Component::C2, coded.c2, numbers, c2)
}

fn strip_block(
    run: &RunParts,
    bands: &SliceBands,
    c: Component,
    block: &[u8],
    numbers: &mut [i32],
    strip: &mut [i32],
) -> Result<(), TooWide>
    requires own { ArePartsOfRun run.now bands.now.parts.now }
    requires room { coefficient_count bands.now.parts.now c + 8 ≤ length numbers.old }
    requires strip { length strip.old ≡ strip_length run.now c }
    ensures only { ChangesStrip run.now bands.now.parts.now c strip.old strip.new }
    ensures filled { OnOk result (FillsStrip run.now bands.now.parts.now c
        (coefficients_of_block bands.now c block.now) strip.old strip.new) }
    ensures sound { OnOk result
        (list_any is_large (coefficients_of_block bands.now c block.now) ≡ false) }
{
    let greatest = read_numbers(bands, c, block, numbers)?;
    strip_numbers(run, bands, c, numbers, greatest, strip)
}
