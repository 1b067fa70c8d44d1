ghost use Rattle.std.specs.Prelude.{◌≡◌, ◌+◌, ◌-◌, ◌*◌, ◌<◌, ◌≤◌, IfOk, IfErr, OnOk, OnErr, length};
ghost use Rattle.std.specs.Prelude.{slice_index_or, true};
ghost use Rattle.vc_types.specs.declared.video.Component.TheVariants.{Y, C1, C2};
ghost use Rattle.vc_types.specs.OfPlan.{slice_count as slices_of};
ghost use Rattle.vc_types.specs.Subbands.{area};
ghost use Rattle.vc_types.specs.TransformParameters.{parameters_of};
ghost use Rattle.vc_lowdelay.specs.Bands.{IsGrown, IsLowest, lowest_rectangle};
ghost use Rattle.vc_lowdelay.specs.Coded.{slice_of};
ghost use Rattle.vc_lowdelay.specs.LowDelay.{are_large, low_slices};
ghost use Rattle.vc_lowdelay.specs.OfPlan.{low_parameters_of, picture_size};
ghost use Rattle.vc_lowdelay.specs.Placed.{coefficient_at, HasLargeIn, Places, ReadsLarge, read_at};
ghost use Rattle.vc_lowdelay.specs.Refusals.{IsRefusalFor};

use crate::bands::{LowestBand, LowestBands, area_of, cell_of, lowest_rect};
use crate::coefficient::next_value;
use crate::plan::LowPlan;
use crate::refusal::{LargeValue, LowRefusal};
use crate::slice::LowSlice;
use std::alloc::Global;
use vc_quant::Quantiser;
use vc_types::{Component, Plan};

/// LL of the components of a picture, as it has grown. Nothing else of the slices is read.
pub(crate) fn grown_bands(
    alloc: Global,
    p: &LowPlan,
    bytes: &[u8],
) -> Result<LowestBands, LowRefusal>
    requires { picture_size p.now ≤ length bytes.now }
    ensures y { IfOk result (λ bands. IsGrown (parameters_of p.now.plan) Y
        (low_slices (low_parameters_of p.now) bytes.now) bands.y) }
    ensures c1 { IfOk result (λ bands. IsGrown (parameters_of p.now.plan) C1
        (low_slices (low_parameters_of p.now) bytes.now) bands.c1) }
    ensures c2 { IfOk result (λ bands. IsGrown (parameters_of p.now.plan) C2
        (low_slices (low_parameters_of p.now) bytes.now) bands.c2) }
    ensures refused { IfErr result (IsRefusalFor (are_large (parameters_of p.now.plan)
        (low_slices (low_parameters_of p.now) bytes.now) ≡ true)) }
{
    let mut bands = LowestBands::new(alloc, &p.plan)?;
    for slice in 0..p.slice_count() {
        let coded = LowSlice::new(p.slice_bytes(slice, bytes));
        put_slice(&p.plan, slice, &coded, &mut bands)?;
    }
    bands.y.grow()?;
    bands.c1.grow()?;
    bands.c2.grow()?;
    Ok(bands)
}

// Puts what a slice has of LL into its places.
fn put_slice(
    plan: &Plan,
    slice: u32,
    coded: &LowSlice<'_>,
    bands: &mut LowestBands,
) -> Result<(), LargeValue>
    requires slice { slice < slices_of plan.now }
    requires y { IsLowest (parameters_of plan.now) Y bands.old.y }
    requires c1 { IsLowest (parameters_of plan.now) C1 bands.old.c1 }
    requires c2 { IsLowest (parameters_of plan.now) C2 bands.old.c2 }
    ensures y { OnOk result (Places (parameters_of plan.now) Y slice
        (coefficient_at (parameters_of plan.now) slice (slice_of coded.now) Y)
        bands.old.y bands.new.y) }
    ensures c1 { OnOk result (Places (parameters_of plan.now) C1 slice
        (coefficient_at (parameters_of plan.now) slice (slice_of coded.now) C1)
        bands.old.c1 bands.new.c1) }
    ensures c2 { OnOk result (Places (parameters_of plan.now) C2 slice
        (coefficient_at (parameters_of plan.now) slice (slice_of coded.now) C2)
        bands.old.c2 bands.new.c2) }
    ensures large { OnErr result
        (HasLargeIn (parameters_of plan.now) slice (slice_of coded.now)) }
{
    let quantiser = lowest_quantiser(plan, coded.index);
    put_luma(plan, slice, coded, &quantiser, &mut bands.y)?;
    put_colours(plan, slice, coded, &quantiser, &mut bands.c1, &mut bands.c2)?;
    Ok(())
}

// The quantiser of LL in a slice of this index.
fn lowest_quantiser(plan: &Plan, index: u8) -> Quantiser
    requires { index ≤ 127 }
    ensures { result.index ≡ index - slice_index_or plan.now.matrix 0 0 }
{
    Quantiser::new(index.saturating_sub(plan.matrix[0]))
}

// The same of luma, whose numbers stand in a block of their own.
fn put_luma(
    plan: &Plan,
    slice: u32,
    coded: &LowSlice<'_>,
    quantiser: &Quantiser,
    band: &mut LowestBand,
) -> Result<(), LargeValue>
    requires slice { slice < slices_of plan.now }
    requires band { IsLowest (parameters_of plan.now) Y band.old }
    ensures placed { OnOk result (Places (parameters_of plan.now) Y slice
        (read_at coded.now.luma quantiser.now.index) band.old band.new) }
    ensures large { OnErr result (ReadsLarge
        (area (lowest_rectangle (parameters_of plan.now) Y slice))
        coded.now.luma quantiser.now.index) }
{
    let rect = lowest_rect(plan, Component::Y, slice);
    let mut block = coded.luma.copy();
    for i in 0..area_of(&rect) {
        let (x, y) = cell_of(&rect, i);
        let value = next_value(&mut block, quantiser)?;
        band.put(x, y, value);
    }
    Ok(())
}

// The same of both colours, whose numbers take turns in one block.
fn put_colours(
    plan: &Plan,
    slice: u32,
    coded: &LowSlice<'_>,
    quantiser: &Quantiser,
    c1: &mut LowestBand,
    c2: &mut LowestBand,
) -> Result<(), LargeValue>
    requires slice { slice < slices_of plan.now }
    requires c1 { IsLowest (parameters_of plan.now) C1 c1.old }
    requires c2 { IsLowest (parameters_of plan.now) C2 c2.old }
    ensures c1 { OnOk result (Places (parameters_of plan.now) C1 slice
        (λ i. read_at coded.now.colour quantiser.now.index (2 * i)) c1.old c1.new) }
    ensures c2 { OnOk result (Places (parameters_of plan.now) C2 slice
        (λ i. read_at coded.now.colour quantiser.now.index (2 * i + 1)) c2.old c2.new) }
    ensures large { OnErr result (ReadsLarge
        (2 * area (lowest_rectangle (parameters_of plan.now) C1 slice))
        coded.now.colour quantiser.now.index) }
{
    let rect = lowest_rect(plan, Component::C1, slice);
    let mut block = coded.colour.copy();
    for i in 0..area_of(&rect) {
        let (x, y) = cell_of(&rect, i);
        let first = next_value(&mut block, quantiser)?;
        c1.put(x, y, first);
        let second = next_value(&mut block, quantiser)?;
        c2.put(x, y, second);
    }
    Ok(())
}
