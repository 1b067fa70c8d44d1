ghost use Rattle.std.specs.Prelude.{◌≡◌, ◌<◌, ◌≤◌, ℕ, IfOk, IfErr, OnOk, length};
ghost use Rattle.vc_types.specs.Lifting.{line_of};
ghost use Rattle.vc_lowdelay.specs.Bands.{value_in};
ghost use Rattle.vc_lowdelay.specs.Components.{AreGrown, AreRead, Follow, FollowsLarge, IsBehind};
ghost use Rattle.vc_lowdelay.specs.Components.{ReadsLargeOf};
ghost use Rattle.vc_lowdelay.specs.OfBands.{AreLowest, IsLargeSlice, IsLowestOf, IsSliceOf};
ghost use Rattle.vc_lowdelay.specs.OfBands.{lowest_at, lowest_count, parameters_in};
ghost use Rattle.vc_lowdelay.specs.Refusals.{IsRefusalFor};

use crate::bands::{LowestBand, LowestBands, area_of, cell_of, lowest_rect};
use crate::coefficient::next_of;
use crate::refusal::LowRefusal;
use crate::slice::LowSlice;
use std::alloc::Global;
use vc_bits::Block;
use vc_geometry::bands as band_count;
use vc_quant::Quantiser;
use vc_slice::{SliceBands, SliceCoeffs};
use vc_types::Component;

/// The coefficients of a slice in 64 bits each, those of LL as they have grown.
pub(crate) fn wide_coefficients(
    alloc: Global,
    bands: &SliceBands,
    coded: &LowSlice<'_>,
    lowest: &LowestBands,
) -> Result<SliceCoeffs, LowRefusal>
    requires index { bands.now.index ≡ coded.now.index }
    requires lowest { AreLowest (parameters_in bands.now) lowest.now }
    ensures value { IfOk result (IsSliceOf bands.now coded.now lowest.now) }
    ensures refused { IfErr result (IsRefusalFor (IsLargeSlice bands.now coded.now)) }
{
    let y = wide_component(alloc, bands, Component::Y, &coded.luma, &lowest.y)?;
    let c1 = wide_component(alloc, bands, Component::C1, &coded.colour, &lowest.c1)?;
    let c2 = wide_component(alloc, bands, Component::C2, &coded.colour, &lowest.c2)?;
    Ok(SliceCoeffs::joined(alloc, &y, &c1, &c2)?)
}

// The coefficients of a component that its block stands for, those of LL as they have grown.
fn wide_component(
    alloc: Global,
    bands: &SliceBands,
    c: Component,
    block: &Block<'_>,
    lowest: &LowestBand,
) -> Result<Vec<i64>, LowRefusal>
    requires lowest { IsLowestOf bands.now c lowest.now }
    ensures value { IfOk result
        (λ made. AreGrown bands.now c block.now (value_in lowest.now) made.items) }
    ensures refused { IfErr result (IsRefusalFor (ReadsLargeOf bands.now c block.now)) }
{
    let mut coefficients = read_component(alloc, bands, c, block)?;
    put_lowest(bands, c, lowest, &mut coefficients);
    Ok(coefficients)
}

// The coefficients of a component that its block stands for.
fn read_component(
    alloc: Global,
    bands: &SliceBands,
    c: Component,
    block: &Block<'_>,
) -> Result<Vec<i64>, LowRefusal>
    ensures value { IfOk result (λ read. AreRead bands.now c block.now read.items) }
    ensures refused { IfErr result (IsRefusalFor (ReadsLargeOf bands.now c block.now)) }
{
    let mut coefficients = Vec::with_capacity(alloc, bands.parts.count(c) as usize)?;
    let mut left = block.copy();
    for b in 0..band_count(&bands.parts.plan) {
        let count = bands.parts.area(c, b);
        read_subband(&mut left, c, count, &bands.quantiser(b), &mut coefficients)?;
    }
    Ok(coefficients)
}

// Reads so many coefficients of a component, and puts them behind others.
fn read_subband(
    block: &mut Block,
    c: Component,
    count: u32,
    quantiser: &Quantiser,
    coefficients: &mut Vec<i64>,
) -> Result<(), LowRefusal>
    ensures read { OnOk result (Follow c count block.old quantiser.now.index
        coefficients.old.items coefficients.new.items) }
    ensures rest { OnOk result (IsBehind c count block.old block.new) }
    ensures refused { IfErr result
        (IsRefusalFor (FollowsLarge c count block.old quantiser.now.index)) }
{
    for _i in 0..count {
        let value = next_of(block, c, quantiser)?;
        coefficients.push(value)?;
    }
    Ok(())
}

// Puts what a slice has of LL to the front of coefficients.
fn put_lowest(bands: &SliceBands, c: Component, lowest: &LowestBand, coefficients: &mut [i64])
    requires lowest { IsLowestOf bands.now c lowest.now }
    requires room { lowest_count bands.now c ≤ length coefficients.old }
    ensures on { (i : ℕ) → i < lowest_count bands.now c
        → line_of coefficients.new i ≡ lowest_at bands.now c (value_in lowest.now) i }
    ensures off { (i : ℕ) → lowest_count bands.now c ≤ i
        → line_of coefficients.new i ≡ line_of coefficients.old i }
{
    let rect = lowest_rect(&bands.parts.plan, c, bands.parts.slice);
    for i in 0..area_of(&rect) {
        let (x, y) = cell_of(&rect, i);
        coefficients[i as usize] = lowest.get(x, y);
    }
}
