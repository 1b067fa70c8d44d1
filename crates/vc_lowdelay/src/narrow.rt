ghost use Rattle.std.specs.Prelude.{◌≡◌, ◌+◌, ◌*◌, ◌<◌, ◌≤◌, ℕ, All, IfOk, OnOk, length, unsigned_abs};
ghost use Rattle.vc_types.specs.declared.video.Component.TheVariants.{Y, C1, C2};
ghost use Rattle.vc_types.specs.Lifting.{line_of};
ghost use Rattle.vc_types.specs.TransformParameters.{parameters_of};
ghost use Rattle.vc_golomb.specs.Numbers.{number_at};
ghost use Rattle.vc_slice.specs.Bands.{coefficient_count};
ghost use Rattle.picture_build.specs.Kept.{AllAreIn};
ghost use Rattle.picture_build.specs.PartsKept.{AreCells, FillsPart, PutsCoefficients};
ghost use Rattle.vc_lowdelay.specs.Coded.{slice_of};
ghost use Rattle.vc_lowdelay.specs.Grown.{IsSound};
ghost use Rattle.vc_lowdelay.specs.LowDelay.{low_coefficients, low_slices};
ghost use Rattle.vc_lowdelay.specs.InRoom.{HasCells};
ghost use Rattle.vc_lowdelay.specs.OfBands.{parameters_in, read_in, turn_of, turned_in};
ghost use Rattle.vc_lowdelay.specs.OfPlan.{low_parameters_of, picture_size};

use crate::plan::LowPlan;
use crate::refusal::NarrowFault;
use crate::room::{LowRoom, at_least};
use crate::slice::LowSlice;
use picture_build::put_dequantised;
use std::alloc::Global;
use vc_bits::Block;
use vc_golomb::read_sints;
use vc_slice::{SliceBands, SliceParts, TooWide};
use vc_types::Component;

// From here on factors have more than 20 binary digits.
const LARGE_INDEX: u8 = 80;

// The numbers of both colours in turn, and at least the magnitude of each.
#[derive(Clone, Copy)]
struct Turns<'a> {
    numbers: &'a [i32],
    greatest: u32,
}

/// Puts the coefficients of all slices of these bytes at their places in the cells of the three components,
/// 32 bits each.
pub(crate) fn put_slices(
    alloc: Global,
    p: &LowPlan,
    bytes: &[u8],
    room: &mut LowRoom,
) -> Result<(), NarrowFault>
    requires whole { picture_size p.now ≤ length bytes.now }
    requires room { HasCells p.now.plan room.old }
    ensures { OnOk result (AllAreIn (parameters_of p.now.plan)
        (low_slices (low_parameters_of p.now) bytes.now)
        room.new.y.items room.new.c1.items room.new.c2.items) }
{
    for slice in 0..p.slice_count() {
        let coded = LowSlice::new(p.slice_bytes(slice, bytes));
        let parts = SliceParts::new(&p.plan, slice);
        let bands = SliceBands::new(&parts, coded.index);
        put_slice(alloc, &bands, &coded, room)?;
    }
    Ok(())
}

// Puts the coefficients of a slice at their places.
fn put_slice(
    alloc: Global,
    bands: &SliceBands,
    coded: &LowSlice<'_>,
    room: &mut LowRoom,
) -> Result<(), NarrowFault>
    requires index { bands.now.index ≡ coded.now.index }
    requires y { AreCells bands.now.parts.now Y room.old.y.items }
    requires c1 { AreCells bands.now.parts.now C1 room.old.c1.items }
    requires c2 { AreCells bands.now.parts.now C2 room.old.c2.items }
    ensures y { OnOk result (FillsPart bands.now.parts.now Y
        (low_coefficients (parameters_in bands.now) bands.now.parts.now.slice (slice_of coded.now) Y)
        room.old.y.items room.new.y.items) }
    ensures c1 { OnOk result (FillsPart bands.now.parts.now C1
        (low_coefficients (parameters_in bands.now) bands.now.parts.now.slice (slice_of coded.now) C1)
        room.old.c1.items room.new.c1.items) }
    ensures c2 { OnOk result (FillsPart bands.now.parts.now C2
        (low_coefficients (parameters_in bands.now) bands.now.parts.now.slice (slice_of coded.now) C2)
        room.old.c2.items room.new.c2.items) }
    ensures sound { OnOk result
        (IsSound (parameters_in bands.now) bands.now.parts.now.slice (slice_of coded.now)) }
{
    let y = bands.parts.count(Component::Y) as usize;
    let c = bands.parts.count(Component::C1) as usize;
    at_least(alloc, &mut room.numbers, y.max(c) + 8)?;
    at_least(alloc, &mut room.turns, 2 * c + 8)?;
    put_luma(bands, &coded.luma, &mut room.numbers, &mut room.y)?;
    put_colours(
        bands,
        &coded.colour,
        &mut room.turns,
        &mut room.numbers,
        &mut room.c1,
        &mut room.c2,
    )?;
    Ok(())
}

// Puts luma's coefficients at their places. The numbers are room to work in.
fn put_luma(
    bands: &SliceBands,
    block: &Block<'_>,
    numbers: &mut [i32],
    cells: &mut Vec<i32>,
) -> Result<(), TooWide>
    requires room { coefficient_count bands.now.parts.now Y + 8 ≤ length numbers.old }
    requires cells { AreCells bands.now.parts.now Y cells.old.items }
    ensures { OnOk result (PutsCoefficients bands.now Y (read_in bands.now Y block.now)
        cells.old.items cells.new.items) }
{
    let count = bands.parts.count(Component::Y) as usize;
    let greatest = read_block(bands.index, block, count, numbers)?;
    put_dequantised(bands, Component::Y, numbers, greatest, cells)
}

// Puts those of both colours, whose numbers take turns, at their places.
fn put_colours(
    bands: &SliceBands,
    block: &Block<'_>,
    turns: &mut [i32],
    numbers: &mut [i32],
    c1: &mut Vec<i32>,
    c2: &mut Vec<i32>,
) -> Result<(), TooWide>
    requires turns { 2 * coefficient_count bands.now.parts.now C1 + 8 ≤ length turns.old }
    requires room { coefficient_count bands.now.parts.now C1 ≤ length numbers.old }
    requires c1 { AreCells bands.now.parts.now C1 c1.old.items }
    requires c2 { AreCells bands.now.parts.now C2 c2.old.items }
    ensures c1 { OnOk result (PutsCoefficients bands.now C1 (read_in bands.now C1 block.now)
        c1.old.items c1.new.items) }
    ensures c2 { OnOk result (PutsCoefficients bands.now C2 (read_in bands.now C2 block.now)
        c2.old.items c2.new.items) }
{
    let count = bands.parts.count(Component::C1) as usize;
    let greatest = read_block(bands.index, block, 2 * count, turns)?;
    let read = Turns {
        numbers: turns,
        greatest,
    };
    put_colour(bands, Component::C1, &read, numbers, c1)?;
    put_colour(bands, Component::C2, &read, numbers, c2)
}

// Puts the coefficients of a colour component at their places. The numbers are room to work in.
fn put_colour(
    bands: &SliceBands,
    c: Component,
    turns: &Turns<'_>,
    numbers: &mut [i32],
    cells: &mut Vec<i32>,
) -> Result<(), TooWide>
    requires turns { 2 * coefficient_count bands.now.parts.now c ≤ length turns.now.numbers.now }
    requires greatest { (i : ℕ) → i < 2 * coefficient_count bands.now.parts.now c
        → unsigned_abs (line_of turns.now.numbers.now i) ≤ turns.now.greatest }
    requires room { coefficient_count bands.now.parts.now c ≤ length numbers.old }
    requires cells { AreCells bands.now.parts.now c cells.old.items }
    ensures { OnOk result (PutsCoefficients bands.now c
        (turned_in bands.now c turns.now.numbers.now) cells.old.items cells.new.items) }
{
    take_turns(turns.numbers, first_turn(c), bands.parts.count(c), numbers);
    put_dequantised(bands, c, numbers, turns.greatest, cells)
}

// Which of both numbers at a place of the colours' block is the component's.
fn first_turn(c: Component) -> usize
    ensures value { result ≡ turn_of c }
    ensures range { result ≤ 1 }
{
    match c {
        Component::Y | Component::C1 => 0,
        Component::C2 => 1,
    }
}

// Puts every other number, so many, to the front of others, from the first one or the second one on.
fn take_turns(turns: &[i32], first: usize, count: u32, numbers: &mut [i32])
    requires first { first ≤ 1 }
    requires turns { 2 * count ≤ length turns.now }
    requires room { count ≤ length numbers.old }
    ensures { (i : ℕ) → i < count → line_of numbers.new i ≡ line_of turns.now (2 * i + first) }
{
    for i in 0..count as usize {
        numbers[i] = turns[2 * i + first];
    }
}

// Reads the next numbers of a block, so many, to the front of others, which have room for eight more: a bound
// of their magnitudes.
fn read_block(
    index: u8,
    block: &Block<'_>,
    count: usize,
    numbers: &mut [i32],
) -> Result<u32, TooWide>
    requires room { count + 8 ≤ length numbers.old }
    ensures numbers { OnOk result ((i : ℕ) → i < count
        → line_of numbers.new i ≡ number_at block.now i) }
    ensures most { IfOk result
        (λ most. (i : ℕ) → i < count → unsigned_abs (line_of numbers.new i) ≤ most) }
{
    let Ok(most) = read_sints(block, count, numbers) else {
        return Err(TooWide);
    };
    // Where factors are large, a closer bound may let the numbers stay narrow.
    if index < LARGE_INDEX {
        Ok(most)
    } else {
        Ok(greatest(&numbers[..count]))
    }
}

// At least the magnitude of each number.
fn greatest(numbers: &[i32]) -> u32
    ensures { All (λ z. unsigned_abs z ≤ result) numbers.now }
{
    let mut seen = 0u32;
    for number in numbers {
        seen = seen.max(number.unsigned_abs());
    }
    seen
}
