//! Rows of planes that are transformed in 32 bits.
ghost use Rattle.std.specs.Prelude.{◌≡◌, ◌^◌, ◌<◌, All, IfOk};
ghost use Rattle.vc_types.specs.Subbands.{plane_width, plane_height, plane_depth};

use crate::planes::{format_of, is_alike, plane_of};
use crate::plans::{PlannedPlane, planned};
use crate::said::Said;
use crate::words::{natural, short_numbers, weighed};
use std::alloc::Global;
use vc_geometry::padded;
use vc_types::Plane;
use vc_wave::{
    Nesting, forward_fits_narrow, forward_narrow, forward_room_len, inverse_output, nesting_of,
    room_len, row_in_turn,
};
use worked_common::Bad;

// The samples of coefficients, which stand row by row in nested subbands, if 32 bits are enough.
fn put_out(alloc: Global, of: &PlannedPlane, nested: &[i32]) -> Result<Option<Vec<u16>>, Bad> {
    let (width, height) = padded(&of.plan, of.component);
    if nested.len() != height as usize * width as usize {
        return Err(Bad::NoRow);
    }
    let format = format_of(&of.plan, of.component);
    let mut room = vec![in alloc; 7i32; room_len(&of.plan, of.component)]?;
    let mut made = vec![in alloc; 7u16; format.rows * format.columns]?;
    let fits = inverse_output(
        &of.plan,
        of.component,
        nested,
        room.as_mut_slice(),
        made.as_mut_slice(),
        format,
    );
    Ok(if fits { Some(made) } else { None })
}

/// The samples of coefficients, clipped, in 32 bits, or that these aren't enough.
pub(crate) fn outputs(given: &str, said: &mut Said) -> Result<(), Bad> {
    let (planned, cells) = planned(said.alloc(), given)?;
    let nested = short_numbers(said.alloc(), cells)?;
    match put_out(said.alloc(), &planned, nested.as_slice())? {
        Some(made) => said.words(made.as_slice()),
        None => said.word("wide"),
    }
    Ok(())
}

// The next of the numbers that say which sign, or which end, comes.
fn after(number: u32) -> u32 {
    number.wrapping_mul(1_664_525).wrapping_add(1_013_904_223)
}

// So many cells, which are a number or its opposite, as they come.
fn extreme_cells(alloc: Global, count: u32, most: i32) -> Result<Vec<i32>, Bad> {
    let mut cells = Vec::new(alloc);
    let mut next = 1u32;
    for _ in 0..count {
        next = after(next);
        cells.push(if next >> 31 == 0 {
            most
        } else {
            most.wrapping_neg()
        })?;
    }
    Ok(cells)
}

fn cell_at(cells: &[i32], columns: usize, x: usize, row: usize) -> Result<i32, Bad> {
    match cells.get(row.wrapping_mul(columns).wrapping_add(x)) {
        Some(cell) => Ok(*cell),
        None => Err(Bad::NoRow),
    }
}

// The same coefficients, whose rows are taken in turn, row by row in nested subbands.
fn nested(alloc: Global, of: &PlannedPlane, cells: &[i32]) -> Result<Vec<i32>, Bad> {
    let (width, height) = padded(&of.plan, of.component);
    let (columns, rows) = (width as usize, height as usize);
    let mut nested = Vec::new(alloc);
    for y in 0..rows {
        for x in 0..columns {
            let row = row_in_turn(nesting_of(&of.plan, of.component), x, y);
            nested.push(cell_at(cells, columns, x, row)?)?;
        }
    }
    Ok(nested)
}

// The coefficients that are all so large, whose rows are taken in turn.
fn extremes(alloc: Global, of: &PlannedPlane, most: i32) -> Result<Vec<i32>, Bad> {
    let (width, height) = padded(&of.plan, of.component);
    let turned = extreme_cells(alloc, width * height, most)?;
    nested(alloc, of, turned.as_slice())
}

/// The sum of each sample times its place where all coefficients, whose rows are taken in turn, are so
/// large, or that 32 bits aren't enough.
pub(crate) fn extreme_outputs(given: &str, said: &mut Said) -> Result<(), Bad> {
    let (planned, most) = planned(said.alloc(), given)?;
    let Ok(most) = i32::try_from(natural(most)?) else {
        return Err(Bad::NoRow);
    };
    let cells = extremes(said.alloc(), &planned, most)?;
    match put_out(said.alloc(), &planned, cells.as_slice())? {
        Some(made) => said.word(weighed(made.as_slice())),
        None => said.word("wide"),
    }
    Ok(())
}

// The coefficients of a plane row by row in nested subbands, if 32 bits are enough.
fn parted_plane(alloc: Global, of: &PlannedPlane, plane: &Plane) -> Result<Option<Vec<i32>>, Bad>
    requires width { plane.now.width ≡ plane_width of.now.plan.shape of.now.component }
    requires height { plane.now.height ≡ plane_height of.now.plan.shape of.now.component }
    requires samples { All
        (λ s. s < 2 ^ plane_depth of.now.plan.shape of.now.component) plane.now.samples }
{
    if !is_alike(&of.plan) {
        return Err(Bad::NoRow);
    }
    if !forward_fits_narrow(&of.plan, of.component) {
        return Ok(None);
    }
    let (width, height) = padded(&of.plan, of.component);
    let (columns, rows) = (width as usize, height as usize);
    let mut cells = vec![in alloc; 7i32; rows * columns]?;
    let mut room = vec![in alloc; 7i32; forward_room_len(&of.plan, of.component)]?;
    forward_narrow(
        &of.plan,
        of.component,
        plane,
        cells.as_mut_slice(),
        room.as_mut_slice(),
    );
    Ok(Some(nested(alloc, of, cells.as_slice())?))
}

// So many samples, which are 0 or the greatest, as they come.
fn extreme_samples(alloc: Global, count: usize, most: u16) -> Result<Vec<u16>, Bad> {
    let mut samples = Vec::new(alloc);
    let mut next = 1u32;
    for _ in 0..count {
        next = after(next);
        samples.push(if next >> 31 == 0 { most } else { 0 })?;
    }
    Ok(samples)
}

/// The sum of each coefficient times its place where the samples are as far apart as they may be, or that
/// 32 bits aren't enough.
pub(crate) fn extreme_forwards(given: &str, said: &mut Said) -> Result<(), Bad> {
    let (planned, _) = planned(said.alloc(), given)?;
    let format = format_of(&planned.plan, planned.component);
    let most = u16::MAX >> (16 - format.depth);
    let extreme = extreme_samples(said.alloc(), format.columns * format.rows, most)?;
    let plane = plane_of(&planned, extreme)?;
    match parted_plane(said.alloc(), &planned, &plane)? {
        Some(cells) => said.word(weighed(cells.as_slice())),
        None => said.word("wide"),
    }
    Ok(())
}
