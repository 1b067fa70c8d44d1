ghost use Rattle.std.specs.Prelude.{◌≡◌, ◌++◌, ◌+◌, ◌*◌, ◌^◌, ◌<◌, ◌≤◌, ℕ, All};
ghost use Rattle.std.specs.Prelude.{OnOk, IfOk, length, unsigned_abs};
ghost use Rattle.picture_encode.specs.Copies.{HasCopy, HasRows, KeepsOthers};
ghost use Rattle.picture_encode.specs.Grids.{cells_of, rectangle_numbers};
ghost use Rattle.picture_encode.specs.PartsInGrids.{AreGrids, IsGrid, IsNarrowGrid, IsWideGrid};
ghost use Rattle.picture_encode.specs.PartsInGrids.{narrow_numbers, numbers_in, slice_in_grids};
ghost use Rattle.vc_slice.specs.Bands.{AreCoefficients, coefficient_count};
ghost use Rattle.vc_types.specs.declared.video.Component.TheVariants.{Y, C1, C2};
ghost use Rattle.vc_types.specs.Rasters.{cell_at};
ghost use Rattle.vc_types.specs.Subbands.{area};
ghost use Rattle.vc_types.specs.TransformParameters.{parameters_of};

use crate::grids::{ComponentGrid, PictureGrids};
use crate::rows::{SteppedRect, rows_from};
use std::alloc::Global;
use vc_geometry::{bands as band_count, padded};
use vc_slice::{SliceCoeffs, SliceParts};
use vc_types::{Component, Grid, NoMemory, Rect};
use vc_wave::nesting_of;

/// The coefficients of a slice, gathered out of a picture's grids: in the memory of numbers that are done
/// with, where 32 bits hold them.
pub(crate) fn gather(
    alloc: Global,
    used: Vec<i32>,
    parts: &SliceParts,
    grids: &PictureGrids,
) -> Result<SliceCoeffs, NoMemory>
    requires grids { AreGrids parts.now grids.now }
    ensures value { IfOk result (λ coeffs. coeffs ≡ slice_in_grids parts.now grids.now) }
    ensures whole { IfOk result (λ coeffs. AreCoefficients parts.now coeffs) }
{
    let coeffs = gathered(alloc, used, parts, grids)?;
    Ok(coeffs)
}

#[tactic(auto, unfolding(crate::specs::Grids::cells_of))]
fn gathered(
    alloc: Global,
    used: Vec<i32>,
    parts: &SliceParts,
    grids: &PictureGrids,
) -> Result<SliceCoeffs, NoMemory>
    requires { AreGrids parts.now grids.now }
    ensures { IfOk result (λ coeffs. coeffs ≡ slice_in_grids parts.now grids.now) }
{
    match (&grids.y, &grids.c1, &grids.c2) {
        (ComponentGrid::Narrow(y), ComponentGrid::Narrow(c1), ComponentGrid::Narrow(c2)) => {
            gather_narrow(used, parts, y, c1, c2)
        }
        _ => gather_any(alloc, parts, grids),
    }
}

// The same where all components are in 32 bits.
fn gather_narrow(
    used: Vec<i32>,
    parts: &SliceParts,
    y: &[i32],
    c1: &[i32],
    c2: &[i32],
) -> Result<SliceCoeffs, NoMemory>
    requires y { IsNarrowGrid parts.now Y y.now }
    requires c1 { IsNarrowGrid parts.now C1 c1.now }
    requires c2 { IsNarrowGrid parts.now C2 c2.now }
    ensures { IfOk result (λ coeffs. coeffs ≡ record {
      y = narrow_numbers parts.now Y y.now;
      c1 = narrow_numbers parts.now C1 c1.now;
      c2 = narrow_numbers parts.now C2 c2.now;
    }) }
{
    let of_y = parts.count(Component::Y) as usize;
    let of_c = parts.count(Component::C1) as usize;
    let mut numbers = used;
    numbers.resize(of_y + of_c + of_c, 0)?;
    copy_components(parts, y, c1, c2, &mut numbers);
    Ok(SliceCoeffs::narrow(numbers, of_y, of_c, of_c))
}

// Copies the numbers of a slice, one component after the other.
fn copy_components(parts: &SliceParts, y: &[i32], c1: &[i32], c2: &[i32], numbers: &mut [i32])
    requires y { IsNarrowGrid parts.now Y y.now }
    requires c1 { IsNarrowGrid parts.now C1 c1.now }
    requires c2 { IsNarrowGrid parts.now C2 c2.now }
    requires numbers { length numbers.old ≡ coefficient_count parts.now Y
        + coefficient_count parts.now C1 + coefficient_count parts.now C1 }
    ensures { numbers.new ≡ narrow_numbers parts.now Y y.now
        ++ narrow_numbers parts.now C1 c1.now ++ narrow_numbers parts.now C2 c2.now }
{
    let (for_y, for_colours) = numbers.split_at_mut(parts.count(Component::Y) as usize);
    let (for_c1, for_c2) = for_colours.split_at_mut(parts.count(Component::C1) as usize);
    copy_slice(parts, Component::Y, y, for_y);
    copy_slice(parts, Component::C1, c1, for_c1);
    copy_slice(parts, Component::C2, c2, for_c2);
}

// The same, however wide they are.
fn gather_any(
    alloc: Global,
    parts: &SliceParts,
    grids: &PictureGrids,
) -> Result<SliceCoeffs, NoMemory>
    requires { AreGrids parts.now grids.now }
    ensures { IfOk result (λ coeffs. coeffs ≡ slice_in_grids parts.now grids.now) }
{
    let y = gather_component(alloc, parts, Component::Y, &grids.y)?;
    let c1 = gather_component(alloc, parts, Component::C1, &grids.c1)?;
    let c2 = gather_component(alloc, parts, Component::C2, &grids.c2)?;
    let coeffs = SliceCoeffs::joined(alloc, &y, &c1, &c2)?;
    Ok(coeffs)
}

#[tactic(auto, unfolding(crate::specs::Grids::cells_of))]
fn gather_component(
    alloc: Global,
    parts: &SliceParts,
    c: Component,
    grid: &ComponentGrid,
) -> Result<Vec<i64>, NoMemory>
    requires { IsGrid parts.now c grid.now }
    ensures { IfOk result (λ coeffs. coeffs.items
        ≡ numbers_in parts.now c (cells_of (parameters_of parts.now.plan) c grid.now)) }
{
    match grid {
        ComponentGrid::Narrow(cells) => gather_widened(alloc, parts, c, cells),
        ComponentGrid::Wide(grid) => gather_wide(alloc, parts, c, grid),
    }
}

fn gather_wide(
    alloc: Global,
    parts: &SliceParts,
    c: Component,
    grid: &Grid,
) -> Result<Vec<i64>, NoMemory>
    requires { IsWideGrid parts.now c grid.now }
    ensures { IfOk result (λ coeffs. coeffs.items ≡ numbers_in parts.now c (cell_at grid.now)) }
{
    let mut coeffs = Vec::with_capacity(alloc, parts.count(c) as usize)?;
    for b in 0..band_count(&parts.plan) {
        push_rect(&mut coeffs, grid, &parts.rect(c, b))?;
    }
    Ok(coeffs)
}

// Adds the numbers of a rectangle of a grid, row by row.
fn push_rect(coeffs: &mut Vec<i64>, grid: &Grid, rect: &Rect) -> Result<(), NoMemory>
    requires across { rect.now.x + rect.now.width ≤ grid.now.width }
    requires down { rect.now.y + rect.now.height ≤ grid.now.height }
    requires small { All (λ z. unsigned_abs z < 2 ^ 60) grid.now.cells }
    ensures { OnOk result (coeffs.new.items
        ≡ coeffs.old.items ++ rectangle_numbers (cell_at grid.now) rect.now) }
{
    let (stride, width) = (grid.width() as usize, rect.width as usize);
    let cells = grid.cells();
    for row in 0..rect.height as usize {
        let at = (rect.y as usize + row) * stride + rect.x as usize;
        push_row(coeffs, &cells[at..at + width])?;
    }
    Ok(())
}

// Adds a row of small numbers.
fn push_row(coeffs: &mut Vec<i64>, cells: &[i128]) -> Result<(), NoMemory>
    requires small { All (λ z. unsigned_abs z < 2 ^ 60) cells.now }
    ensures { OnOk result (coeffs.new.items ≡ coeffs.old.items ++ cells.now) }
{
    for cell in cells {
        coeffs.push(*cell as i64)?;
    }
    Ok(())
}

fn gather_widened(
    alloc: Global,
    parts: &SliceParts,
    c: Component,
    cells: &[i32],
) -> Result<Vec<i64>, NoMemory>
    requires { IsNarrowGrid parts.now c cells.now }
    ensures { IfOk result (λ coeffs. coeffs.items ≡ narrow_numbers parts.now c cells.now) }
{
    let mut numbers = vec![in alloc; 0i32; parts.count(c) as usize]?;
    copy_slice(parts, c, cells, &mut numbers);
    widened(alloc, &numbers)
}

fn widened(alloc: Global, numbers: &[i32]) -> Result<Vec<i64>, NoMemory>
    ensures { IfOk result (λ wide. wide.items ≡ numbers.now) }
{
    let mut wide = Vec::with_capacity(alloc, numbers.len())?;
    for number in numbers {
        wide.push(i64::from(*number))?;
    }
    Ok(wide)
}

// Copies the numbers of a slice, rectangle by rectangle.
fn copy_slice(parts: &SliceParts, c: Component, cells: &[i32], coeffs: &mut [i32])
    requires grid { IsNarrowGrid parts.now c cells.now }
    requires coeffs { length coeffs.old ≡ coefficient_count parts.now c }
    ensures { coeffs.new ≡ narrow_numbers parts.now c cells.now }
{
    let (width, _) = padded(&parts.plan, c);
    let nesting = nesting_of(&parts.plan, c);
    let mut from = 0;
    for b in 0..band_count(&parts.plan) {
        let rect = parts.rect(c, b);
        let rows = rows_from(nesting, b, rect.y as usize);
        let source = SteppedRect {
            cells,
            stride: width as usize,
            rows,
            rect,
        };
        copy_rect(coeffs, from, &source);
        from += rect.width as usize * rect.height as usize;
    }
}

// Copies the numbers of a rectangle, row by row, to those from one of them on.
fn copy_rect(coeffs: &mut [i32], from: usize, source: &SteppedRect<'_>)
    requires { from + area source.now.rect ≤ length coeffs.old }
    ensures on { HasRows source.now from coeffs.new }
    ensures off { KeepsOthers from (area source.now.rect) coeffs.old coeffs.new }
{
    // Rows of these widths go over at once.
    match source.rect.width {
        1 => copy_rows(coeffs, from, source, 1),
        2 => copy_rows(coeffs, from, source, 2),
        4 => copy_rows(coeffs, from, source, 4),
        8 => copy_rows(coeffs, from, source, 8),
        16 => copy_rows(coeffs, from, source, 16),
        width => copy_rows(coeffs, from, source, width as usize),
    }
}

#[inline(always)]
fn copy_rows(coeffs: &mut [i32], from: usize, source: &SteppedRect<'_>, width: usize)
    requires width { width ≡ source.now.rect.width }
    requires from { from + area source.now.rect ≤ length coeffs.old }
    ensures on { HasRows source.now from coeffs.new }
    ensures off { KeepsOthers from (area source.now.rect) coeffs.old coeffs.new }
{
    let cells = source.cells;
    let stride = source.stride;
    let rows = source.rows;
    let rect = source.rect;
    for row in 0..rect.height as usize {
        let at = (rows.first + row * rows.step) * stride + rect.x as usize;
        copy_row(coeffs, from + row * width, cells, at, width);
    }
}

// Copies so many numbers, from one of them on, to those from another on.
#[inline(always)]
fn copy_row(coeffs: &mut [i32], at: usize, cells: &[i32], from: usize, width: usize)
    requires at { at + width ≤ length coeffs.old }
    requires from { from + width ≤ length cells.now }
    ensures on { HasCopy width at coeffs.new from cells.now }
    ensures off { KeepsOthers at width coeffs.old coeffs.new }
{
    if width <= 16 {
        copy_few(coeffs, at, cells, from, width);
    } else {
        copy_many(coeffs, at, cells, from, width);
    }
}

// All cells are read before a number is written, so that they go over at once.
#[inline(always)]
fn copy_few(coeffs: &mut [i32], at: usize, cells: &[i32], from: usize, width: usize)
    requires few { width ≤ 16 }
    requires at { at + width ≤ length coeffs.old }
    requires from { from + width ≤ length cells.now }
    ensures on { HasCopy width at coeffs.new from cells.now }
    ensures off { KeepsOthers at width coeffs.old coeffs.new }
{
    let mut few = [0; 16];
    for x in 0..width {
        few[x] = cells[from + x];
    }
    for x in 0..width {
        coeffs[at + x] = few[x];
    }
}

fn copy_many(coeffs: &mut [i32], at: usize, cells: &[i32], from: usize, width: usize)
    requires at { at + width ≤ length coeffs.old }
    requires from { from + width ≤ length cells.now }
    ensures on { HasCopy width at coeffs.new from cells.now }
    ensures off { KeepsOthers at width coeffs.old coeffs.new }
{
    for x in 0..width {
        coeffs[at + x] = cells[from + x];
    }
}
