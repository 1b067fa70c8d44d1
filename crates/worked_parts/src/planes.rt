//! Rows of planes that are transformed.
ghost use Rattle.std.specs.Prelude.{◌≡◌, ◌≤◌, ◌^◌, ◌<◌, All, IfOk, IsTrue, unsigned_abs};
ghost use Rattle.vc_types.specs.Subbands.{plane_width, plane_height, plane_depth};
ghost use Rattle.vc_types.specs.TransformParameters.{is_symmetric, parameters_of};

use crate::lines::some_cells;
use crate::plans::{PlannedPlane, planned};
use crate::said::Said;
use crate::words::{long_numbers, numbers, samples, weighed};
use std::alloc::Global;
use vc_geometry::padded;
use vc_types::{Component, Grid, Plan, Plane};
use vc_wave::{Format, forward, inverse, inverse_long};
use worked_common::Bad;

/// The size of a component's plane, and the bits of its samples.
pub(crate) fn format_of(plan: &Plan, c: Component) -> Format
    ensures columns { result.columns ≡ plane_width plan.now.shape c }
    ensures rows { result.rows ≡ plane_height plan.now.shape c }
    ensures depth { result.depth ≡ plane_depth plan.now.shape c }
    ensures sides { (1 ≤ result.columns) × (1 ≤ result.rows) }
    ensures small { (result.columns ≤ 8192) × (result.rows ≤ 8192) }
    ensures range { (1 ≤ result.depth) × (result.depth ≤ 16) }
{
    let shape = &plan.shape;
    match c {
        Component::Y => Format {
            columns: shape.luma_width as usize,
            rows: shape.luma_height as usize,
            depth: shape.luma_depth,
        },
        Component::C1 | Component::C2 => Format {
            columns: shape.colour_width as usize,
            rows: shape.colour_height as usize,
            depth: shape.colour_depth,
        },
    }
}

// Whether they are such coefficients as planes may have.
fn are_small(cells: &[i128]) -> bool
    ensures { IsTrue result → All (λ z. unsigned_abs z < 2 ^ 60) cells.now }
{
    cells.iter().all(|z| z.unsigned_abs() < 1 << 60)
}

/// The samples of coefficients, both row by row in the padded size.
pub(crate) fn samples_of(alloc: Global, of: &PlannedPlane, cells: Vec<i128>) -> Result<Grid, Bad> {
    let (width, height) = padded(&of.plan, of.component);
    if cells.len() != width as usize * height as usize || !are_small(cells.as_slice()) {
        return Err(Bad::NoRow);
    }
    let cells = Grid::new(width, height, cells);
    Ok(inverse(alloc, &of.plan, of.component, cells)?)
}

/// The samples of coefficients.
pub(crate) fn inverses(given: &str, said: &mut Said) -> Result<(), Bad> {
    let (planned, cells) = planned(said.alloc(), given)?;
    let cells = numbers(said.alloc(), cells)?;
    let made = samples_of(said.alloc(), &planned, cells)?;
    said.words(made.cells());
    Ok(())
}

fn add_long_inverse(of: &PlannedPlane, cells: Vec<i64>, said: &mut Said) -> Result<(), Bad> {
    let mut cells = cells;
    let (width, height) = padded(&of.plan, of.component);
    if cells.len() != height as usize * width as usize {
        return Err(Bad::NoRow);
    }
    if inverse_long(said.alloc(), &of.plan, of.component, &mut cells)? {
        said.words(cells.as_slice());
    } else {
        said.word("wide");
    }
    Ok(())
}

/// The same in cells of 64 bits, or that these aren't enough.
pub(crate) fn long_inverses(given: &str, said: &mut Said) -> Result<(), Bad> {
    let (planned, cells) = planned(said.alloc(), given)?;
    let cells = long_numbers(said.alloc(), cells)?;
    add_long_inverse(&planned, cells, said)
}

/// The sum of each sample times its place that some coefficients are made into.
pub(crate) fn inverse_sum(given: &str, said: &mut Said) -> Result<(), Bad> {
    let (planned, _) = planned(said.alloc(), given)?;
    let (width, height) = padded(&planned.plan, planned.component);
    let cells = some_cells(said.alloc(), width * height)?;
    let made = samples_of(said.alloc(), &planned, cells)?;
    said.word(weighed(made.cells()));
    Ok(())
}

// Whether samples have so many bits at most.
fn have_bits(samples: &[u16], depth: u8) -> bool
    requires { (1 ≤ depth) × (depth ≤ 16) }
    ensures { IsTrue result → All (λ s. s < 2 ^ depth) samples.now }
{
    let limit = 1u32 << depth;
    samples.iter().all(|s| u32::from(*s) < limit)
}

/// A component's plane of samples.
pub(crate) fn plane_of(of: &PlannedPlane, samples: Vec<u16>) -> Result<Plane, Bad>
    ensures width { IfOk result (λ p. p.width ≡ plane_width of.now.plan.shape of.now.component) }
    ensures height { IfOk result (λ p. p.height ≡ plane_height of.now.plan.shape of.now.component) }
    ensures samples { IfOk result
        (λ p. All (λ s. s < 2 ^ plane_depth of.now.plan.shape of.now.component) p.samples) }
{
    let format = format_of(&of.plan, of.component);
    let count = format.columns * format.rows;
    if samples.len() != count || !have_bits(samples.as_slice(), format.depth) {
        return Err(Bad::NoRow);
    }
    Ok(Plane::new(format.columns as u32, format.rows as u32, samples))
}

/// Whether the transform is the same across as down.
pub(crate) fn is_alike(plan: &Plan) -> bool
    ensures { IsTrue result → IsTrue (is_symmetric (parameters_of plan.now)) }
{
    plan.wavelet == plan.wavelet_ho && plan.depth_ho == 0
}

/// The coefficients of a plane.
pub(crate) fn coefficients(alloc: Global, of: &PlannedPlane, plane: &Plane) -> Result<Grid, Bad>
    requires width { plane.now.width ≡ plane_width of.now.plan.shape of.now.component }
    requires height { plane.now.height ≡ plane_height of.now.plan.shape of.now.component }
    requires samples { All
        (λ s. s < 2 ^ plane_depth of.now.plan.shape of.now.component) plane.now.samples }
{
    if !is_alike(&of.plan) {
        return Err(Bad::NoRow);
    }
    Ok(forward(alloc, &of.plan, of.component, plane)?)
}

/// The coefficients of samples.
pub(crate) fn forwards(given: &str, said: &mut Said) -> Result<(), Bad> {
    let (planned, text) = planned(said.alloc(), given)?;
    let samples = samples(said.alloc(), text)?;
    let plane = plane_of(&planned, samples)?;
    let made = coefficients(said.alloc(), &planned, &plane)?;
    said.words(made.cells());
    Ok(())
}
