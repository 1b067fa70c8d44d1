ghost use Rattle.std.specs.Prelude.{◌≡◌, ◌*◌, IfOk, IfSome, length};
ghost use Rattle.vc_types.specs.OfPlan.{padded_height, padded_width};
ghost use Rattle.vc_types.specs.TransformParameters.{parameters_of};
ghost use Rattle.vc_types.specs.Transforms.{inverse_transform};
ghost use Rattle.vc_wave.specs.Planes.{plane_of};
ghost use Rattle.picture_build.specs.Output.{output_plane};

use crate::cells::CoefficientCells;
use crate::output::output_long;
use std::alloc::Global;
use vc_geometry::padded;
use vc_types::{Component, NoMemory, Plan, Plane};
use vc_wave::inverse_long;

/// The plane of a component, made in cells of 64 bits; none where these aren't enough on the way.
pub(crate) fn long_plane(
    alloc: Global,
    plan: &Plan,
    c: Component,
    cells: &CoefficientCells,
) -> Result<Option<Plane>, NoMemory>
    requires { length cells.now ≡ padded_height plan.now c * padded_width plan.now c }
    ensures { IfOk result (λ made. IfSome made (λ plane.
        plane ≡ output_plane (parameters_of plan.now) c (inverse_transform (parameters_of plan.now)
        c (plane_of (padded_width plan.now c) cells.now)))) }
{
    let (width, height) = padded(plan, c);
    let mut numbers = numbers_of(alloc, cells, height as usize * width as usize)?;
    plane_in_place(alloc, plan, c, &mut numbers)
}

// The numbers in cells.
fn numbers_of(alloc: Global, cells: &CoefficientCells, len: usize) -> Result<Vec<i64>, NoMemory>
    requires { len ≡ length cells.now }
    ensures { IfOk result (λ numbers. numbers.items ≡ cells.now) }
{
    let mut numbers = Vec::with_capacity(alloc, len)?;
    for at in 0..len {
        numbers.push(cells.get(at))?;
    }
    Ok(numbers)
}

// The plane of a component whose coefficients stand in cells, which are used up.
fn plane_in_place(
    alloc: Global,
    plan: &Plan,
    c: Component,
    cells: &mut [i64],
) -> Result<Option<Plane>, NoMemory>
    requires { length cells.old ≡ padded_height plan.now c * padded_width plan.now c }
    ensures { IfOk result (λ made. IfSome made (λ plane.
        plane ≡ output_plane (parameters_of plan.now) c (inverse_transform (parameters_of plan.now)
        c (plane_of (padded_width plan.now c) cells.old)))) }
{
    if inverse_long(alloc, plan, c, cells)? {
        Ok(Some(output_long(alloc, plan, c, cells)?))
    } else {
        Ok(None)
    }
}
