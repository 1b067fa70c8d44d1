ghost use Rattle.std.specs.Prelude.{◌≡◌, ◌^◌, ◌<◌, All, IfOk, length, unsigned_abs};
ghost use Rattle.link_model.specs.SendingPictures.{plane_in};
ghost use Rattle.picture_encode.specs.Grids.{AreNarrowCells, HasCoefficients, HaveCoefficients};
ghost use Rattle.picture_encode.specs.Shapes.{CanBeTransformed, FitsNarrow};
ghost use Rattle.vc_types.specs.declared.video.Component.TheVariants.{Y, C1, C2};
ghost use Rattle.vc_types.specs.Planes.{planes_in};
ghost use Rattle.vc_types.specs.TransformParameters.{parameters_of};

use crate::grids::{ComponentGrid, PictureGrids};
use std::alloc::Global;
use std::thread::{Threads, join};
use vc_geometry::padded;
use vc_types::{Component, NoMemory, Plan, Plane};
use vc_wave::{
    forward, forward_fits_narrow, forward_narrow, forward_narrow_joined, forward_room_len,
    joined_forward_room_len,
};

/// The coefficients of a picture's planes, in the memory of other grids where that is as large: of
/// one component after another.
pub(crate) fn transform_picture(
    alloc: Global,
    plan: &Plan,
    planes: &[Plane; 3],
    used: PictureGrids,
) -> Result<PictureGrids, NoMemory>
    requires { CanBeTransformed (parameters_of plan.now) (planes_in planes.now) }
    ensures { IfOk result
        (λ g. HaveCoefficients (parameters_of plan.now) (planes_in planes.now) g) }
{
    Ok(PictureGrids {
        y: component(alloc, plan, planes, Component::Y, used.y)?,
        c1: component(alloc, plan, planes, Component::C1, used.c1)?,
        c2: component(alloc, plan, planes, Component::C2, used.c2)?,
    })
}

/// The same, the components side by side, by join, and luma's highest level in two halves. This thread starts
/// the three others: one that is new may have to wait for a processor before it can start another.
pub(crate) fn transform_picture_joined<H: Threads>(
    rt: &H,
    alloc: Global,
    plan: &Plan,
    planes: &[Plane; 3],
    used: PictureGrids,
) -> Result<PictureGrids, NoMemory>
    requires { CanBeTransformed (parameters_of plan.now) (planes_in planes.now) }
    ensures { IfOk result
        (λ g. HaveCoefficients (parameters_of plan.now) (planes_in planes.now) g) }
{
    let PictureGrids { y, c1, c2 } = used;
    let (c1, (c2, y)) = join(
        rt,
        || component(alloc, plan, planes, Component::C1, c1),
        || luma_beside_second(rt, alloc, plan, planes, c2, y),
    );
    Ok(PictureGrids {
        y: y?,
        c1: c1?,
        c2: c2?,
    })
}

type Answer = Result<ComponentGrid, NoMemory>;

// The coefficients of C2 and of luma, side by side.
fn luma_beside_second<H: Threads>(
    rt: &H,
    alloc: Global,
    plan: &Plan,
    planes: &[Plane; 3],
    c2: ComponentGrid,
    y: ComponentGrid,
) -> (Answer, Answer)
    requires { CanBeTransformed (parameters_of plan.now) (planes_in planes.now) }
    ensures c2 { IfOk result.0
        (λ g. HasCoefficients (parameters_of plan.now) C2 (planes_in planes.now) g) }
    ensures y { IfOk result.1
        (λ g. HasCoefficients (parameters_of plan.now) Y (planes_in planes.now) g) }
{
    join(
        rt,
        || component(alloc, plan, planes, Component::C2, c2),
        || component_joined(rt, alloc, plan, planes, Component::Y, y),
    )
}

// The coefficients of a component, in 32 bits where they fit.
fn component(
    alloc: Global,
    plan: &Plan,
    planes: &[Plane; 3],
    c: Component,
    used: ComponentGrid,
) -> Result<ComponentGrid, NoMemory>
    requires { CanBeTransformed (parameters_of plan.now) (planes_in planes.now) }
    ensures { IfOk result
        (λ g. HasCoefficients (parameters_of plan.now) c (planes_in planes.now) g) }
{
    if forward_fits_narrow(plan, c) {
        let plane = plane_in(planes, c);
        Ok(ComponentGrid::Narrow(narrow(alloc, plan, c, plane, used)?))
    } else {
        wide(alloc, plan, planes, c)
    }
}

// The same, with the highest level in two halves side by side.
fn component_joined<H: Threads>(
    rt: &H,
    alloc: Global,
    plan: &Plan,
    planes: &[Plane; 3],
    c: Component,
    used: ComponentGrid,
) -> Result<ComponentGrid, NoMemory>
    requires { CanBeTransformed (parameters_of plan.now) (planes_in planes.now) }
    ensures { IfOk result
        (λ g. HasCoefficients (parameters_of plan.now) c (planes_in planes.now) g) }
{
    if forward_fits_narrow(plan, c) {
        let plane = plane_in(planes, c);
        Ok(ComponentGrid::Narrow(narrow_joined(rt, alloc, plan, c, plane, used)?))
    } else {
        wide(alloc, plan, planes, c)
    }
}

// The coefficients of a component, however wide they are.
fn wide(
    alloc: Global,
    plan: &Plan,
    planes: &[Plane; 3],
    c: Component,
) -> Result<ComponentGrid, NoMemory>
    requires { CanBeTransformed (parameters_of plan.now) (planes_in planes.now) }
    ensures { IfOk result
        (λ g. HasCoefficients (parameters_of plan.now) c (planes_in planes.now) g) }
{
    let grid = forward(alloc, plan, c, plane_in(planes, c))?;
    Ok(ComponentGrid::Wide(grid))
}

// The coefficients of a component in 32 bits, where they fit.
fn narrow(
    alloc: Global,
    plan: &Plan,
    c: Component,
    plane: &Plane,
    used: ComponentGrid,
) -> Result<Vec<i32>, NoMemory>
    requires { FitsNarrow (parameters_of plan.now) c plane.now }
    ensures { IfOk result
        (λ cells. AreNarrowCells (parameters_of plan.now) c plane.now cells.items) }
{
    let (width, height) = padded(plan, c);
    let mut room = vec![in alloc; 0i32; forward_room_len(plan, c)]?;
    let mut cells = reused(alloc, used, height as usize * width as usize)?;
    forward_narrow(plan, c, plane, &mut cells, &mut room);
    are_small(&cells);
    Ok(cells)
}

// The same, with the highest level in two halves side by side.
fn narrow_joined<H: Threads>(
    rt: &H,
    alloc: Global,
    plan: &Plan,
    c: Component,
    plane: &Plane,
    used: ComponentGrid,
) -> Result<Vec<i32>, NoMemory>
    requires { FitsNarrow (parameters_of plan.now) c plane.now }
    ensures { IfOk result
        (λ cells. AreNarrowCells (parameters_of plan.now) c plane.now cells.items) }
{
    let (width, height) = padded(plan, c);
    let mut room = vec![in alloc; 0i32; joined_forward_room_len(plan, c)]?;
    let mut cells = reused(alloc, used, height as usize * width as usize)?;
    forward_narrow_joined(rt, plan, c, plane, &mut cells, &mut room);
    are_small(&cells);
    Ok(cells)
}

// So many cells, in used memory where that is as large.
fn reused(alloc: Global, used: ComponentGrid, len: usize) -> Result<Vec<i32>, NoMemory>
    ensures { IfOk result (λ cells. length cells.items ≡ len) }
{
    let mut cells = match used {
        ComponentGrid::Narrow(cells) => cells,
        ComponentGrid::Wide(_grid) => Vec::new(alloc),
    };
    cells.resize(len, 0)?;
    Ok(cells)
}

// Numbers of 32 bits are small. The loop does nothing, and the compiler leaves it out.
fn are_small(cells: &[i32])
    ensures { All (λ z. unsigned_abs z < 2 ^ 60) cells.now }
{
    for cell in cells {
        let _size = cell.unsigned_abs();
    }
}

fn plane_in(planes: &[Plane; 3], c: Component) -> &Plane
    ensures { result.now ≡ plane_in (planes_in planes.now) c }
{
    match c {
        Component::Y => &planes[0],
        Component::C1 => &planes[1],
        Component::C2 => &planes[2],
    }
}
