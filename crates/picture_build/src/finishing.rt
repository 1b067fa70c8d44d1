ghost use Rattle.std.specs.Prelude.{◌≡◌, ◌*◌, ◌^◌, ◌<◌, All, IfOk, List, length, unsigned_abs};
ghost use Rattle.vc_types.specs.declared.video.Component.TheVariants.{Y, C1, C2};
ghost use Rattle.vc_types.specs.Planes.{planes_in};
ghost use Rattle.vc_types.specs.Slices.{Coefficients};
ghost use Rattle.vc_types.specs.TransformParameters.{parameters_of};
ghost use Rattle.picture_build.specs.Kept.{AllAreIn, AreIn};
ghost use Rattle.picture_build.specs.OfPlan.{ArePlanesOf, HoldsComponent, IsPlaneOf};
ghost use Rattle.vc_types.specs.OfPlan.{padded_height, padded_width};

use crate::cells::CoefficientCells;
use crate::long::long_plane;
use crate::narrow::{narrow_plane, narrow_plane_joined};
use crate::output::output;
use crate::room::Room;
use std::alloc::Global;
use std::thread::{Threads, join_mut};
use vc_geometry::padded;
use vc_types::{Component, Grid, NoMemory, Plan, Plane};
use vc_wave::inverse;

/// The cells of a picture's three components, whose slices are all in them.
#[derive(Clone, Copy)]
pub(crate) struct PictureCells<'a> {
    pub(crate) y: &'a CoefficientCells,
    pub(crate) c1: &'a CoefficientCells,
    pub(crate) c2: &'a CoefficientCells,
}

/// Memory for the planes of each component.
#[derive(Drop)]
pub(crate) struct Rooms {
    pub(crate) y: Room,
    pub(crate) c1: Room,
    pub(crate) c2: Room,
}

impl Rooms {
    /// No memory yet.
    pub(crate) fn new(alloc: Global) -> Rooms {
        Rooms {
            y: Room::new(alloc),
            c1: Room::new(alloc),
            c2: Room::new(alloc),
        }
    }

    /// The memory of planes that are done with serves the next ones.
    pub(crate) fn keep(&mut self, planes: [Plane; 3]) {
        let [y, c1, c2] = planes;
        self.y.keep(y);
        self.c1.keep(c1);
        self.c2.keep(c2);
    }
}

/// The planes of a picture, one component after another.
pub(crate) fn planes_in_turn(
    alloc: Global,
    plan: &Plan,
    cells: &PictureCells<'_>,
    rooms: &mut Rooms,
) -> Result<[Plane; 3], NoMemory>
    requires { (slices : List Coefficients) × AllAreIn (parameters_of plan.now) slices
        cells.now.y.now cells.now.c1.now cells.now.c2.now }
    ensures { IfOk result (λ planes. ArePlanesOf plan.now
        cells.now.y.now cells.now.c1.now cells.now.c2.now (planes_in planes)) }
{
    let y = component(alloc, plan, Component::Y, cells.y, &mut rooms.y)?;
    let c1 = component(alloc, plan, Component::C1, cells.c1, &mut rooms.c1)?;
    let c2 = component(alloc, plan, Component::C2, cells.c2, &mut rooms.c2)?;
    Ok([y, c1, c2])
}

/// The same, on four threads, by join: each colour component has a thread of its own, and so has the upper
/// half of luma's highest level. The rest of luma stays on this one, so that no other thread starts any.
pub(crate) fn planes_at_once<H: Threads>(
    rt: &H,
    alloc: Global,
    plan: &Plan,
    cells: &PictureCells<'_>,
    rooms: &mut Rooms,
) -> Result<[Plane; 3], NoMemory>
    requires { (slices : List Coefficients) × AllAreIn (parameters_of plan.now) slices
        cells.now.y.now cells.now.c1.now cells.now.c2.now }
    ensures { IfOk result (λ planes. ArePlanesOf plan.now
        cells.now.y.now cells.now.c1.now cells.now.c2.now (planes_in planes)) }
{
    let (c1, (c2, y)) = joined(
        rt,
        alloc,
        plan,
        cells,
        &mut rooms.y,
        &mut rooms.c1,
        &mut rooms.c2,
    );
    Ok([y?, c1?, c2?])
}

type Answer = Result<Plane, NoMemory>;

// The planes of C1, and of C2 and luma, side by side.
fn joined<H: Threads>(
    rt: &H,
    alloc: Global,
    plan: &Plan,
    cells: &PictureCells<'_>,
    luma: &mut Room,
    first: &mut Room,
    second: &mut Room,
) -> (Answer, (Answer, Answer))
    requires { (slices : List Coefficients) × AllAreIn (parameters_of plan.now) slices
        cells.now.y.now cells.now.c1.now cells.now.c2.now }
    ensures c1 { IfOk result.0 (λ plane. IsPlaneOf plan.now C1 cells.now.c1.now plane) }
    ensures c2 { IfOk result.1.0 (λ plane. IsPlaneOf plan.now C2 cells.now.c2.now plane) }
    ensures y { IfOk result.1.1 (λ plane. IsPlaneOf plan.now Y cells.now.y.now plane) }
{
    join_mut(
        rt,
        &mut || component(alloc, plan, Component::C1, cells.c1, first),
        &mut || luma_beside_second(rt, alloc, plan, cells, luma, second),
    )
}

// The planes of C2 and luma, side by side.
fn luma_beside_second<H: Threads>(
    rt: &H,
    alloc: Global,
    plan: &Plan,
    cells: &PictureCells<'_>,
    luma: &mut Room,
    second: &mut Room,
) -> (Answer, Answer)
    requires { (slices : List Coefficients)
        × AreIn (parameters_of plan.now) Y slices cells.now.y.now
        × AreIn (parameters_of plan.now) C2 slices cells.now.c2.now }
    ensures c2 { IfOk result.0 (λ plane. IsPlaneOf plan.now C2 cells.now.c2.now plane) }
    ensures y { IfOk result.1 (λ plane. IsPlaneOf plan.now Y cells.now.y.now plane) }
{
    join_mut(
        rt,
        &mut || component(alloc, plan, Component::C2, cells.c2, second),
        &mut || component_joined(rt, alloc, plan, Component::Y, cells.y, luma),
    )
}

// The plane of a component.
fn component(
    alloc: Global,
    plan: &Plan,
    c: Component,
    cells: &CoefficientCells,
    room: &mut Room,
) -> Result<Plane, NoMemory>
    requires whole { HoldsComponent plan.now c cells.now }
    ensures value { IfOk result (λ plane. IsPlaneOf plan.now c cells.now plane) }
{
    match narrow_plane(alloc, plan, c, cells, room)? {
        Some(plane) => Ok(plane),
        None => wide_component(alloc, plan, c, cells),
    }
}

// The same, with the highest level in two halves side by side.
fn component_joined<H: Threads>(
    rt: &H,
    alloc: Global,
    plan: &Plan,
    c: Component,
    cells: &CoefficientCells,
    room: &mut Room,
) -> Result<Plane, NoMemory>
    requires whole { HoldsComponent plan.now c cells.now }
    ensures value { IfOk result (λ plane. IsPlaneOf plan.now c cells.now plane) }
{
    match narrow_plane_joined(rt, alloc, plan, c, cells, room)? {
        Some(plane) => Ok(plane),
        None => wide_component(alloc, plan, c, cells),
    }
}

// The same, whatever its coefficients: in 64 bits or, where these aren't enough, in 128.
fn wide_component(
    alloc: Global,
    plan: &Plan,
    c: Component,
    cells: &CoefficientCells,
) -> Result<Plane, NoMemory>
    requires whole { HoldsComponent plan.now c cells.now }
    ensures value { IfOk result (λ plane. IsPlaneOf plan.now c cells.now plane) }
{
    match long_plane(alloc, plan, c, cells)? {
        Some(plane) => Ok(plane),
        None => widest_component(alloc, plan, c, cells),
    }
}

// The same in 128 bits, which are always enough.
fn widest_component(
    alloc: Global,
    plan: &Plan,
    c: Component,
    cells: &CoefficientCells,
) -> Result<Plane, NoMemory>
    requires whole { HoldsComponent plan.now c cells.now }
    ensures value { IfOk result (λ plane. IsPlaneOf plan.now c cells.now plane) }
{
    let coefficients = grid(alloc, plan, c, cells)?;
    let samples = inverse(alloc, plan, c, coefficients)?;
    output(alloc, plan, c, &samples)
}

// The cells of a component with 128 bits each.
fn grid(
    alloc: Global,
    plan: &Plan,
    c: Component,
    cells: &CoefficientCells,
) -> Result<Grid, NoMemory>
    requires whole { HoldsComponent plan.now c cells.now }
    ensures width { IfOk result (λ g. g.width ≡ padded_width plan.now c) }
    ensures height { IfOk result (λ g. g.height ≡ padded_height plan.now c) }
    ensures cells { IfOk result (λ g. g.cells ≡ cells.now) }
    ensures small { IfOk result (λ g. All (λ z. unsigned_abs z < 2 ^ 60) g.cells) }
{
    let (width, height) = padded(plan, c);
    let wide = widened(alloc, cells, height as usize * width as usize)?;
    Ok(Grid::new(width, height, wide))
}

fn widened(alloc: Global, cells: &CoefficientCells, len: usize) -> Result<Vec<i128>, NoMemory>
    requires { len ≡ length cells.now }
    ensures { IfOk result (λ wide. wide.items ≡ cells.now) }
{
    let mut wide = Vec::with_capacity(alloc, len)?;
    for at in 0..len {
        wide.push(i128::from(cells.get(at)))?;
    }
    Ok(wide)
}
