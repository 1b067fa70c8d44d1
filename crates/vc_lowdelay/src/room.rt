ghost use Rattle.std.specs.Prelude.{◌≡◌, ◌≤◌, OnOk, length};
ghost use Rattle.vc_types.specs.TransformParameters.{parameters_of};
ghost use Rattle.vc_lowdelay.specs.InRoom.{HasCells};
ghost use Rattle.vc_lowdelay.specs.Narrow.{HasPaddedSize};

use picture_build::Room;
use std::alloc::Global;
use vc_geometry::padded;
use vc_types::{Component, NoMemory, Plan, Plane};

/// Memory to decode pictures in, which is kept from picture to picture: what it holds between two of them
/// says nothing. It has 4 bytes for each coefficient, 4 for each sample of luma and of a colour component,
/// and 4 for each number of the largest slice, in which those of the colours count twice; and 2 for each
/// sample of luma and of a colour component of planes that were handed back.
#[derive(Drop)]
pub struct LowRoom {
    // The coefficients of each component, at their places.
    pub(crate) y: Vec<i32>,
    pub(crate) c1: Vec<i32>,
    pub(crate) c2: Vec<i32>,
    // The numbers of luma or of a colour component in a slice, and those of both colours in turn.
    pub(crate) numbers: Vec<i32>,
    pub(crate) turns: Vec<i32>,
    // What luma and a colour component are transformed in.
    pub(crate) luma: Room,
    pub(crate) colour: Room,
}

impl LowRoom {
    /// No memory yet.
    pub fn new(alloc: Global) -> LowRoom {
        LowRoom {
            y: Vec::new(alloc),
            c1: Vec::new(alloc),
            c2: Vec::new(alloc),
            numbers: Vec::new(alloc),
            turns: Vec::new(alloc),
            luma: Room::new(alloc),
            colour: Room::new(alloc),
        }
    }

    /// The memory of planes that are done with serves the next ones: that of luma, and of a colour component.
    pub fn keep_planes(&mut self, planes: [Plane; 3]) {
        let [y, c1, c2] = planes;
        self.luma.keep(y);
        self.colour.keep(c1);
        drop(c2);
    }

    /// Has as many cells as the components of a plan's picture.
    pub(crate) fn fit(&mut self, alloc: Global, plan: &Plan) -> Result<(), NoMemory>
        ensures { OnOk result (HasCells plan.now self.new) }
    {
        fit_component(alloc, plan, Component::Y, &mut self.y)?;
        fit_component(alloc, plan, Component::C1, &mut self.c1)?;
        fit_component(alloc, plan, Component::C2, &mut self.c2)?;
        Ok(())
    }
}

// Replaces cells that aren't as many as the component's.
fn fit_component(
    alloc: Global,
    plan: &Plan,
    c: Component,
    cells: &mut Vec<i32>,
) -> Result<(), NoMemory>
    ensures { OnOk result (HasPaddedSize (parameters_of plan.now) c cells.new.items) }
{
    let (width, height) = padded(plan, c);
    let count = height as usize * width as usize;
    if cells.len() != count {
        *cells = vec![in alloc; 0i32; count]?;
    }
    Ok(())
}

/// Replaces a list that is shorter than it has to be.
#[inline]
pub(crate) fn at_least(alloc: Global, list: &mut Vec<i32>, count: usize) -> Result<(), NoMemory>
    ensures { OnOk result (count ≤ length list.new.items) }
{
    if list.len() < count {
        *list = vec![in alloc; 0i32; count]?;
    }
    Ok(())
}
