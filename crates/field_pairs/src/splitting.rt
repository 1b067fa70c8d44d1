ghost use Rattle.std.specs.Prelude.{◌≡◌, ◌<◌, ◌%◌, IfOk};
ghost use Rattle.vc_types.specs.FieldPairs.{every_other_row, on_each, fields_of};
ghost use Rattle.vc_types.specs.Planes.{planes_in};
ghost use Rattle.field_pairs.specs.Sizes.{HaveEvenHeights};

use crate::row::row_of;
use std::alloc::Global;
use vc_types::{NoMemory, Plane};

// Every other row of a plane, from row 0 or row 1 on.
fn every_other_row(alloc: Global, frame: &Plane, first: u32) -> Result<Plane, NoMemory>
    requires first { first < 2 }
    requires even { frame.now.height % 2 ≡ 0 }
    ensures { IfOk result (λ field. field ≡ every_other_row first frame.now) }
{
    let mut samples = Vec::with_capacity(alloc, frame.samples().len() / 2)?;
    for row in 0..frame.height() / 2 {
        samples.extend_from_slice(row_of(frame, 2 * row + first))?;
    }
    Ok(Plane::new(frame.width(), frame.height() / 2, samples))
}

fn field(alloc: Global, frame: &[Plane; 3], first: u32) -> Result<[Plane; 3], NoMemory>
    requires first { first < 2 }
    requires even { HaveEvenHeights (planes_in frame.now) }
    ensures { IfOk result
        (λ field. planes_in field ≡ on_each (every_other_row first) (planes_in frame.now)) }
{
    Ok([
        every_other_row(alloc, &frame[0], first)?,
        every_other_row(alloc, &frame[1], first)?,
        every_other_row(alloc, &frame[2], first)?,
    ])
}

/// Splits a frame, whose planes have even heights, into its two fields, the earlier first. With the top field
/// first the earlier field's rows are rows 0, 2, 4 and so on, else rows 1, 3, 5 and so on.
pub fn split(
    alloc: Global,
    frame: &[Plane; 3],
    top_first: bool,
) -> Result<([Plane; 3], [Plane; 3]), NoMemory>
    requires { HaveEvenHeights (planes_in frame.now) }
    ensures value { IfOk result
        (λ fields. (planes_in fields.0, planes_in fields.1)
        ≡ fields_of top_first (planes_in frame.now)) }
{
    if top_first {
        Ok((field(alloc, frame, 0)?, field(alloc, frame, 1)?))
    } else {
        Ok((field(alloc, frame, 1)?, field(alloc, frame, 0)?))
    }
}
