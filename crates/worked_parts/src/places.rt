//! Rows of padded planes, subbands, slices and places of coefficients.
ghost use Rattle.std.specs.Prelude.{◌<◌, IfOk};
ghost use Rattle.vc_types.specs.Subbands.{slice_count};
ghost use Rattle.vc_types.specs.TransformParameters.{parameters_of};

use crate::plans::{PlannedPlane, planned};
use crate::said::Said;
use crate::words::natural;
use vc_geometry::{Rect, band, bands, padded, place_of, slice_len, slice_rect, slice_rects};
use worked_common::Bad;

/// A component's padded width and height.
pub(crate) fn padding(given: &str, said: &mut Said) -> Result<(), Bad> {
    let (planned, _) = planned(said.alloc(), given)?;
    let (width, height) = padded(&planned.plan, planned.component);
    said.words(&[width, height]);
    Ok(())
}

fn add_rect(rect: Rect, said: &mut Said) {
    let Rect {
        x,
        y,
        width,
        height,
    } = rect;
    write!(said, "{x},{y},{width}x{height} ");
}

/// Where a component's subbands stand, in their order.
pub(crate) fn subbands(given: &str, said: &mut Said) -> Result<(), Bad> {
    let (planned, _) = planned(said.alloc(), given)?;
    for b in 0..bands(&planned.plan) {
        add_rect(band(&planned.plan, planned.component, b), said);
    }
    Ok(())
}

// A slice by its number.
fn slice_of(planned: &PlannedPlane, word: &str) -> Result<u32, Bad>
    ensures { IfOk result (λ s. s < slice_count (parameters_of planned.now.plan)) }
{
    let slice = natural(word)?;
    if slice >= planned.plan.slices_x * planned.plan.slices_y {
        return Err(Bad::NoRow);
    }
    Ok(slice)
}

/// The part of each subband that belongs to a slice.
pub(crate) fn rectangles(given: &str, said: &mut Said) -> Result<(), Bad> {
    let (planned, word) = planned(said.alloc(), given)?;
    let slice = slice_of(&planned, word)?;
    for b in 0..bands(&planned.plan) {
        let rect = slice_rect(&planned.plan, planned.component, b, slice);
        add_rect(rect, said);
    }
    Ok(())
}

/// The same at once, and none for numbers above the last subband's.
pub(crate) fn rectangles_at_once(given: &str, said: &mut Said) -> Result<(), Bad> {
    let (planned, word) = planned(said.alloc(), given)?;
    let slice = slice_of(&planned, word)?;
    let mut rects = [Rect {
        x: 0,
        y: 0,
        width: 0,
        height: 0,
    }; 16];
    slice_rects(&planned.plan, planned.component, slice, &mut rects);
    for b in 0..bands(&planned.plan) {
        add_rect(rects[b as usize], said);
    }
    Ok(())
}

/// How many coefficients each slice has.
pub(crate) fn lengths(given: &str, said: &mut Said) -> Result<(), Bad> {
    let (planned, _) = planned(said.alloc(), given)?;
    for slice in 0..planned.plan.slices_x * planned.plan.slices_y {
        said.word(slice_len(&planned.plan, planned.component, slice));
    }
    Ok(())
}

/// The column and row of each coefficient of a slice.
pub(crate) fn places(given: &str, said: &mut Said) -> Result<(), Bad> {
    let (planned, word) = planned(said.alloc(), given)?;
    let slice = slice_of(&planned, word)?;
    for i in 0..slice_len(&planned.plan, planned.component, slice) {
        let (x, y) = place_of(&planned.plan, planned.component, slice, i);
        write!(said, "{x},{y} ");
    }
    Ok(())
}
