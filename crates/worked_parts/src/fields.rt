//! Rows of fields that are woven into frames, and of frames that are split.
ghost use Rattle.std.specs.Prelude.{IsTrue};
ghost use Rattle.vc_types.specs.Planes.{planes_in};
ghost use Rattle.field_pairs.specs.Sizes.{HasSizeOf, HaveEqualSizes, HaveHeightsUpTo, HaveEvenHeights};

use crate::said::Said;
use crate::words::{parted, samples, two};
use field_pairs::{split, weave};
use std::alloc::Global;
use vc_types::Plane;
use worked_common::Bad;

// Which field is first, and the sizes of luma and colour.
#[derive(Clone, Copy)]
struct Sizes {
    top_first: bool,
    luma: (u32, u32),
    colour: (u32, u32),
}

fn sizes_of(text: &str) -> Result<Sizes, Bad> {
    let mut words = text.split_whitespace();
    let top_first = match words.next() {
        Some("top-first") => true,
        Some("bottom-first") => false,
        _ => return Err(Bad::NoRow),
    };
    Ok(Sizes {
        top_first,
        luma: two(words.next().unwrap_or(""), 'x')?,
        colour: two(words.next().unwrap_or(""), 'x')?,
    })
}

fn plane(alloc: Global, size: (u32, u32), samples: &[u16]) -> Result<Plane, Bad> {
    let (width, height) = size;
    if width > 8192 || height > 8192 || samples.len() != width as usize * height as usize {
        return Err(Bad::NoRow);
    }
    Ok(Plane::new(width, height, Vec::from_slice(alloc, samples)?))
}

// The planes of samples, those of luma first.
fn planes(alloc: Global, sizes: &Sizes, text: &str) -> Result<[Plane; 3], Bad> {
    let all = samples(alloc, text)?;
    let luma = sizes.luma.0 as usize * sizes.luma.1 as usize;
    let colour = sizes.colour.0 as usize * sizes.colour.1 as usize;
    let Some((y, rest)) = all.as_slice().split_at_checked(luma) else {
        return Err(Bad::NoRow);
    };
    let Some((c1, c2)) = rest.split_at_checked(colour) else {
        return Err(Bad::NoRow);
    };
    Ok([
        plane(alloc, sizes.luma, y)?,
        plane(alloc, sizes.colour, c1)?,
        plane(alloc, sizes.colour, c2)?,
    ])
}

fn has_size_of(a: &Plane, b: &Plane) -> bool
    ensures { IsTrue result → HasSizeOf a.now b.now }
{
    a.width() == b.width() && a.height() == b.height()
}

fn have_equal_sizes(a: &[Plane; 3], b: &[Plane; 3]) -> bool
    ensures { IsTrue result → HaveEqualSizes (planes_in a.now) (planes_in b.now) }
{
    has_size_of(&a[0], &b[0]) && has_size_of(&a[1], &b[1]) && has_size_of(&a[2], &b[2])
}

fn have_few_rows(planes: &[Plane; 3]) -> bool
    ensures { IsTrue result → HaveHeightsUpTo 4096 (planes_in planes.now) }
{
    planes[0].height() <= 4096 && planes[1].height() <= 4096 && planes[2].height() <= 4096
}

fn have_even_heights(planes: &[Plane; 3]) -> bool
    ensures { IsTrue result → HaveEvenHeights (planes_in planes.now) }
{
    planes[0].height() % 2 == 0 && planes[1].height() % 2 == 0 && planes[2].height() % 2 == 0
}

fn add_planes(planes: &[Plane; 3], said: &mut Said) {
    for plane in planes {
        said.words(plane.samples());
    }
}

// Two fields, and which is first.
#[derive(Drop)]
struct Fields {
    first: [Plane; 3],
    second: [Plane; 3],
    top_first: bool,
}

fn fields_of(alloc: Global, given: &str) -> Result<Fields, Bad> {
    let (front, both) = parted(given);
    let sizes = sizes_of(front)?;
    let (first, second) = parted(both);
    Ok(Fields {
        first: planes(alloc, &sizes, first)?,
        second: planes(alloc, &sizes, second)?,
        top_first: sizes.top_first,
    })
}

/// The frame of two fields, of which the earlier is the first.
pub(crate) fn woven(given: &str, said: &mut Said) -> Result<(), Bad> {
    let Fields {
        first,
        second,
        top_first,
    } = fields_of(said.alloc(), given)?;
    if !have_equal_sizes(&first, &second) || !have_few_rows(&first) {
        return Err(Bad::NoRow);
    }
    let frame = weave(said.alloc(), first, second, top_first)?;
    add_planes(&frame, said);
    Ok(())
}

fn add_split(frame: &[Plane; 3], top_first: bool, said: &mut Said) -> Result<(), Bad>
    requires { HaveEvenHeights (planes_in frame.now) }
{
    let (first, second) = split(said.alloc(), frame, top_first)?;
    add_planes(&first, said);
    said.word(":");
    add_planes(&second, said);
    Ok(())
}

/// The two fields of a frame, the earlier first.
pub(crate) fn parts(given: &str, said: &mut Said) -> Result<(), Bad> {
    let (front, frame) = parted(given);
    let sizes = sizes_of(front)?;
    let frame = planes(said.alloc(), &sizes, frame)?;
    if !have_even_heights(&frame) {
        return Err(Bad::NoRow);
    }
    add_split(&frame, sizes.top_first, said)
}
