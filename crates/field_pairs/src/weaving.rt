ghost use Rattle.std.specs.Prelude.{◌≡◌, ◌≤◌, IfOk};
ghost use Rattle.vc_types.specs.FieldPairs.{interleaved_rows, of_each, woven};
ghost use Rattle.vc_types.specs.Planes.{planes_in};
ghost use Rattle.field_pairs.specs.Sizes.{HasSizeOf, HaveEqualSizes, HaveHeightsUpTo};

use crate::row::row_of;
use std::alloc::Global;
use vc_types::{NoMemory, Plane};

// Even rows from one plane, odd rows from another.
fn interleave(alloc: Global, even: &Plane, odd: &Plane) -> Result<Plane, NoMemory>
    requires size { HasSizeOf even.now odd.now }
    requires height { even.now.height ≤ 4096 }
    ensures { IfOk result (λ plane. plane ≡ interleaved_rows even.now odd.now) }
{
    let mut samples = Vec::with_capacity(alloc, 2 * even.samples().len())?;
    for row in 0..even.height() {
        samples.extend_from_slice(row_of(even, row))?;
        samples.extend_from_slice(row_of(odd, row))?;
    }
    Ok(Plane::new(even.width(), 2 * even.height(), samples))
}

fn interleave_each(
    alloc: Global,
    even: &[Plane; 3],
    odd: &[Plane; 3],
) -> Result<[Plane; 3], NoMemory>
    requires sizes { HaveEqualSizes (planes_in even.now) (planes_in odd.now) }
    requires heights { HaveHeightsUpTo 4096 (planes_in even.now) }
    ensures { IfOk result
        (λ planes. planes_in planes
        ≡ of_each interleaved_rows (planes_in even.now) (planes_in odd.now)) }
{
    Ok([
        interleave(alloc, &even[0], &odd[0])?,
        interleave(alloc, &even[1], &odd[1])?,
        interleave(alloc, &even[2], &odd[2])?,
    ])
}

/// Weaves two fields, of which the first is the earlier, into their frame. With the top field first the
/// earlier field's rows are rows 0, 2, 4 and so on, else rows 1, 3, 5 and so on. Each plane needs the size of
/// its partner, and at most 4,096 rows.
pub fn weave(
    alloc: Global,
    first: [Plane; 3],
    second: [Plane; 3],
    top_first: bool,
) -> Result<[Plane; 3], NoMemory>
    requires sizes { HaveEqualSizes (planes_in first) (planes_in second) }
    requires heights { HaveHeightsUpTo 4096 (planes_in first) }
    ensures value { IfOk result
        (λ planes. planes_in planes ≡ woven top_first (planes_in first) (planes_in second)) }
{
    if top_first {
        interleave_each(alloc, &first, &second)
    } else {
        interleave_each(alloc, &second, &first)
    }
}
