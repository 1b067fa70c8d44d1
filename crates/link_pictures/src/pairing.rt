ghost use Rattle.std.specs.Prelude.{◌≡◌, true, IfOk, IfSome};
ghost use Rattle.std.specs.Option.{option_map};
ghost use Rattle.link_model.specs.Output.{woven_fields};
ghost use Rattle.receiver_model.specs.Releasing.{as_first, field_before};
ghost use Rattle.receiver_model.specs.WholeBooks.{ArePicturePlanes};
ghost use Rattle.vc_types.specs.Planes.{planes_in};
ghost use Rattle.vc_types.specs.SequenceHeader.{sequence_of};
ghost use Rattle.link_pictures.specs.FrameViews.{first_field_of};

use field_pairs::weave;
use std::alloc::Global;
use vc_types::{Header, NoMemory, Plane};

/// The first field of a frame whose second one isn't released yet.
#[derive(Drop)]
pub(crate) struct Field {
    pub(crate) number: u64,
    pub(crate) planes: [Plane; 3],
}

/// A first field, if it has planes.
pub(crate) fn first_field(number: u64, planes: Option<[Plane; 3]>) -> Option<Field>
    ensures { option_map first_field_of result
        ≡ option_map (as_first number) (option_map planes_in planes) }
{
    let planes = planes?;
    Some(Field { number, planes })
}

/// The planes of the field that waits, if its number is the one before this.
pub(crate) fn field_before(waiting: Option<Field>, number: u64) -> Option<[Plane; 3]>
    ensures { option_map planes_in result
        ≡ field_before (option_map first_field_of waiting) number }
{
    let field = waiting?;
    if field.number < number && number - field.number == 1 {
        Some(field.planes)
    } else {
        None
    }
}

/// The frame of two fields of a sequence, if both are there.
pub(crate) fn woven(
    alloc: Global,
    header: &Header,
    earlier: Option<[Plane; 3]>,
    later: Option<[Plane; 3]>,
) -> Result<Option<[Plane; 3]>, NoMemory>
    requires fields { header.now.fields ≡ true }
    requires earlier { IfSome earlier
        (λ planes. ArePicturePlanes (sequence_of header.now) (planes_in planes)) }
    requires later { IfSome later
        (λ planes. ArePicturePlanes (sequence_of header.now) (planes_in planes)) }
    ensures { IfOk result (λ frame. option_map planes_in frame
        ≡ woven_fields header.now.top_first (option_map planes_in earlier)
        (option_map planes_in later)) }
{
    let Some(earlier) = earlier else {
        return Ok(None);
    };
    let Some(later) = later else {
        return Ok(None);
    };
    let frame = weave(alloc, earlier, later, header.top_first)?;
    Ok(Some(frame))
}
