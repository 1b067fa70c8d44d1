ghost use Rattle.std.specs.Prelude.{◌≡◌, ◌<◌, length};
ghost use Rattle.field_pairs.specs.Rows.{row_of};

use vc_types::Plane;

// The samples of one row of a plane.
pub(crate) fn row_of(plane: &Plane, row: u32) -> &[u16]
    requires { row < plane.now.height }
    ensures value { result.now ≡ row_of plane.now row }
    ensures whole { length result.now ≡ plane.now.width }
{
    let width = plane.width() as usize;
    let start = row as usize * width;
    &plane.samples()[start..start + width]
}
