ghost use Rattle.std.specs.Prelude.{◌+◌, ◌≤◌};

use vc_types::Rect;

/// A rectangle among cells that stand row by row, as many in a row as the stride says.
#[derive(Clone, Copy)]
pub struct CellRect {
    pub rect: Rect,
    pub stride: usize,
    pub ghost sides: { (stride ≤ 8192) × (rect.y + rect.height ≤ 8192) },
    pub ghost across: { rect.x + rect.width ≤ stride },
}
