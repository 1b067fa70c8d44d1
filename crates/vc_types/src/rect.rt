/// A rectangle of cells: the cell at its upper left corner, and how many cells it has across and down. It may
/// be empty.
#[derive(Clone, Copy)]
pub struct Rect {
    pub x: u32,
    pub y: u32,
    pub width: u32,
    pub height: u32,
}
