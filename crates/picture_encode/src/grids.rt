use std::alloc::Global;
use vc_types::Grid;

/// The coefficients of a component: in 32 bits, with the rows of the nested subbands taken in turn, or in a
/// grid of nested subbands, however wide they are.
#[derive(Drop)]
pub(crate) enum ComponentGrid {
    Narrow(Vec<i32>),
    Wide(Grid),
}

/// The coefficients of a picture. Their memory serves the next picture of the same sizes.
#[derive(Drop)]
pub struct PictureGrids {
    pub(crate) y: ComponentGrid,
    pub(crate) c1: ComponentGrid,
    pub(crate) c2: ComponentGrid,
}

impl PictureGrids {
    /// No coefficients, which take no memory.
    pub fn new(alloc: Global) -> PictureGrids {
        PictureGrids {
            y: ComponentGrid::Narrow(Vec::new(alloc)),
            c1: ComponentGrid::Narrow(Vec::new(alloc)),
            c2: ComponentGrid::Narrow(Vec::new(alloc)),
        }
    }
}
