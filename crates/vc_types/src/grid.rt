ghost use Rattle.std.specs.Prelude.{◌≡◌, ◌*◌, length};

use std::marker::Model;

/// Whole numbers in rows, such as the coefficients of a component or the lines between two levels of a
/// transform. Contracts see its width, its height and the list of its cells.
#[derive(Drop)]
pub struct Grid {
    width: u32,
    height: u32,
    cells: Vec<i128>,
}

impl Model for Grid {
    ghost use Rattle.std.specs.Prelude.{◌≡◌, ◌*◌, vec_len};
    ghost use Rattle.vc_types.specs.Rasters.{Lattice};

    ghost Value = { Lattice };

    ghost view = { λ g. record { width = g.width; height = g.height; cells = g.cells.items } };

    ghost invariant = { λ g. vec_len g.cells ≡ g.width * g.height };
}

impl Grid {
    /// A grid of cells that were given row by row.
    pub fn new(width: u32, height: u32, cells: Vec<i128>) -> Grid
        requires { length cells.items ≡ width * height }
        ensures { result ≡ record { width = width; height = height; cells = cells.items } }
    {
        Grid {
            width,
            height,
            cells,
        }
    }

    pub fn width(&self) -> u32
        ensures { result ≡ self.now.width }
    {
        self.width
    }

    pub fn height(&self) -> u32
        ensures { result ≡ self.now.height }
    {
        self.height
    }

    /// The cells, row by row.
    pub fn cells(&self) -> &[i128]
        ensures value { result.now ≡ self.now.cells }
        ensures whole { length result.now ≡ self.now.width * self.now.height }
    {
        &self.cells
    }

    /// Gives the cells back, row by row.
    pub fn into_cells(self) -> Vec<i128>
        ensures value { result.items ≡ self.cells }
        ensures whole { length result.items ≡ self.width * self.height }
    {
        let Grid {
            width: _,
            height: _,
            cells,
        } = self;
        cells
    }
}
