ghost use Rattle.std.specs.Prelude.{◌≡◌, ◌+◌, ◌≤◌, length};
ghost use Rattle.vc_types.specs.Slices.{coefficients_of};
ghost use Rattle.vc_slice.specs.OneBlock.{three_parts};

use std::marker::Model;
use vc_types::Component;

/// The coefficients of a run, of each component those of the subbands in order, and of each subband the
/// rectangle of the whole run row by row. Contracts see three lists.
#[derive(Drop)]
pub struct Strip {
    room: Vec<i32>,
    y: usize,
    c: usize,
}

impl Model for Strip {
    ghost use Rattle.std.specs.Prelude.{◌≤◌, ◌+◌, length};
    ghost use Rattle.vc_types.specs.Slices.{Coefficients};
    ghost use Rattle.vc_slice.specs.OneBlock.{three_parts};

    ghost Value = { Coefficients };

    ghost view = { λ s. three_parts s.y s.c s.c s.room.items };

    ghost invariant = { λ s. s.y + s.c + s.c ≤ length s.room.items };
}

impl Strip {
    /// So many coefficients of Y, and so many of each colour, one component behind the other. There may be
    /// more numbers behind them.
    pub fn new(room: Vec<i32>, y: usize, c: usize) -> Strip
        requires { y + c + c ≤ length room.items }
        ensures value { result ≡ three_parts y c c room.items }
        ensures lengths { (length result.y ≡ y) × (length result.c1 ≡ c) × (length result.c2 ≡ c) }
    {
        Strip { room, y, c }
    }

    /// The coefficients of a component, in the strip's order.
    pub fn component(&self, c: Component) -> &[i32]
        ensures value { result.now ≡ coefficients_of self.now c }
    {
        match c {
            Component::Y => &self.room[0..self.y],
            Component::C1 => &self.room[self.y..self.y + self.c],
            Component::C2 => &self.room[self.y + self.c..self.y + self.c + self.c],
        }
    }

    /// The memory, for another run.
    pub fn into_room(self) -> Vec<i32> {
        self.room
    }
}
