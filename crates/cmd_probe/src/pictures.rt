ghost use Rattle.std.specs.Prelude.{◌≡◌};
ghost use Rattle.cmd_probe.specs.Pictures.{is_open, no_pictures, reached, with_picture, with_raster};
ghost use Rattle.cmd_probe.specs.Pictures.{with_fragment};

use crate::counting::{one_more, with_bytes};

/// The pictures that a source began, and how far the slices of the last of them came.
#[derive(Clone, Copy)]
pub(crate) struct Pictures {
    pub(crate) count: u64,
    /// How many of them came whole: all their slices, one after another.
    pub(crate) whole: u64,
    /// The picture numbers of the first and of the last.
    pub(crate) first: u32,
    pub(crate) last: u32,
    /// The most bytes that the slices of one have.
    pub(crate) largest: u64,
    /// Of the last: its slices across, and all of them; 0 before its parameters came.
    pub(crate) across: u32,
    pub(crate) slices: u64,
    /// How many of them came, from the first on and without a gap, and the bytes of all that came.
    pub(crate) reach: u64,
    pub(crate) bytes: u64,
}

impl Pictures {
    /// Before any picture.
    pub(crate) fn new() -> Pictures
        ensures { result ≡ no_pictures }
    {
        Pictures {
            count: 0,
            whole: 0,
            first: 0,
            last: 0,
            largest: 0,
            across: 0,
            slices: 0,
            reach: 0,
            bytes: 0,
        }
    }

    /// Whether the last picture has this number.
    pub(crate) fn is_open(&self, number: u32) -> bool
        ensures { result ≡ is_open self.now number }
    {
        self.count > 0 && self.last == number
    }

    /// Begins the next picture.
    #[tactic(auto, unfolding(crate::specs::Pictures::with_picture))]
    pub(crate) fn begin(&mut self, number: u32)
        ensures { self.new ≡ with_picture self.old number }
    {
        if self.count == 0 {
            self.first = number;
        }
        self.count = one_more(self.count);
        self.last = number;
        self.across = 0;
        self.slices = 0;
        self.reach = 0;
        self.bytes = 0;
    }

    /// Takes how many slices the last picture has, across and down. What came before isn't counted.
    #[tactic(auto, unfolding(crate::specs::Pictures::with_raster))]
    pub(crate) fn cut(&mut self, across: u32, down: u32)
        ensures { self.new ≡ with_raster self.old across down }
    {
        if self.slices == 0 {
            self.across = across;
            self.slices = u64::from(across) * u64::from(down);
            self.reach = 0;
        }
    }

    /// Takes slices of the last picture: so many, from the one at x and y on, of so many bytes.
    #[tactic(auto, unfolding(crate::specs::Pictures::with_fragment))]
    pub(crate) fn add(&mut self, x: u16, y: u16, count: u16, bytes: usize)
        ensures { self.new ≡ with_fragment self.old x y count bytes }
    {
        let before = self.reach;
        self.reach = reached(before, self.across, (x, y), count);
        self.bytes = with_bytes(self.bytes, bytes);
        self.largest = self.largest.max(self.bytes);
        if before < self.slices && self.slices <= self.reach {
            self.whole = one_more(self.whole);
        }
    }
}

// How far slices reach with so many more, from the one at a place on.
fn reached(before: u64, across: u32, place: (u16, u16), count: u16) -> u64
    ensures { result ≡ reached before across place.0 place.1 count }
{
    let begin = u64::from(place.1) * u64::from(across) + u64::from(place.0);
    if begin <= before {
        before.max(begin + u64::from(count))
    } else {
        before
    }
}
