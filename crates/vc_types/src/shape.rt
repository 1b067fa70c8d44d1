/// The sizes of one picture's planes in samples, and the bits of their samples.
#[derive(Clone, Copy)]
pub struct Shape {
    pub luma_width: u32,
    pub luma_height: u32,
    pub colour_width: u32,
    pub colour_height: u32,
    pub luma_depth: u8,
    pub colour_depth: u8,
}

impl Shape {
    ghost use Rattle.std.specs.Prelude.{◌≡◌};
    ghost use Rattle.vc_types.specs.SameValues.{same_luma, same_colour};

    pub(crate) fn has_same_luma(&self, other: &Shape) -> bool
        ensures { result ≡ same_luma self.now other.now }
    {
        self.luma_width == other.luma_width
            && self.luma_height == other.luma_height
            && self.luma_depth == other.luma_depth
    }

    pub(crate) fn has_same_colour(&self, other: &Shape) -> bool
        ensures { result ≡ same_colour self.now other.now }
    {
        self.colour_width == other.colour_width
            && self.colour_height == other.colour_height
            && self.colour_depth == other.colour_depth
    }
}
