/// How the colour planes are sampled (ST 2042-1, colour difference sampling format).
#[derive(Clone, Copy)]
pub enum Sampling {
    S444,
    S422,
    S420,
}

/// One of the three planes of a picture: luma and the two colour differences.
#[derive(Clone, Copy)]
pub enum Component {
    Y,
    C1,
    C2,
}

/// Offsets and excursions of the samples (ST 2042-1, signal range). Decoding uses the excursions alone.
#[derive(Clone, Copy)]
pub struct SignalRange {
    pub luma_offset: u32,
    pub luma_excursion: u32,
    pub colour_offset: u32,
    pub colour_excursion: u32,
}

impl SignalRange {
    ghost use Rattle.std.specs.Prelude.{◌≡◌};
    ghost use Rattle.vc_types.specs.SameValues.{same_range};

    pub(crate) fn is_same(&self, other: &SignalRange) -> bool
        ensures { result ≡ same_range self.now other.now }
    {
        self.luma_offset == other.luma_offset
            && self.luma_excursion == other.luma_excursion
            && self.colour_offset == other.colour_offset
            && self.colour_excursion == other.colour_excursion
    }
}
