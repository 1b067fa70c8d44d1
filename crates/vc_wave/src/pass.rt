/// The way through a level of the transform: from subbands to samples, or from samples to subbands.
#[derive(Clone, Copy)]
pub(crate) enum Direction {
    Synthesis,
    Analysis,
}

/// A pass over the lines of a level: its direction and wavelet, and whether it shifts the samples.
#[derive(Clone, Copy)]
pub(crate) struct Pass {
    pub direction: Direction,
    pub wavelet: u8,
    pub shifted: bool,
}
