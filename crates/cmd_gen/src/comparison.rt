ghost use Rattle.std.specs.Prelude.{◌≤◌, ◌<◌, ◌+◌, ◌^◌};

/// Compares raw frames with the generated ones, as their bytes come.
#[derive(Drop)]
pub struct Comparison {
    pub(crate) depth: u8,
    pub(crate) wide: bool,
    /// The generator's state behind the samples that were compared.
    pub(crate) state: u64,
    /// How many samples are to be compared yet.
    pub(crate) left: u64,
    /// The lower byte of a sample whose upper one is still to come.
    pub(crate) low: Option<u8>,
    pub(crate) different: u64,
    ghost some_bits: { 1 ≤ depth },
    ghost few_bits: { depth ≤ 16 },
    ghost few_samples: { different + left < 2 ^ 64 },
}
