ghost use Rattle.std.specs.Prelude.{◌≡◌};
ghost use Rattle.picture_encode.specs.declared.refusal.SliceRefusal.TheVariants as refusals;

use std::alloc::AllocError;
use vc_types::NoMemory;

/// Why a picture's slices aren't encoded.
#[derive(Clone, Copy, Debug, PartialEq, Eq)]
pub enum SliceRefusal {
    /// The first slice that is too large for its lengths or for a datagram, by its number in raster
    /// order, and its length in bytes.
    SliceTooLarge { slice: u32, bytes: u64 },
    NoMemory,
}

impl From<NoMemory> for SliceRefusal {
    ghost from_gives = { λ _ e. e ≡ refusals.NoMemory };

    fn from(_: NoMemory) -> Self {
        SliceRefusal::NoMemory
    }
}

impl From<AllocError> for SliceRefusal {
    ghost from_gives = { λ _ e. e ≡ refusals.NoMemory };

    fn from(_: AllocError) -> Self {
        SliceRefusal::NoMemory
    }
}
