ghost use Rattle.std.specs.Prelude.{◌≡◌};
ghost use Rattle.link_sender.specs.Refusals.{of_slices};
ghost use Rattle.link_sender.specs.declared.refusal.SendRefusal.TheVariants as refusals;

use picture_encode::SliceRefusal;
use std::alloc::AllocError;
use vc_types::NoMemory;

/// Why a frame isn't sent.
#[derive(Clone, Copy, Debug, PartialEq, Eq)]
pub enum SendRefusal {
    /// The first sample in raw order that has more bits than its plane's samples: the number of
    /// its plane, its place there and its value.
    SampleRange { plane: u8, place: u64, value: u16 },
    /// The first slice that is too large for its lengths or for a datagram, by its number in its
    /// picture, and its length in bytes.
    SliceTooLarge { slice: u32, bytes: u64 },
    NoMemory,
}

impl From<SliceRefusal> for SendRefusal {
    ghost from_gives = { λ refusal e. e ≡ of_slices refusal };

    fn from(refusal: SliceRefusal) -> Self {
        match refusal {
            SliceRefusal::SliceTooLarge { slice, bytes } => {
                SendRefusal::SliceTooLarge { slice, bytes }
            }
            SliceRefusal::NoMemory => SendRefusal::NoMemory,
        }
    }
}

impl From<NoMemory> for SendRefusal {
    ghost from_gives = { λ _ e. e ≡ refusals.NoMemory };

    fn from(_: NoMemory) -> Self {
        SendRefusal::NoMemory
    }
}

impl From<AllocError> for SendRefusal {
    ghost from_gives = { λ _ e. e ≡ refusals.NoMemory };

    fn from(_: AllocError) -> Self {
        SendRefusal::NoMemory
    }
}
