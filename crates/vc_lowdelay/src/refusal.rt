ghost use Rattle.std.specs.Prelude.{◌≡◌};
ghost use Rattle.vc_lowdelay.specs.declared.refusal.LowRefusal.TheVariants as refusals;
ghost use Rattle.vc_lowdelay.specs.declared.refusal.NarrowFault.TheVariants as faults;

use std::alloc::{AllocError, AllocFailed};
use vc_slice::TooWide;
use vc_types::NoMemory;

/// Why a low-delay picture isn't decoded.
#[derive(Clone, Copy, Debug, PartialEq, Eq)]
pub enum LowRefusal {
    /// The bytes end before the last slice does.
    Short,
    /// A coefficient has a magnitude of 2^60 or more, before its prediction or with it.
    CoefficientRange,
    NoMemory,
}

/// A coefficient has a magnitude of 2^60 or more.
#[derive(Clone, Copy)]
pub(crate) struct LargeValue;

/// Why a picture isn't decoded in 32 bits.
#[derive(Clone, Copy)]
pub(crate) enum NarrowFault {
    /// They may not be enough.
    TooWide,
    NoMemory,
}

impl From<AllocError> for LowRefusal {
    ghost from_gives = { λ _ e. e ≡ refusals.NoMemory };

    fn from(_: AllocError) -> Self {
        LowRefusal::NoMemory
    }
}

impl<T: Drop> From<AllocFailed<T>> for LowRefusal {
    ghost from_gives = { λ _ e. e ≡ refusals.NoMemory };

    fn from(_: AllocFailed<T>) -> Self {
        LowRefusal::NoMemory
    }
}

impl From<NoMemory> for LowRefusal {
    ghost from_gives = { λ _ e. e ≡ refusals.NoMemory };

    fn from(_: NoMemory) -> Self {
        LowRefusal::NoMemory
    }
}

impl From<LargeValue> for LowRefusal {
    ghost from_gives = { λ _ e. e ≡ refusals.CoefficientRange };

    fn from(_: LargeValue) -> Self {
        LowRefusal::CoefficientRange
    }
}

impl From<TooWide> for NarrowFault {
    ghost from_gives = { λ _ e. e ≡ faults.TooWide };

    fn from(_: TooWide) -> Self {
        NarrowFault::TooWide
    }
}

impl From<LargeValue> for NarrowFault {
    ghost from_gives = { λ _ e. e ≡ faults.TooWide };

    fn from(_: LargeValue) -> Self {
        NarrowFault::TooWide
    }
}

impl From<AllocError> for NarrowFault {
    ghost from_gives = { λ _ e. e ≡ faults.NoMemory };

    fn from(_: AllocError) -> Self {
        NarrowFault::NoMemory
    }
}

impl From<NoMemory> for NarrowFault {
    ghost from_gives = { λ _ e. e ≡ faults.NoMemory };

    fn from(_: NoMemory) -> Self {
        NarrowFault::NoMemory
    }
}
