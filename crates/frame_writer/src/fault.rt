ghost use Rattle.std.specs.Prelude.{◌≡◌};
ghost use Rattle.frame_writer.specs.declared.fault.FrameFault.TheVariants as fault;

use std::alloc::AllocError;

/// Why a frame isn't written whole.
#[derive(Clone, Copy, Debug, PartialEq, Eq)]
pub enum FrameFault {
    /// A write to the sink failed.
    WriteFault,
    NoMemory,
}

impl From<AllocError> for FrameFault {
    ghost from_gives = { λ _ e. e ≡ fault.NoMemory };

    fn from(_: AllocError) -> Self {
        FrameFault::NoMemory
    }
}
