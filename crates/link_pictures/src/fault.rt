ghost use Rattle.std.specs.Prelude.{◌≡◌};
ghost use Rattle.link_pictures.specs.declared.fault.StreamFault.TheVariants as fault;

use std::alloc::AllocError;
use vc_ports::WriteFault;
use vc_types::NoMemory;

/// Why units aren't written whole.
#[derive(Clone, Copy, Debug, PartialEq, Eq)]
pub enum StreamFault {
    /// A write to the sink failed.
    WriteFault,
    NoMemory,
}

impl From<AllocError> for StreamFault {
    ghost from_gives = { λ _ e. e ≡ fault.NoMemory };

    fn from(_: AllocError) -> Self {
        StreamFault::NoMemory
    }
}

impl From<NoMemory> for StreamFault {
    ghost from_gives = { λ _ e. e ≡ fault.NoMemory };

    fn from(_: NoMemory) -> Self {
        StreamFault::NoMemory
    }
}

impl From<WriteFault> for StreamFault {
    ghost from_gives = { λ _ e. e ≡ fault.WriteFault };

    fn from(_: WriteFault) -> Self {
        StreamFault::WriteFault
    }
}
