ghost use Rattle.std.specs.Prelude.{◌≡◌};
ghost use Rattle.frame_writer.specs.Taking.{read_fault_of};
ghost use Rattle.frame_writer.specs.declared.read_fault.FrameReadFault.TheVariants as fault;

use crate::taking::Short;
use std::alloc::AllocError;

/// Why no frame was read.
#[derive(Clone, Copy, Debug, PartialEq, Eq)]
pub enum FrameReadFault {
    /// The source ended within a frame.
    Cut,
    /// A read failed.
    ReadFault,
    NoMemory,
}

impl From<AllocError> for FrameReadFault {
    ghost from_gives = { λ _ e. e ≡ fault.NoMemory };

    fn from(_: AllocError) -> Self {
        FrameReadFault::NoMemory
    }
}

impl From<Short> for FrameReadFault {
    ghost from_gives = { λ short e. e ≡ read_fault_of short };

    fn from(short: Short) -> Self {
        match short {
            Short::End(_) => FrameReadFault::Cut,
            Short::Failed => FrameReadFault::ReadFault,
        }
    }
}
