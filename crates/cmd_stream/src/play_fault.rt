ghost use Rattle.std.specs.Prelude.{◌≡◌};
ghost use Rattle.cmd_stream.specs.declared.play_fault.TakeFault.TheVariants as fault;

use frame_writer::FrameFault;
use vc_types::NoMemory;

/// Why a data unit wasn't taken.
#[derive(Clone, Copy)]
pub(crate) enum TakeFault {
    /// It is refused: by the units before it, or as it stands.
    Refused,
    /// A write to the output failed.
    WriteFault,
    NoMemory,
}

impl From<NoMemory> for TakeFault {
    ghost from_gives = { λ _ e. e ≡ fault.NoMemory };

    fn from(_: NoMemory) -> Self {
        TakeFault::NoMemory
    }
}

impl From<FrameFault> for TakeFault {
    ghost use Rattle.cmd_stream.specs.PlayViews.{take_fault};

    ghost from_gives = { λ f e. e ≡ take_fault f };

    fn from(fault: FrameFault) -> Self {
        match fault {
            FrameFault::WriteFault => TakeFault::WriteFault,
            FrameFault::NoMemory => TakeFault::NoMemory,
        }
    }
}
