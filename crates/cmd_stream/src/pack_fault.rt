ghost use Rattle.std.specs.Prelude.{◌≡◌};
ghost use Rattle.cmd_stream.specs.declared.pack_fault.UnitRefusal.TheVariants as refusals;

use link_sender::SendRefusal;
use vc_ports::WriteFault;
use vc_types::NoMemory;

/// Why a data unit wasn't packed.
#[derive(Clone, Copy)]
pub(crate) enum UnitRefusal {
    /// It is refused by the units before it, or as it stands.
    Bad,
    /// A part of its picture has no room in a datagram: a slice, or else slice 0 stands for it.
    TooLarge { slice: u32, bytes: u64 },
    /// A write to the output failed.
    WriteFault,
    NoMemory,
}

impl From<NoMemory> for UnitRefusal {
    ghost from_gives = { λ _ e. e ≡ refusals.NoMemory };

    fn from(_: NoMemory) -> Self {
        UnitRefusal::NoMemory
    }
}

impl From<WriteFault> for UnitRefusal {
    ghost from_gives = { λ _ e. e ≡ refusals.WriteFault };

    fn from(_: WriteFault) -> Self {
        UnitRefusal::WriteFault
    }
}

impl From<SendRefusal> for UnitRefusal {
    ghost use Rattle.cmd_stream.specs.PackSteps.{of_refusal};

    ghost from_gives = { λ refusal e. e ≡ of_refusal refusal };

    fn from(refusal: SendRefusal) -> Self {
        match refusal {
            SendRefusal::SliceTooLarge { slice, bytes } => UnitRefusal::TooLarge { slice, bytes },
            SendRefusal::SampleRange { .. } | SendRefusal::NoMemory => UnitRefusal::NoMemory,
        }
    }
}
