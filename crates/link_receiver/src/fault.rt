ghost use Rattle.std.specs.Prelude.{◌≡◌};
ghost use Rattle.frame_writer.specs.declared.fault.FrameFault.{FrameFault};
ghost use Rattle.frame_writer.specs.declared.fault.FrameFault.TheVariants as frame_fault;
ghost use Rattle.link_receiver.specs.Faults.{step_fault, units_fault, enter_fault};
ghost use Rattle.link_receiver.specs.declared.fault.StepFault.TheVariants as step;

use frame_writer::FrameFault;
use link_pictures::StreamFault;
use vc_types::NoMemory;

/// Why a call isn't done whole.
#[derive(Clone, Copy, Debug, PartialEq, Eq)]
pub enum EnterFault {
    NoMemory,
    /// A write to the sink failed.
    WriteFault,
    /// An earlier call failed, or the input has ended.
    Ended,
}

/// Why a step isn't done whole.
#[derive(Clone, Copy, Debug, PartialEq, Eq)]
pub(crate) enum StepFault {
    NoMemory,
    WriteFault,
}

impl From<NoMemory> for StepFault {
    ghost from_gives = { λ _ e. e ≡ step.NoMemory };

    fn from(_: NoMemory) -> Self {
        StepFault::NoMemory
    }
}

impl From<FrameFault> for StepFault {
    ghost from_gives = { λ fault e. e ≡ step_fault fault };

    fn from(fault: FrameFault) -> Self {
        match fault {
            FrameFault::NoMemory => StepFault::NoMemory,
            FrameFault::WriteFault => StepFault::WriteFault,
        }
    }
}

impl From<StreamFault> for StepFault {
    ghost from_gives = { λ fault e. e ≡ units_fault fault };

    fn from(fault: StreamFault) -> Self {
        match fault {
            StreamFault::NoMemory => StepFault::NoMemory,
            StreamFault::WriteFault => StepFault::WriteFault,
        }
    }
}

impl From<StepFault> for EnterFault {
    ghost from_gives = { λ fault e. e ≡ enter_fault fault };

    fn from(fault: StepFault) -> Self {
        match fault {
            StepFault::NoMemory => EnterFault::NoMemory,
            StepFault::WriteFault => EnterFault::WriteFault,
        }
    }
}
