ghost use Rattle.std.specs.Prelude.{◌≡◌};
ghost use Rattle.link_core.specs.declared.event.StepRefusal.TheVariants as refusal;

use bytes::Bytes;
use vc_types::NoMemory;

/// What happens to the machine, and the conditions of it in their order. Places are numbered from
/// 0, and so are the slices of a picture.
#[derive(Drop)]
pub enum Event {
    /// A datagram comes in: 1 the input hasn't ended.
    Enter(Bytes),
    /// The job of a slice comes to a place, whose serial rises: 1 the place is empty, with a
    /// serial below 2^61; 2 the slice is kept; 3 its picture isn't closed; 4 no place has the
    /// slice; 5 it isn't decoded.
    Put { place: u32, number: u64, index: u32 },
    /// A worker takes the job that waits in a place: 1 it is waiting.
    Claim { worker: u32, place: u32 },
    /// What is held in a place with this serial is decoded. With another serial, and where the
    /// place isn't held, nothing happens.
    Complete { place: u32, serial: u64 },
    /// The feeder takes what is done in a place, as the answer to its slice if the slice has none
    /// and its picture isn't released and has that very job: 1 it is done.
    Take { place: u32 },
    /// The feeder takes back the job that waits in a place: 1 it is waiting.
    Withdraw { place: u32 },
    /// The feeder gives up the job that is held in a place: 1 it is held.
    Leave { place: u32 },
    /// The feeder decodes a slice itself: 1 the slice is kept; 2 it isn't decoded.
    Redo { number: u64, index: u32 },
    /// A picture is released, and its frame is written if it is the last one of a frame: 1 it is
    /// the least picture that may be released; 2 where it is complete, each of its slices is
    /// decoded.
    Release { number: u64 },
    /// The input ends.
    Finish,
}

/// Why a step isn't made.
#[derive(Clone, Copy, Debug, PartialEq, Eq)]
pub enum StepRefusal {
    /// The number, from 1, of the first condition of the event that is broken.
    NotLegal { condition: u8 },
    NoMemory,
}

impl From<NoMemory> for StepRefusal {
    ghost from_gives = { λ _ e. e ≡ refusal.NoMemory };

    fn from(_: NoMemory) -> Self {
        StepRefusal::NoMemory
    }
}
