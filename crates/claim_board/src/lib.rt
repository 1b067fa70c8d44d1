//! The claim board: places where a feeder puts slices and workers claim them. A step is one atomic operation
//! on the word of one place. No call waits except `rest`, in which an idle worker parks, and only the two
//! constructors, `Board::new` and `BoardFeeder::new`, take memory.
#![tactic(auto)]

mod board;
mod cargo;
mod feeder;
mod feeding;
mod laws;
mod made;
mod marks;
mod places;
mod plays;
mod resting;
mod ring;
mod seats;
mod slots;
mod steps;
mod view;
mod working;

pub use board::Board;
pub use feeder::BoardFeeder;
pub use feeding::NotYet;
pub use laws::{each_deed_is_its_events, each_round_has_one_claim, each_step_is_the_last};
pub use resting::{bell, rest, wake};
pub use seats::{BellSeat, FeederSeat, WorkerSeat};
pub use view::{Deed, Entry, Lane, View};
pub use working::{ClaimedRun, HeldPlace, NotWaiting};
