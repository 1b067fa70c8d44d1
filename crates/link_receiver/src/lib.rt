//! The receiver of the link: it takes datagrams, offers their slices to places and takes them back
//! decoded, and writes each frame, or its units, once its pictures are complete.
#![tactic(auto)]

mod counting;
mod exchanging;
mod fault;
mod keeping;
mod kept;
mod laws;
mod receiver;
mod reception;
mod releasing;
mod showing;
mod taking;
mod threads;

pub use fault::EnterFault;
pub use laws::{draining_follows_the_list, entering_follows_the_list};
pub use link_model::{Outcome, Tally};
pub use receiver::Receiver;
pub use threads::threads_beside;
