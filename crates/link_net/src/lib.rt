//! A wire over the system's UDP sockets. A thread of its own reads what comes into memory, so that a receiver
//! that is busy holds up no datagram.
#![tactic(auto)]

mod backlog;
mod launcher;
mod live_wire;
mod notes;
mod reader;
mod send_errors;
mod socket_buffer;
mod telling;

pub use launcher::Launcher;
pub use live_wire::{Limits, LiveWire};
pub use notes::{BacklogNotes, WireNotes};
pub use reader::Reader;
