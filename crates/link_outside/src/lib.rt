//! The two ends of a wire or a capture: where datagrams go one after another, and datagrams received
//! through one buffer.
#![tactic(auto)]

mod capture;
mod inbox;
mod outlet;
mod wire;
mod wire_calls;

pub use capture::CaptureOutlet;
pub use inbox::{Arrived, Inbox};
pub use outlet::{Outlet, OutletFault};
pub use wire::WireOutlet;
pub use wire_calls::{listen, send};
