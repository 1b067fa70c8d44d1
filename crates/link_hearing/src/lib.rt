//! Datagrams received one after another: the inputs that they come from, the listeners that take them, and
//! the loop between the two.
#![tactic(auto)]

mod capture_inlet;
mod form;
mod heard;
mod hearing;
mod inlet;
mod input;
mod listener;
mod pcap_inlet;

pub use form::InputForm;
pub use heard::{HeardInput, RecordCounts};
pub use hearing::hear_all;
pub use inlet::Inlet;
pub use input::hear_input;
pub use listener::{Listener, ListenerFault, has_broken};
