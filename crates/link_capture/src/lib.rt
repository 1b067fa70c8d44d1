//! Captures: lists of datagrams as bytes, each after its length in 2 bytes, read and written entry by entry.
#![tactic(auto)]

mod buffer;
mod buffering;
mod fault;
mod laws;
mod reader;
mod writer;

pub use buffer::EntryBuffer;
pub use fault::EntryFault;
pub use laws::entries_are_read_back;
pub use reader::{CaptureReader, next_entry};
pub use writer::put_entry;
