//! The outside: where bytes come from and where they go. A source and a sink expose their bytes if they can,
//! and count their faults, so that a caller's contract can state what was read and written, and why it
//! stopped.
#![tactic(auto)]

mod datagrams;
mod front;
mod gate;
mod memory_sink;
mod memory_source;
mod memory_wire;
mod meter;
mod pace;
mod plain_sink;
mod plain_source;
mod plain_wire;
mod sink;
mod source;
mod std_sink;
mod std_source;
mod store;
mod untold_wire;
mod whole;
mod wire;
mod wire_counts;

pub use gate::{Gate, NoGate};
pub use memory_sink::MemSink;
pub use memory_source::MemSource;
pub use memory_wire::MemWire;
pub use pace::{NoPace, Pace, Turn};
pub use plain_sink::PlainSink;
pub use plain_source::PlainSource;
pub use plain_wire::PlainWire;
pub use sink::{Sink, Took, WriteFault};
pub use source::{Got, Source};
pub use std_sink::StdSink;
pub use std_source::StdSource;
pub use untold_wire::UntoldWire;
pub use whole::{Filled, fill, write_all};
pub use wire::{Came, Reached, Sent, Wire};
pub use wire_counts::WireCounts;
