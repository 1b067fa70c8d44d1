//! Elementary streams: data units, each after a parse info header of 13 bytes, read and written unit by unit.
#![tactic(auto)]

mod fault;
mod info;
mod laws;
mod reader;
mod unit;
mod writer;

pub use fault::UnitFault;
pub use info::PARSE_INFO_BYTES;
pub use laws::written_unit_is_read;
pub use reader::{UnitReader, next_unit};
pub use unit::Unit;
pub use writer::write_unit;
