//! Sequence headers: what a stream states about its pictures before the first of them (ST 2042-1, sequence
//! header).
#![tactic(auto)]

mod fields;
mod formats;
mod parts;
mod reader;
mod writer;

pub use reader::{WholeHeader, read_header, read_header_of, read_whole_header_of};
pub use vc_types::HeaderRefusal;
pub use writer::{write_header, write_header_with};
