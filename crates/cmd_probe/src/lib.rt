//! `probe`: what the datagrams of an input hold, as text: their sources, how the packets of each came, and
//! the headers, transforms and pictures of those that send VC-2.
#![tactic(auto)]

mod arrivals;
mod command;
mod counting;
mod description;
mod formats;
mod header_line;
mod heading;
mod line;
mod matrix;
mod pictures;
mod presets;
mod prober;
mod slices;
mod source;
mod stamps;
mod steps;
mod transform_line;

pub use command::probe;
