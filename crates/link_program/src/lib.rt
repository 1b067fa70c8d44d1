//! What the program does, over an input, an output, a report, a wire and hands.
#![tactic(auto)]

mod link;
mod page;
mod wanted;

pub use link::link_main;
pub use page::print_page;
