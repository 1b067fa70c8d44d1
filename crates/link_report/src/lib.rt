//! The report that a command writes at its end, to the byte: its counts, and the line for its status.
#![tactic(auto)]

mod answer;
mod counts;
mod ending;
mod fault;
mod summary;
mod writing;

pub use answer::{Answer, write_answer};
pub use ending::Ending;
pub use fault::ReportFault;
pub use summary::Summary;
pub use writing::write_tally;
