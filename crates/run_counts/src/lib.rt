//! What a run has come to so far: counts that its commands tell as they go on, and that another thread may
//! read meanwhile. They promise nothing, and no clause speaks of them.
#![tactic(auto)]

mod counts;
mod missing;

pub use counts::{Counts, Flow, RunCounts};
pub use missing::{Gap, MOST_GAPS, MissingFrames};
