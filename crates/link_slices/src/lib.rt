//! Slices on their way to workers and back: as jobs of the machine, and those that are out at places, where
//! others decode them.
#![tactic(auto)]

mod comparing;
mod grouping;
mod out_run;
mod runs_out;

pub use comparing::same_job;
pub use grouping::runs_of;
pub use runs_out::RunsOut;
