//! Two fields and their frame: the frame's rows are taken from the fields in turn (this project's own).
#![tactic(auto)]

mod laws;
mod row;
mod splitting;
mod weaving;

pub use laws::{split_undoes_weave, weave_undoes_split};
pub use splitting::split;
pub use weaving::weave;
