//! Wavelet lifting: lines of samples taken apart and put together in place (ST 2042-1, lifting).
#![tactic(auto)]

mod columns;
mod halves;
mod laws;
mod line;
mod narrow;
mod order;
mod ranges;
mod reach;
mod step;
mod steps;
mod table;

pub use columns::{analyse_columns, synth_columns};
pub use halves::Halves;
pub use laws::{lines_grow_little, lines_stand_alone, synthesis_undoes_analysis};
pub use line::{analyse, synth};
pub use narrow::{analyse_narrow, synth_narrow};
pub use ranges::{narrow_analysis_bound, narrow_bound};
pub use reach::{Reach, reach_of};
