//! `play` and `pack`: an elementary stream, picture by picture, to raw frames or to the datagrams that
//! carry its pictures.
#![tactic(auto)]

mod coding;
mod machine;
mod opened;
mod pack_fault;
mod pack_slices;
mod packing;
mod pairs;
mod picture;
mod play_fault;
mod play_slices;
mod playback;
mod player;
mod playing;
mod stream;
mod telling;
mod totals;

pub use coding::Coding;
pub use packing::pack;
pub use playing::{play, reading_ended};
