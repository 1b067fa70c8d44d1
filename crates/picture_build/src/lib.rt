//! A picture's planes from the coefficients of its slices (ST 2042-1, picture decoding), and what shapes
//! they have.
#![tactic(auto)]

mod builder;
mod building;
mod cells;
mod dequantising;
mod filling;
mod finishing;
mod halves;
mod laws;
mod long;
mod marking;
mod narrow;
mod output;
mod placed;
mod room;
mod run_rects;
mod sizes;
mod touching;
mod waiting;
mod wide;

pub use builder::{NotPut, PictureBuilder};
pub use building::{build, build_joined};
pub use dequantising::put_dequantised;
pub use laws::{fields_can_be_woven, planes_have_their_shape};
pub use narrow::nested_plane;
pub use room::Room;
