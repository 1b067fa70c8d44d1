//! The places of coefficients: padded planes, subbands, slices, and the places of a slice's coefficients.
#![tactic(auto)]

mod cell_rect;
mod laws;
mod padding;
mod parts;
mod places;
mod runs;
mod slices;
mod spans;
mod subbands;

pub use cell_rect::CellRect;
pub use laws::each_cell_is_met_once;
pub use padding::padded;
pub use parts::slice_rects;
pub use places::place_of;
pub use runs::run_rects;
pub use slices::{slice_len, slice_rect};
pub use subbands::{band, bands};
pub use vc_types::Rect;
