//! Transform parameters: how a picture was transformed and cut into slices (ST 2042-1, transform parameters).
#![tactic(auto)]

mod fields;
mod limits;
mod matrix;
mod reader;
mod slices;
mod transform;
mod writer;

pub use limits::{padded_luma_fits, picture_shape};
pub use matrix::quantisation_matrix;
pub use reader::read_params;
pub use slices::slice_counts;
pub use transform::{extended_parameters, wavelet_depth, wavelet_index};
pub use vc_types::ParamsRefusal;
pub use writer::write_params;
