//! The quantisers of high-quality slices, and the default quantisation matrices.
#![tactic(auto)]

mod factors;
mod last;
mod laws;
mod matrix;
mod narrow;
mod quantiser;
mod quantising;
mod quotient;
mod reciprocal;

pub use last::last_index_with;
pub use laws::{dequantising_never_shrinks, quantisation_is_near};
pub use matrix::{NoDefault, default_matrix};
pub use narrow::NarrowQuantiser;
pub use quantiser::{Quantiser, dequant, factor, offset, quant};
