//! The slices of a picture that is sent, encoded at the indices that a chooser answers.
#![tactic(auto)]

mod ceiling;
mod chooser;
mod fitting;
mod gathering;
mod grids;
mod parts;
mod picture;
mod plan;
mod refusal;
mod rows;
mod run;
mod side_by_side;
mod slices;
mod transform;

pub use chooser::Chooser;
pub use grids::PictureGrids;
pub use picture::{encode_picture, encode_picture_joined};
pub use plan::{header_of, plan_of, presentation_of};
pub use refusal::SliceRefusal;
pub use run::EncodedRun;
