//! The slices of one picture, gathered out of its fragments in whatever order they come.
#![tactic(auto)]

mod book;
mod cutting;
mod gathering;
mod part;
mod slots;

pub use book::PictureBook;
pub use link_model::Outcome;
pub use part::{NewSlice, SlicePart, Taken};
