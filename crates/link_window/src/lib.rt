//! The current session and its window of open pictures: the role of each datagram in it, which fragments are
//! late, which slices a fragment brings, and which picture may be released next.
#![tactic(auto)]

mod books;
mod datagram;
mod fragment;
mod heard;
mod hearing;
mod jobs;
mod numbering;
mod picture;
mod progress;
mod standing;
mod window;

pub use fragment::{Fragment, Part};
pub use heard::{Heard, Opening};
pub use hearing::hear;
pub use link_gather::{PictureBook, SlicePart};
pub use link_model::Outcome;
pub use numbering::{base_above, nearest};
pub use standing::{Entered, Standing};
pub use window::{Released, Window};
