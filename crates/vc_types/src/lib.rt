//! The terms that every other crate shares: the values of VC-2, and in specs/ the standard's definitions of
//! them.
#![tactic(auto)]

mod choice;
mod grid;
mod header;
mod laws;
mod limits;
mod memory;
mod need;
mod parse_codes;
mod plan;
mod plane;
mod presentation;
mod profiles;
mod rate;
mod ratio;
mod rect;
mod refusal;
mod settings;
mod shape;
mod stamps;
mod video;
mod words;

pub use choice::IndexChoice;
pub use grid::Grid;
pub use header::Header;
pub use laws::{
    greatest_divisors_are_common, headers_of_one_value_are_equal,
    parameters_of_one_value_are_equal, video_depths_are_least,
};
pub use limits::{dimensions_fit, padded, picture_height, slices_fit};
pub use memory::NoMemory;
pub use need::SliceNeed;
pub use parse_codes::{
    AUXILIARY_DATA, END_OF_SEQUENCE, HIGH_QUALITY_FRAGMENT, HIGH_QUALITY_PICTURE,
    LOW_DELAY_PICTURE, PADDING_DATA, SEQUENCE_HEADER,
};
pub use plan::Plan;
pub use plane::Plane;
pub use presentation::{Choice, CleanArea, CodedPresentation, Colour, Presentation};
pub use profiles::{HIGH_QUALITY_PROFILE, LOW_DELAY_PROFILE};
pub use rate::FrameRate;
pub use rect::Rect;
pub use refusal::{HeaderRefusal, ParamsRefusal, Short, Unsound};
pub use settings::{GenSettings, PackSettings, SendSettings, Told};
pub use shape::Shape;
pub use video::{Component, Sampling, SignalRange};
pub use words::Words;
