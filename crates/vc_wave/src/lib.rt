//! The wavelet transform of a component's plane, level by level, in the grid of nested subbands (ST 2042-1,
//! inverse wavelet transform).
#![tactic(auto)]

mod analysis;
mod bands;
mod bounds;
mod extents;
mod forward_bounds;
mod laws;
mod level;
mod lines;
mod long;
mod lower;
mod narrow;
mod narrow_analysis;
mod narrow_forward;
mod output;
mod parting;
mod parts;
mod pass;
mod plane_rows;
mod shift;
mod sides;
mod source;
mod synthesis;
mod turn;

pub use analysis::forward;
pub use forward_bounds::forward_fits_narrow;
pub use laws::inverse_undoes_forward;
pub use long::inverse_long;
pub use narrow_forward::{
    forward_narrow, forward_narrow_joined, forward_room_len, joined_forward_room_len,
};
pub use output::{Format, inverse_output, inverse_output_joined, joined_room_len, room_len};
pub use synthesis::inverse;
pub use turn::{Nesting, nesting_of, row_in_turn};
