//! Laws over several crates: what is sent at quantisation index 0 is received as it was sent, and a picture
//! keeps to its budget if each of its slices can; `decode` writes back what `encode` read at index 0, and
//! `loop` writes what it reads; `play` writes the elementary stream of `unpack` as its frames; an end, a new
//! header and a conflict leave what pictures keep. There are definitions and laws here, and no algorithm.
#![tactic(auto)]

mod hearing;
mod indices;
mod round_trips;
mod streams;

pub use hearing::{conflicts_bring_new_slices, ends_leave_pictures, headers_leave_pictures};
pub use indices::{
    budgets_are_kept, index_zero_is_lossless, pictures_are_received, pictures_come_back,
    sent_budgets_are_kept, sent_streams_come_back,
};
pub use round_trips::{
    encoded_frames_come_back, generated_frames_come_back, looped_frames_come_back,
};
pub use streams::{first_sessions_begin_output, streams_are_played_back};
