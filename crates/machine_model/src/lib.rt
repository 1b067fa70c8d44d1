//! The feeder and its workers as a machine over events: definitions, and the laws of every interleaving.
#![tactic(auto)]

mod laws;
mod place_state;

pub use laws::{
    events_are_legal_in_two_halves, events_change_places_step_by_step,
    every_answer_is_its_own_slice, every_interleaving_writes_what_is_due,
    pictures_are_released_least_first, the_feeder_goes_a_legal_way, the_feeder_is_never_stuck,
};
pub use place_state::PlaceState;
