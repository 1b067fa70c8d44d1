//! The state of the link's receiver, the list of datagrams that it represents, and the laws that each step
//! keeps to this. There are definitions and laws here, and no algorithm.
#![tactic(auto)]

mod laws;

pub use laws::{
    a_new_receiver_stands_for_nothing, complete_pictures_are_their_slices,
    each_new_slice_is_offered, every_kept_slice_was_offered, new_slices_are_offered,
    offered_slices_are_not_out, only_new_slices_are_offered, receivers_follow_datagrams,
    receivers_follow_the_end, released_slices_are_not_out, unkept_datagrams_change_nothing,
};
