//! Workers for slices: a crew decodes in threads of its own what a feeder puts into the places of
//! a claim board.
#![tactic(auto)]

mod crew;
mod hands;
mod places;
mod team;
mod work;
mod worker;

pub use crew::Crew;
pub use worker::Worker;
