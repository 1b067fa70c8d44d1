//! Elementary streams and the link: in specs/ the stream of a list of datagrams and the datagrams
//! of a stream, here laws on how they grow.
#![tactic(auto)]

mod laws;
mod packing_laws;

pub use laws::streams_only_grow;
pub use packing_laws::pictures_are_packed_one_by_one;
