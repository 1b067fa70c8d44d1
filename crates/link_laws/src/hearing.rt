ghost use Rattle.link_laws.specs.MoreHeard.{EndsLeavePictures, HeadersLeavePictures};
ghost use Rattle.link_laws.specs.MoreHeard.{ConflictsBringNewSlices};

/// A datagram that says the sequence ends changes nothing of pictures: each keeps what it kept, and the
/// same is due of all.
#[tactic(auto, using(crate::proofs::MoreHeard::ends_leave_pictures))]
pub fn ends_leave_pictures()
    ensures { EndsLeavePictures }
{}

/// A header that opens a session leaves the pictures of the sessions before it: each keeps what it kept,
/// and the same is due of all.
#[tactic(auto, using(crate::proofs::MoreHeard::headers_leave_pictures))]
pub fn headers_leave_pictures()
    ensures { HeadersLeavePictures }
{}

/// Slices of which one is kept with other bytes change nothing but those that are new: their picture has
/// each slice that it had, and of theirs those that it hadn't; every other picture keeps what it kept.
#[tactic(auto, using(crate::proofs::MoreHeard::conflicts_bring_new_slices))]
pub fn conflicts_bring_new_slices()
    ensures { ConflictsBringNewSlices }
{}
