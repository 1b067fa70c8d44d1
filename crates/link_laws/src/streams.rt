ghost use Rattle.link_laws.specs.Playback.{StreamsArePlayedBack};
ghost use Rattle.link_laws.specs.Playback.{FirstSessionsBeginOutput, OneSessionIsAll};

/// The elementary stream of datagrams is read whole, none of its units is refused, no field of it is
/// left over, and its frames are all those of the first session: where each unit is within
/// 268,435,456 bytes, and there are no more of them than may be read.
#[tactic(auto, using(crate::proofs::PlayedBack::streams_are_played_back))]
pub fn streams_are_played_back()
    ensures { StreamsArePlayedBack }
{}

/// What is written of the first session begins what is written of all, and of one session it is all.
#[tactic(auto, using(crate::proofs::FirstSession::first_sessions_begin_output, crate::proofs::FirstSession::one_session_is_all))]
pub fn first_sessions_begin_output()
    ensures begins { FirstSessionsBeginOutput }
    ensures alone { OneSessionIsAll }
{}
