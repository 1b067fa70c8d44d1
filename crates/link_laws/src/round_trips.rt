ghost use Rattle.link_laws.specs.RoundTrip.{EncodedFramesComeBack, GeneratedFramesComeBack};
ghost use Rattle.link_laws.specs.RoundTrip.{LoopedFramesComeBack};

/// The bytes of raw frames that `encode` sends at quantisation index 0 are what `decode` writes of
/// its capture, where none of them is refused and there are fewer than 2^31 pictures.
#[tactic(auto, using(crate::proofs::ComingBack::encoded_frames_come_back))]
pub fn encoded_frames_come_back()
    ensures { EncodedFramesComeBack }
{}

/// Generated frames that are sent at index 0 and the other defaults come back without a
/// difference, where none of them is refused and there are fewer than 2^31 pictures.
#[tactic(auto, using(crate::proofs::GeneratedBack::generated_frames_come_back))]
pub fn generated_frames_come_back()
    ensures { GeneratedFramesComeBack }
{}

/// The bytes of raw frames of fewer than 2^31 pictures that `loop` sends at quantisation index 0
/// come back, where it comes to its end, over a wire that gives what is sent and nothing else.
#[tactic(auto, using(crate::proofs::LoopedBack::looped_frames_come_back))]
pub fn looped_frames_come_back()
    ensures { LoopedFramesComeBack }
{}
