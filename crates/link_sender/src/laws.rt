ghost use Rattle.std.specs.Prelude.{◌≡◌, ℕ, List, length};
ghost use Rattle.link_model.specs.Sending.{end_datagram, sent_datagrams};
ghost use Rattle.link_sender.specs.Counts.{AreFew, HaveSoundSamples};
ghost use Rattle.vc_types.specs.declared.settings.SendSettings.{SendSettings};
ghost use Rattle.vc_types.specs.Planes.{Planes};
ghost use Rattle.vc_types.specs.SenderSettings.{sending_view};

/// Frames are sent in few datagrams and few bytes, at whichever indices: a picture has at most
/// 131,072 slices and 8,912,896 samples in each plane, each of its coefficients has a short code,
/// and the slices share the coefficients. The end of the sequence has 16 bytes.
pub fn frames_are_few_bytes()
    ensures frames { (settings : SendSettings) (indices : List ℕ) (frames : List Planes)
        → HaveSoundSamples (sending_view settings) frames → AreFew (length frames)
        (sent_datagrams (sending_view settings) indices frames) }
    ensures end { (settings : SendSettings) (number frames : ℕ)
        → length (end_datagram (sending_view settings) number frames) ≡ 16 }
{}
