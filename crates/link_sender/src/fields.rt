ghost use Rattle.std.specs.Prelude.{◌≡◌, ◌<◌, ◌^◌};
ghost use Rattle.stream_model.specs.Packing.{packed_flags, packed_timestamp};
ghost use Rattle.vc_types.specs.SenderSettings.{packing_view};

use vc_types::PackSettings;

/// The timestamp of a picture after so many pictures, by its own number.
#[tactic(auto, unfolding(stream_model::specs::Packing::packed_timestamp))]
pub(crate) fn timestamp(s: &PackSettings, before: u64, number: u32) -> u32
    requires { before < 2 ^ 63 }
    ensures { result ≡ packed_timestamp (packing_view s.now) before number }
{
    let half_frames = if s.fields {
        before / 2 * 2 + u64::from(number % 2)
    } else {
        before * 2
    };
    s.rate.stamp_at(half_frames)
}

/// The flags of a picture's fragments: I with field coding, F in a second field (RFC 8450, 4).
pub(crate) fn flags(s: &PackSettings, number: u32) -> u8
    ensures { result ≡ packed_flags (packing_view s.now) number }
{
    if s.fields { 2 + (number % 2) as u8 } else { 0 }
}
