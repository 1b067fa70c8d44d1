ghost use Rattle.std.specs.Prelude.{◌≡◌};
ghost use Rattle.link_model.specs.Sending.{timestamp_of, number_bits};
ghost use Rattle.link_sender.specs.Packing.{IsPlace, picture_at};
ghost use Rattle.vc_types.specs.SenderSettings.{sending_view};

use vc_types::SendSettings;

/// Where a picture stands: in which frame, counted from 0, and whether it is the frame's second
/// field.
#[derive(Clone, Copy)]
pub(crate) struct PicturePlace {
    pub(crate) frame: u64,
    pub(crate) second: bool,
}

// A picture's number among all, counted from the first.
fn picture_at(s: &SendSettings, place: &PicturePlace) -> u64
    requires { IsPlace (sending_view s.now) place.now }
    ensures { result ≡ picture_at (sending_view s.now) place.now }
{
    if s.fields {
        2 * place.frame + u64::from(place.second)
    } else {
        place.frame
    }
}

/// The timestamp of a picture.
#[tactic(auto, unfolding(link_model::specs::Sending::timestamp_of))]
pub(crate) fn timestamp(s: &SendSettings, place: &PicturePlace) -> u32
    requires { IsPlace (sending_view s.now) place.now }
    ensures { result
        ≡ timestamp_of (sending_view s.now) (picture_at (sending_view s.now) place.now) }
{
    let half_frames = 2 * place.frame + u64::from(place.second);
    s.rate.stamp_at(half_frames)
}

/// The 32 bits of a picture's number.
pub(crate) fn picture_number(s: &SendSettings, place: &PicturePlace) -> u32
    requires { IsPlace (sending_view s.now) place.now }
    ensures { result
        ≡ number_bits (sending_view s.now) (picture_at (sending_view s.now) place.now) }
{
    s.picture
        .wrapping_add((picture_at(s, place) % (1 << 32)) as u32)
}
