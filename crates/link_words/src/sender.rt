ghost use Rattle.std.specs.Prelude.{◌≡◌, ◌<◌, ◌≤◌, length};
ghost use Rattle.std.specs.Option.{option_map};
ghost use Rattle.vc_types.specs.SenderSettings.{generating_view, sending_view};
ghost use Rattle.link_words.specs.Settings.{given_sampling, given_slices, generator, sender};

use crate::grammar::{sampling_written, slices_written};
use crate::joint::{can_be_sent, default_across, default_down, first_picture_fits, luma_fits};
use crate::lookup::{choice_of, given, is_set, rate_of, tells_whole, told_by, value_of};
use crate::options::Name;
use vc_types::{GenSettings, Sampling, SendSettings, Words, dimensions_fit, slices_fit};

pub(crate) fn given_sampling(words: &Words) -> Sampling
    requires { 0 < length words.now }
    ensures { result ≡ given_sampling words.now }
{
    sampling_written(value_of(words, Name::Sampling)).unwrap_or(Sampling::S422)
}

// How many slices a picture has across and down.
pub(crate) fn given_slices(words: &Words, width: u32, height: u32, fields: bool) -> (u32, u32)
    requires some { 0 < length words.now }
    requires width { width ≤ 8192 }
    requires height { height ≤ 8192 }
    ensures { result ≡ given_slices words.now width height fields }
{
    slices_written(value_of(words, Name::Slices).as_bytes()).unwrap_or((
        default_across(width),
        default_down(fields, height),
    ))
}

// What a sender is set to, where its settings go together.
#[tactic(auto, unfolding(crate::specs::Settings::sender))]
pub(crate) fn sender(words: &Words) -> Option<SendSettings>
    requires { 0 < length words.now }
    ensures { option_map sending_view result ≡ sender words.now }
{
    let width = given(words, Name::Width);
    let height = given(words, Name::Height);
    let sampling = given_sampling(words);
    let fields = is_set(words, Name::Fields);
    let depth = given(words, Name::Depth) as u8;
    let (slices_x, slices_y) = given_slices(words, width, height, fields);
    let picture = given(words, Name::Picture);
    let fits = dimensions_fit(width, height, sampling, fields)
        && slices_fit(slices_x, slices_y)
        && luma_fits(width, height, fields, depth)
        && first_picture_fits(fields, picture)
        && tells_whole(words);
    if !fits {
        return None;
    }
    Some(SendSettings {
        width,
        height,
        sampling,
        range: given(words, Name::Range) as u8,
        fields,
        top: is_set(words, Name::Top),
        wavelet: given(words, Name::Wavelet) as u8,
        depth,
        slices_x,
        slices_y,
        prefix: given(words, Name::Prefix),
        scaler: given(words, Name::Scaler),
        size: given(words, Name::Size),
        choice: choice_of(words),
        ssrc: given(words, Name::Ssrc),
        seq: given(words, Name::Seq),
        picture,
        rate: rate_of(words),
        pt: given(words, Name::Pt) as u8,
        told: told_by(words),
    })
}

// Which frames are generated, where they can be sent.
#[tactic(auto, unfolding(crate::specs::Settings::generator))]
pub(crate) fn generator(words: &Words) -> Option<GenSettings>
    requires { 0 < length words.now }
    ensures { option_map generating_view result ≡ generator words.now }
{
    let width = given(words, Name::Width);
    let height = given(words, Name::Height);
    let sampling = given_sampling(words);
    let fields = is_set(words, Name::Fields);
    let fits = dimensions_fit(width, height, sampling, fields)
        && can_be_sent(width, height, fields);
    if !fits {
        return None;
    }
    Some(GenSettings {
        width,
        height,
        sampling,
        range: given(words, Name::Range) as u8,
        fields,
        top: is_set(words, Name::Top),
        seed: given(words, Name::Seed),
        frames: given(words, Name::Count),
    })
}
