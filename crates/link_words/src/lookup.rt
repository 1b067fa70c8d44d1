ghost use Rattle.std.specs.Prelude.{◌≡◌, ◌<◌, ◌≤◌, length, IsTrue, true};
ghost use Rattle.std.specs.Option.{option_map_or};
ghost use Rattle.vc_types.specs.Presentations.{told_fits};
ghost use Rattle.vc_types.specs.Settings.{choice_fits, within};
ghost use Rattle.link_words.specs.Grammar.{IsText};
ghost use Rattle.link_words.specs.Options.{option_row, is_required, HasDefault, IsInRange};
ghost use Rattle.link_words.specs.Settings.{stands_at, place_of, is_given, value_of};
ghost use Rattle.link_words.specs.Settings.{number_meant, given, is_set, text_given, choice_of, lacks};
ghost use Rattle.link_words.specs.Settings.{colour_of, pcap_of, rate_of, tells_whole, told_by};
ghost use Rattle.vc_types.specs.Rates.{rate_view};

use crate::grammar::{is_text, ratio_written, word_at};
use crate::numbers::number_within;
use crate::options::{Name, Values, option_row};
use vc_types::{FrameRate, IndexChoice, Told, Words};

fn stands_at(words: &Words, name: Name, place: usize) -> bool
    requires { place < length words.now }
    ensures { result ≡ stands_at words.now name place }
{
    place % 2 == 1 && word_at(words, place) == option_row(name).0
}

// The place of a name, or the number of words.
#[tactic(auto, using(crate::proofs::Places::first_place_next, crate::proofs::Places::first_place_none), unfolding(crate::specs::Settings::place_of))]
fn place_of(words: &Words, name: Name) -> usize
    requires { 0 < length words.now }
    ensures { result ≡ place_of words.now name }
{
    'names: for place in 1..words.len() {
        if stands_at(words, name, place) {
            return place;
        }
    }
    words.len()
}

pub(crate) fn is_given(words: &Words, name: Name) -> bool
    requires { 0 < length words.now }
    ensures { result ≡ is_given words.now name }
{
    place_of(words, name) < words.len()
}

// The word behind a name; no word where the name is not given.
pub(crate) fn value_of<'a>(words: &'a Words, name: Name) -> &'a str
    requires { 0 < length words.now }
    ensures { result.now ≡ value_of words.now name }
{
    let place = place_of(words, name);
    if place < words.len() - 1 {
        words.word(place + 1)
    } else {
        ""
    }
}

// The number that is given, or the default; the least where there is no default.
fn number_meant(values: Values, word: &str) -> u32
    requires { HasDefault values }
    ensures value { result ≡ number_meant values word.now }
    ensures range { IsInRange values result }
{
    let word = word.as_bytes();
    match values {
        Values::Number(low, high, default) => number_within(word, low, high).unwrap_or(default),
        Values::Optional(low, high) | Values::Required(low, high) => {
            number_within(word, low, high).unwrap_or(low)
        }
        _ => 0,
    }
}

pub(crate) fn given(words: &Words, name: Name) -> u32
    requires some { 0 < length words.now }
    requires default { HasDefault (option_row name).1 }
    ensures value { result ≡ given words.now name }
    ensures range { IsInRange (option_row name).1 result }
{
    number_meant(option_row(name).1, value_of(words, name))
}

pub(crate) fn is_set(words: &Words, name: Name) -> bool
    requires some { 0 < length words.now }
    requires default { HasDefault (option_row name).1 }
    ensures { result ≡ is_set words.now name }
{
    given(words, name) == 1
}

// The text that is given, or the default.
pub(crate) fn text_given<'a>(words: &'a Words, name: Name, default: &'static str) -> &'a str
    requires some { 0 < length words.now }
    requires default { IsText default.now }
    ensures value { result.now ≡ text_given words.now name default.now }
    ensures text { IsText result.now }
{
    let value = value_of(words, name);
    if is_text(value) { value } else { default }
}

pub(crate) fn choice_of(words: &Words) -> IndexChoice
    requires { 0 < length words.now }
    ensures value { result ≡ choice_of words.now }
    ensures fits { IsTrue (choice_fits result) }
{
    if is_given(words, Name::Fit) {
        IndexChoice::Fit(given(words, Name::Fit))
    } else if is_given(words, Name::Budget) {
        IndexChoice::Budget(given(words, Name::Budget))
    } else {
        IndexChoice::Index(given(words, Name::Index) as u8)
    }
}

// That many frames in that many seconds where it is given, and else so many ticks for each frame.
pub(crate) fn rate_of(words: &Words) -> FrameRate
    requires { 0 < length words.now }
    ensures { rate_view result ≡ rate_of words.now }
{
    match ratio_written(u32::MAX, value_of(words, Name::Rate).as_bytes()) {
        Some((frames, seconds)) => FrameRate {
            ticks: 90_000 * u64::from(seconds),
            frames,
        },
        None => FrameRate::of_ticks(given(words, Name::Tick)),
    }
}

// What a header tells of how frames are shown: their rate where it is given, and what is given beside it.
pub(crate) fn told_by(words: &Words) -> Option<Told>
    requires { 0 < length words.now }
    ensures value { result ≡ told_by words.now }
    ensures fits { IsTrue (option_map_or told_fits result true) }
{
    let rate = ratio_written(u32::MAX, value_of(words, Name::Rate).as_bytes())?;
    Some(Told {
        rate,
        aspect: ratio_written(65535, value_of(words, Name::Aspect).as_bytes()),
        colour: colour_of(words),
    })
}

// The number of a colour specification, where it is given.
fn colour_of(words: &Words) -> Option<u8>
    requires { 0 < length words.now }
    ensures value { result ≡ colour_of words.now }
    ensures known { IsTrue (option_map_or (within 1 7) result true) }
{
    if is_given(words, Name::Colour) {
        Some(given(words, Name::Colour) as u8)
    } else {
        None
    }
}

// What is given beside a rate wants one.
pub(crate) fn tells_whole(words: &Words) -> bool
    requires { 0 < length words.now }
    ensures { result ≡ tells_whole words.now }
{
    is_given(words, Name::Rate) || !(is_given(words, Name::Aspect) || is_given(words, Name::Colour))
}

// The port of the datagrams in a pcap file, where the input is one.
pub(crate) fn pcap_of(words: &Words) -> Option<u16>
    requires { 0 < length words.now }
    ensures { result ≡ pcap_of words.now }
{
    if is_set(words, Name::Pcap) {
        Some(given(words, Name::Port) as u16)
    } else {
        None
    }
}

// A name that has to be given is missing.
pub(crate) fn lacks(words: &Words, name: Name) -> bool
    requires { 0 < length words.now }
    ensures { result ≡ lacks words.now name }
{
    option_row(name).1.is_required() && !is_given(words, name)
}
