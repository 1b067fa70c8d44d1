ghost use Rattle.std.specs.Prelude.{◌≡◌, ◌<◌, ◌≤◌, ◌%◌, ◌-◌, length, nat_lt, is_some, position, IfSome, ◌==◌};
ghost use Rattle.std.specs.Prelude.{IsTrue, IsAscii};
ghost use Rattle.std.specs.List.{list_all};
ghost use Rattle.vc_types.specs.Presentations.{ratio_within};
ghost use Rattle.link_words.specs.Options.{option_row, names_of, name_in};
ghost use Rattle.link_words.specs.Grammar.{word_at, mark_of, pair_written, sampling_written};
ghost use Rattle.link_words.specs.Grammar.{ratio_written, slices_written};
ghost use Rattle.link_words.specs.Grammar.{is_text, accepts, IsText};
ghost use Rattle.link_words.specs.Grammar.{accepts_as, is_choice, is_speed, excludes, excluded_at};
ghost use Rattle.link_words.specs.Grammar.{is_given_before, option_at, word_fits, first_bad};

use crate::numbers::number_within;
use crate::options::{Command, Name, Values, name_in, names_of, option_row};
use vc_types::{Sampling, Words};

// The word at a place.
pub(crate) fn word_at(words: &Words, place: usize) -> &str
    requires { place < length words.now }
    ensures { result.now ≡ word_at words.now place }
{
    words.word(place)
}

#[tactic(auto, unfolding(crate::specs::Grammar::sampling_written))]
pub(crate) fn sampling_written(word: &str) -> Option<Sampling>
    ensures { result ≡ sampling_written word.now }
{
    match word {
        "444" => Some(Sampling::S444),
        "422" => Some(Sampling::S422),
        "420" => Some(Sampling::S420),
        _ => None,
    }
}

fn first_mark(mark: u8, word: &[u8]) -> Option<usize>
    ensures value { result ≡ position (λ byte. byte == mark) word.now }
    ensures range { IfSome result (λ place. place < length word.now) }
{
    word.iter().position(|byte| *byte == mark)
}

#[tactic(auto, unfolding(crate::specs::Grammar::mark_of))]
fn mark_of(mark: u8, word: &[u8]) -> usize
    ensures value { result ≡ mark_of mark word.now }
    ensures range { result ≤ length word.now }
{
    first_mark(mark, word).unwrap_or(word.len())
}

// Two numbers of 1 to a greatest with a mark between.
#[tactic(auto, using(crate::proofs::Slices::drop_held), unfolding(crate::specs::Grammar::pair_written))]
fn pair_written(mark: u8, high: u32, word: &[u8]) -> Option<(u32, u32)>
    ensures value { result ≡ pair_written mark high word.now }
    ensures range { IfSome result (λ pair. IsTrue (ratio_within high pair)) }
{
    let between = mark_of(mark, word);
    let (first, _) = word.split_at(between);
    let (_, second) = word.split_at((between + 1).min(word.len()));
    let first = number_within(first, 1, high)?;
    let second = number_within(second, 1, high)?;
    Some((first, second))
}

// How many slices, with `x` between.
pub(crate) fn slices_written(word: &[u8]) -> Option<(u32, u32)>
    ensures { result ≡ slices_written word.now }
{
    pair_written(b'x', 65535, word)
}

// A numerator and a denominator of 1 to a greatest, with `:` between.
pub(crate) fn ratio_written(high: u32, word: &[u8]) -> Option<(u32, u32)>
    ensures value { result ≡ ratio_written high word.now }
    ensures range { IfSome result (λ pair. IsTrue (ratio_within high pair)) }
{
    pair_written(b':', high, word)
}

#[tactic(auto, using(crate::proofs::Texts::all_ascii))]
fn are_ascii(bytes: &[u8]) -> bool
    ensures value { result ≡ list_all (λ byte. nat_lt byte 128) bytes.now }
    ensures ascii { IsTrue result → IsAscii bytes.now }
{
    bytes.iter().all(|byte| *byte < 128)
}

// 1 to 255 bytes of ASCII.
#[tactic(auto, unfolding(crate::specs::Grammar::is_text))]
pub(crate) fn is_text(word: &str) -> bool
    ensures value { result ≡ is_text word.now }
    ensures text { IsTrue result → IsText word.now }
{
    !word.is_empty() && word.len() < 256 && are_ascii(word.as_bytes())
}

fn accepts(values: Values, word: &str) -> bool
    ensures { result ≡ accepts values word.now }
{
    match values {
        Values::Number(low, high, _) | Values::Optional(low, high) | Values::Required(low, high) =>
            { number_within(word.as_bytes(), low, high).is_some() }
        Values::Subsampling => sampling_written(word).is_some(),
        Values::Pair => slices_written(word.as_bytes()).is_some(),
        Values::Ratio(high) => ratio_written(high, word.as_bytes()).is_some(),
        Values::Address => !word.is_empty(),
        Values::Text => is_text(word),
    }
}

fn accepts_as(name: Option<Name>, word: &str) -> bool
    ensures { result ≡ accepts_as name word.now }
{
    match name {
        Some(name) => accepts(option_row(name).1, word),
        None => false,
    }
}

fn is_choice(word: &str) -> bool
    ensures { result ≡ is_choice word.now }
{
    word == "--index" || word == "--fit" || word == "--budget"
}

fn is_speed(word: &str) -> bool
    ensures { result ≡ is_speed word.now }
{
    word == "--tick" || word == "--rate"
}

fn excludes(earlier: &str, later: &str) -> bool
    ensures { result ≡ excludes earlier.now later.now }
{
    earlier == later
        || (is_choice(earlier) && is_choice(later))
        || (is_speed(earlier) && is_speed(later))
}

pub(crate) fn excluded_at(words: &Words, place: usize, earlier: usize) -> bool
    requires place { place < length words.now }
    requires earlier { earlier < length words.now }
    ensures { result ≡ excluded_at words.now place earlier }
{
    earlier % 2 == 1 && excludes(word_at(words, earlier), word_at(words, place))
}

#[tactic(auto, using(crate::proofs::Places::first_place_next, crate::proofs::Places::first_place_none), unfolding(crate::specs::Grammar::is_given_before))]
fn is_given_before(words: &Words, place: usize) -> bool
    requires some { 1 ≤ place }
    requires place { place < length words.now }
    ensures { result ≡ is_given_before words.now place }
{
    'names: for earlier in 1..place {
        if excluded_at(words, place, earlier) {
            return true;
        }
    }
    false
}

pub(crate) fn option_at(command: Command, words: &Words, place: usize) -> Option<Name>
    requires { place < length words.now }
    ensures { result ≡ option_at command words.now place }
{
    name_in(names_of(command), word_at(words, place))
}

#[tactic(auto, unfolding(crate::specs::Grammar::word_fits))]
fn word_fits(command: Command, words: &Words, place: usize) -> bool
    requires some { 1 ≤ place }
    requires place { place < length words.now }
    ensures { result ≡ word_fits command words.now place }
{
    if place % 2 == 1 {
        option_at(command, words, place).is_some() && !is_given_before(words, place)
    } else {
        accepts_as(option_at(command, words, place - 1), word_at(words, place))
    }
}

// The place of the first bad word behind the command, or the number of words.
#[tactic(auto, using(crate::proofs::Places::first_place_next, crate::proofs::Places::first_place_none), unfolding(crate::specs::Grammar::first_bad))]
pub(crate) fn first_bad(command: Command, words: &Words) -> usize
    requires { 0 < length words.now }
    ensures { result ≡ first_bad command words.now }
{
    'words: for place in 1..words.len() {
        if !word_fits(command, words, place) {
            return place;
        }
    }
    words.len()
}
