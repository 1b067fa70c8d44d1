ghost use Rattle.std.specs.Prelude.{◌<◌, ◌≤◌, length};

use crate::grammar::{excluded_at, first_bad, option_at};
use crate::joint::luma_fits;
use crate::lookup::{given, is_given, is_set, lacks};
use crate::options::{Command, Name, Values, command_of, name_in, names_of, option_row};
use crate::sender::{given_sampling, given_slices};
use vc_types::{Sampling, Words, slices_fit};

/// Why words are outside the grammar: one for each place where reading them can fail, with the user's words
/// that it is about.
#[derive(Clone, Copy)]
pub(crate) enum Mistake<'a> {
    NoWords,
    NoCommand {
        word: &'a str,
    },
    NoOption {
        word: &'a str,
        command: Command,
    },
    /// An option and its value in one word, with `=` between.
    InOneWord {
        word: &'a str,
        option: &'a str,
        value: &'a str,
    },
    /// What seems to be the name of a file.
    File {
        word: &'a str,
        command: Command,
    },
    Twice {
        option: &'a str,
    },
    Excluded {
        option: &'a str,
        earlier: &'a str,
    },
    BadValue {
        option: &'a str,
        value: &'a str,
        values: Values,
    },
    NoValue {
        option: &'a str,
    },
    Missing {
        option: &'static str,
    },
    /// A number that has to be a multiple of 2 or 4, with what asks for that.
    NoMultiple {
        name: Name,
        number: u32,
        unit: u32,
        with: &'static str,
    },
    TooMuchLuma(Luma),
    TooManySlices {
        across: u32,
        down: u32,
    },
    /// An option that is given only beside another, which isn't given.
    Alone {
        option: &'static str,
        beside: &'static str,
    },
    /// The settings don't go together for a reason that has no text of its own.
    Together,
}

/// The settings that decide how many samples of luma a picture has.
#[derive(Clone, Copy)]
pub(crate) struct Luma {
    pub(crate) width: u32,
    pub(crate) height: u32,
    pub(crate) fields: bool,
    pub(crate) depth: u8,
}

/// What is wrong with words that `read_words` refuses.
pub(crate) fn mistake_of<'a>(words: &'a Words) -> Mistake<'a> {
    if words.len() == 0 {
        return Mistake::NoWords;
    }
    let word = words.word(0);
    let Some(command) = command_of(word) else {
        return Mistake::NoCommand { word };
    };
    let bad = first_bad(command, words);
    if bad == 0 || bad >= words.len() {
        what_lacks(command, words)
    } else if bad % 2 == 1 {
        bad_option(command, words, bad)
    } else {
        bad_value(command, words.word(bad - 1), words.word(bad))
    }
}

// What is wrong with the word at a place where an option's name stands.
fn bad_option<'a>(command: Command, words: &'a Words, place: usize) -> Mistake<'a>
    requires { place < length words.now }
{
    let option = words.word(place);
    if option_at(command, words, place).is_none() {
        return no_option(command, option);
    }
    match excluding(words, place) {
        Some(earlier) if earlier != option => Mistake::Excluded { option, earlier },
        _ => Mistake::Twice { option },
    }
}

// The name before a place that excludes the one there.
fn excluding<'a>(words: &'a Words, place: usize) -> Option<&'a str>
    requires { place < length words.now }
{
    for earlier in 1..place {
        if excluded_at(words, place, earlier) {
            return Some(words.word(earlier));
        }
    }
    None
}

// What a word that is no option of a command seems to be.
fn no_option<'a>(command: Command, word: &'a str) -> Mistake<'a> {
    match word.split_once('=') {
        Some((option, value)) if is_option(command, option) => Mistake::InOneWord {
            word,
            option,
            value,
        },
        _ if is_file(word) => Mistake::File { word, command },
        _ => Mistake::NoOption { word, command },
    }
}

fn is_option(command: Command, word: &str) -> bool {
    name_in(names_of(command), word).is_some()
}

// A name with a dot or a folder in it, as `in.yuv`.
fn is_file(word: &str) -> bool {
    !word.starts_with('-') && (word.contains('.') || word.contains('/'))
}

// What is wrong with the value of an option.
fn bad_value<'a>(command: Command, option: &'a str, value: &'a str) -> Mistake<'a> {
    match name_in(names_of(command), option) {
        Some(name) if !is_option(command, value) => Mistake::BadValue {
            option,
            value,
            values: option_row(name).1,
        },
        _ => Mistake::NoValue { option },
    }
}

// What is missing where no word is bad.
fn what_lacks<'a>(command: Command, words: &'a Words) -> Mistake<'a>
    requires { 0 < length words.now }
{
    if words.len() % 2 == 0 {
        return Mistake::NoValue {
            option: words.word(words.len() - 1),
        };
    }
    for name in names_of(command) {
        if lacks(words, *name) {
            return Mistake::Missing {
                option: option_row(*name).0,
            };
        }
    }
    what_clashes(words)
}

// Which of a sender's settings don't go together. A generator's are those with the others at their defaults.
fn what_clashes<'a>(words: &'a Words) -> Mistake<'a>
    requires { 0 < length words.now }
{
    if let Some(uneven) = what_is_uneven(words) {
        return uneven;
    }
    let luma = Luma {
        width: given(words, Name::Width),
        height: given(words, Name::Height),
        fields: is_set(words, Name::Fields),
        depth: given(words, Name::Depth) as u8,
    };
    if !luma_fits(luma.width, luma.height, luma.fields, luma.depth) {
        return Mistake::TooMuchLuma(luma);
    }
    let (across, down) = given_slices(words, luma.width, luma.height, luma.fields);
    if !slices_fit(across, down) {
        return Mistake::TooManySlices { across, down };
    }
    what_is_alone(words)
}

// What is given beside a rate wants one.
fn what_is_alone<'a>(words: &'a Words) -> Mistake<'a>
    requires { 0 < length words.now }
{
    for name in [Name::Aspect, Name::Colour] {
        if is_given(words, name) && !is_given(words, Name::Rate) {
            return Mistake::Alone {
                option: option_row(name).0,
                beside: "--rate",
            };
        }
    }
    Mistake::Together
}

// Which number has to be a multiple of 2 or 4, and isn't: a row for each test.
fn what_is_uneven<'a>(words: &'a Words) -> Option<Mistake<'a>>
    requires { 0 < length words.now }
{
    let width = given(words, Name::Width);
    let height = given(words, Name::Height);
    let picture = given(words, Name::Picture);
    let fields = is_set(words, Name::Fields);
    let is_422 = matches!(given_sampling(words), Sampling::S422);
    let is_420 = matches!(given_sampling(words), Sampling::S420);
    let both = "--sampling 420 and --fields 1";
    let tests = [
        (is_422, Name::Width, width, 2, "--sampling 422"),
        (is_420, Name::Width, width, 2, "--sampling 420"),
        (is_420, Name::Height, height, 2, "--sampling 420"),
        (fields, Name::Height, height, 2, "--fields 1"),
        (fields && is_420, Name::Height, height, 4, both),
        (fields, Name::Picture, picture, 2, "--fields 1"),
    ];
    for (is_asked, name, number, unit, with) in tests {
        if is_asked && number % unit != 0 {
            return Some(Mistake::NoMultiple {
                name,
                number,
                unit,
                with,
            });
        }
    }
    None
}
