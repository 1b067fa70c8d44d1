use crate::help::{push_accepted, push_overview, push_words, word_of};
use crate::mistake::{Luma, Mistake, mistake_of};
use crate::options::{Command, Values, command_of, option_row};
use std::alloc::Global;
use vc_types::{NoMemory, Words, picture_height};

// How many letters of a user's word are repeated.
const LETTERS: usize = 40;

// The most samples of luma that a picture may have.
const MOST_LUMA: u64 = 8_912_896;

/// What is wrong with words that `read_words` refuses, in a line, and in another where the options stand.
/// Where there is no word at all, the page of `overview_page`. No clause says so: rows of the built program
/// do.
pub fn explain(alloc: Global, words: &Words) -> Result<String, NoMemory> {
    let mut text = String::new(alloc);
    match mistake_of(words) {
        Mistake::NoWords => push_overview(&mut text)?,
        mistake => {
            push_mistake(&mut text, &mistake)?;
            push_see(&mut text, words)?;
        }
    }
    Ok(text)
}

// Where the options of the command stand, if there is one.
fn push_see(text: &mut String, words: &Words) -> Result<(), NoMemory> {
    push_words(text, "\nsee vc2link ")?;
    if words.len() > 0 && command_of(words.word(0)).is_some() {
        push_words(text, words.word(0))?;
        push_words(text, " ")?;
    }
    push_words(text, "--help\n")
}

fn push_mistake(text: &mut String, mistake: &Mistake) -> Result<(), NoMemory> {
    match *mistake {
        Mistake::NoWords => Ok(()),
        Mistake::NoCommand { word } => push_about(text, word, " is no command"),
        Mistake::NoOption { word, command } => {
            push_about(text, word, " is no option of ")?;
            push_words(text, word_of(command))
        }
        Mistake::InOneWord {
            word,
            option,
            value,
        } => {
            push_about(text, word, ": the value is a word of its own, as in ")?;
            push_about(text, option, " ")?;
            push_word(text, value)
        }
        Mistake::File { word, command } => {
            push_about(text, word, ": files are redirected, as in ")?;
            push_words(text, mark_of(command))?;
            push_word(text, word)
        }
        Mistake::Twice { option } => push_about(text, option, ": it is given twice"),
        Mistake::Excluded { option, earlier } => {
            push_about(text, option, ": not with ")?;
            push_words(text, earlier)
        }
        Mistake::BadValue {
            option,
            value,
            values,
        } => push_bad_value(text, option, value, values),
        Mistake::NoValue { option } => push_about(text, option, ": its value is missing"),
        Mistake::Missing { option } => push_about(text, option, " is missing"),
        Mistake::NoMultiple {
            name,
            number,
            unit,
            with,
        } => {
            write!(text, "{} {number} ", option_row(name).0)?;
            push_words(
                text,
                if unit == 2 {
                    "is odd: it must be even"
                } else {
                    "is no multiple of 4: it must be one"
                },
            )?;
            push_about(text, " with ", with)
        }
        Mistake::TooMuchLuma(luma) => push_luma(text, luma),
        Mistake::TooManySlices { across, down } => push_slices(text, across, down),
        Mistake::Alone { option, beside } => {
            push_about(text, option, ": only with ")?;
            push_words(text, beside)
        }
        Mistake::Together => push_words(text, "the settings don't go together"),
    }
}

// How a file is given to a command: most read one, the others only write.
fn mark_of(command: Command) -> &'static str {
    match command {
        Command::Recv | Command::Record | Command::Gen => "> ",
        _ => "< ",
    }
}

fn push_bad_value(
    text: &mut String,
    option: &str,
    value: &str,
    values: Values,
) -> Result<(), NoMemory> {
    push_about(text, option, " ")?;
    push_about(text, value, ": ")?;
    push_accepted(text, values)
}

// A picture is a frame or a field. It may be too large only because its sides are padded.
fn push_luma(text: &mut String, luma: Luma) -> Result<(), NoMemory> {
    let height = picture_height(luma.fields, luma.height);
    if luma.fields {
        push_words(text, "a field of ")?;
    }
    write!(
        text,
        "{}x{height} has more than {MOST_LUMA} samples of luma",
        luma.width
    )?;
    if u64::from(luma.width) * u64::from(height) <= MOST_LUMA {
        write!(
            text,
            " once its sides are padded for --depth {}",
            luma.depth
        )?;
    }
    Ok(())
}

fn push_slices(text: &mut String, across: u32, down: u32) -> Result<(), NoMemory> {
    write!(
        text,
        "--slices {across}x{down}: a picture has at most 131072 slices"
    )?;
    Ok(())
}

fn push_about(text: &mut String, word: &str, what: &str) -> Result<(), NoMemory> {
    push_word(text, word)?;
    push_words(text, what)
}

// A word of the user, cut and without control characters; '' where it has no letter.
fn push_word(text: &mut String, word: &str) -> Result<(), NoMemory> {
    if word.is_empty() {
        return push_words(text, "''");
    }
    for (place, letter) in word.chars().enumerate() {
        if place == LETTERS {
            return push_words(text, "..");
        }
        text.push(if letter.is_control() { '?' } else { letter })?;
    }
    Ok(())
}
