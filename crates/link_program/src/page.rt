use link_report::Ending;
use link_words::{command_page, help_page, overview_page, read_words};
use std::alloc::Global;
use vc_ports::{Sink, write_all};
use vc_types::{NoMemory, Words};

const VERSION: &str = "vc2link 1.0\n";

/// Prints the text that the words ask for, `--help`, `--version`, `help` or a command and `--help`, and
/// answers the status; none where the words are others, which `link_main` reads. Words of the grammar ask
/// for none, whatever their values are.
pub fn print_page<O: Sink>(alloc: Global, words: &Words, output: &mut O) -> Option<u8> {
    match page_of_words(alloc, words)? {
        Ok(page) => match write_all(output, page.as_bytes()) {
            Ok(()) => Some(0),
            Err(_) => Some(Ending::OutputFailed.status()),
        },
        Err(NoMemory) => Some(Ending::NoMemory.status()),
    }
}

fn page_of_words(alloc: Global, words: &Words) -> Option<Result<String, NoMemory>> {
    if words.len() == 1 {
        page_of(alloc, words.word(0))
    } else if ask_for_help(words) && read_words(words).is_err() {
        page_of_first(alloc, words)
    } else {
        None
    }
}

// The text that a word alone asks for.
fn page_of(alloc: Global, word: &str) -> Option<Result<String, NoMemory>> {
    match word {
        "--help" => Some(help_page(alloc)),
        "--version" => Some(version_line(alloc)),
        "-h" | "help" => Some(overview_page(alloc)),
        _ => None,
    }
}

fn ask_for_help(words: &Words) -> bool {
    for place in 0..words.len() {
        let word = words.word(place);
        if word == "--help" || word == "-h" || (place == 0 && word == "help") {
            return true;
        }
    }
    false
}

// The page of the first word that is a command.
fn page_of_first(alloc: Global, words: &Words) -> Option<Result<String, NoMemory>> {
    for place in 0..words.len() {
        let page = command_page(alloc, words.word(place));
        if page.is_some() {
            return page;
        }
    }
    None
}

fn version_line(alloc: Global) -> Result<String, NoMemory> {
    let line = String::from_str(alloc, VERSION)?;
    Ok(line)
}
