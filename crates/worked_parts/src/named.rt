//! What is given by name.
use crate::words::natural;
use worked_common::Bad;

fn named<'a>(text: &'a str, name: &str) -> Option<&'a str> {
    for field in text.split(',') {
        if let Some((key, number)) = field.trim().split_once(' ') {
            if key == name {
                return Some(number);
            }
        }
    }
    None
}

/// The number behind a name, as in `width 8, height 4`.
pub(crate) fn field(text: &str, name: &str) -> Result<u32, Bad> {
    match named(text, name) {
        Some(number) => natural(number),
        None => Err(Bad::NoRow),
    }
}
