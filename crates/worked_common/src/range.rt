use crate::digits::Bad;

/// The first and the last of some numbers, as 3..7, or of one alone.
pub fn range_of(text: &str) -> Result<(u64, u64), Bad> {
    let (first, last) = text.split_once("..").unwrap_or((text, text));
    match (first.parse::<u64>(), last.parse::<u64>()) {
        (Ok(first), Ok(last)) if first <= last => Ok((first, last)),
        _ => Err(Bad::NoRow),
    }
}
