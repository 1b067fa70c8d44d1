use crate::kinds::came;
use crate::said::Said;
use crate::words::spread;
use std::alloc::Global;
use worked_common::{Bad, NamedBytes, put};

// What was made of a file's lines so far.
#[derive(Drop)]
struct Read {
    parts: Vec<NamedBytes>,
    rows: u64,
    differ: u64,
    said: Said,
}

fn add_part(alloc: Global, parts: &mut Vec<NamedBytes>, text: &str) -> Result<(), Bad> {
    let Some((name, rest)) = text.trim().split_once(' ') else {
        return Err(Bad::NoRow);
    };
    let mut bytes = Vec::new(alloc);
    put(alloc, parts.as_slice(), rest, &mut bytes)?;
    parts.push(NamedBytes {
        name: String::from_str(alloc, name)?,
        bytes,
    })?;
    Ok(())
}

// Whether what came says the same as what is wanted, both with one space after each word.
fn is_wanted(alloc: Global, parts: &[NamedBytes], came: &str, wanted: &str) -> Result<bool, Bad> {
    let wanted = spread(alloc, parts, wanted)?;
    Ok(came == wanted.as_str())
}

fn try_row(alloc: Global, read: &mut Read, kind: &str, rest: &str) -> Result<(), Bad> {
    let Some((given, wanted)) = rest.split_once('=') else {
        return Err(Bad::NoRow);
    };
    read.rows = read.rows.saturating_add(1);
    let came = came(alloc, read.parts.as_slice(), kind, given)?;
    if is_wanted(alloc, read.parts.as_slice(), came.as_str(), wanted)? {
        return Ok(());
    }
    read.differ = read.differ.saturating_add(1);
    let came = came.as_str();
    write!(
        read.said,
        "{kind} {given}= {came}, which isn't what is wanted\n"
    );
    Ok(())
}

fn take_line(alloc: Global, read: &mut Read, line: &str) -> Result<(), Bad> {
    let line = line.split('#').next().unwrap_or("").trim();
    let (kind, rest) = line.split_once(' ').unwrap_or((line, ""));
    match kind {
        "" => Ok(()),
        "part" => add_part(alloc, &mut read.parts, rest),
        _ => try_row(alloc, read, kind, rest),
    }
}

/// Tries the rows of a file, and says what it came to.
pub(crate) fn run_file(alloc: Global, name: &str, text: &str) -> Result<String, Bad> {
    let mut read = Read {
        parts: Vec::new(alloc),
        rows: 0,
        differ: 0,
        said: Said::new(alloc),
    };
    for (place, line) in text.lines().enumerate() {
        if take_line(alloc, &mut read, line).is_err() {
            write!(
                read.said,
                "{name}: can't try this line, after {place} others: {line}"
            );
            return read.said.into_text();
        }
    }
    let (rows, differ) = (read.rows, read.differ);
    write!(read.said, "{name}: {rows} rows, {differ} differ");
    read.said.into_text()
}
