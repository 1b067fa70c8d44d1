use crate::bench::Ran;
use crate::hands::run;
use crate::names::Names;
use crate::row::Row;
use std::alloc::Global;
use std::sync::Wait;
use std::thread::Threads;
use worked_common::Bad;

// What the runs of a file came to so far.
#[derive(Drop)]
struct Found {
    runs: u64,
    differ: u64,
    said: String,
}

// What was made of a file's lines so far.
#[derive(Drop)]
struct Read {
    names: Names,
    row: Option<Row>,
    found: Found,
}

// Says what a row came to.
fn tell(alloc: Global, row: &Row, number: u64, ran: &Ran, what: &str) -> Result<String, Bad> {
    let name = row.name.as_str();
    let status = ran.status;
    let left = ran.left;
    let length = ran.bench.output.bytes().len();
    let text = str::from_utf8(ran.bench.report.bytes()).unwrap_or("");
    let line = format!(in alloc;
        "{name}, at {number}: another {what}: status {status}, {length} bytes, {left} left\n{text}"
    )?;
    Ok(line)
}

impl Found {
    // Counts a run, and says what it came to, if that isn't what is wanted.
    fn add(&mut self, alloc: Global, row: &Row, number: u64, ran: &Ran) -> Result<(), Bad> {
        self.runs = self.runs.saturating_add(1);
        let Some(what) = row.wants.differs(ran) else {
            return Ok(());
        };
        self.differ = self.differ.saturating_add(1);
        let told = tell(alloc, row, number, ran, what)?;
        self.said.push_str(told.as_str())?;
        Ok(())
    }
}

// What is said of a whole file.
fn end_of(alloc: Global, name: &str, found: &Found) -> Result<String, Bad> {
    let (runs, differ) = (found.runs, found.differ);
    let said = found.said.as_str();
    let said = format!(in alloc; "{said}{name}: {runs} runs, {differ} differ")?;
    Ok(said)
}

// Keeps what a row wrote, if it is to be kept.
fn keep(alloc: Global, names: &mut Names, row: &Row, ran: &Ran) -> Result<(), Bad> {
    match &row.keep {
        Some(name) => {
            let bytes = Vec::from_slice(alloc, ran.bench.output.bytes())?;
            names.add(alloc, name.as_str(), bytes)
        }
        None => Ok(()),
    }
}

// Runs the row that was read, at each of its numbers.
fn finish<H: Threads + Wait + Copy + Send + Sync + 'static>(
    rt: H,
    alloc: Global,
    read: &mut Read,
) -> Result<(), Bad> {
    let Some(row) = &read.row else {
        return Ok(());
    };
    let numbers = row.numbers;
    for number in numbers.first..=numbers.last {
        let ran = run(rt, alloc, &row.setup, numbers.at(number))?;
        read.found.add(alloc, row, number, &ran)?;
        if number == numbers.last {
            keep(alloc, &mut read.names, row, &ran)?;
        }
    }
    Ok(())
}

fn begin(alloc: Global, read: &mut Read, name: &str) -> Result<(), Bad> {
    read.row = Some(Row::new(alloc, name)?);
    Ok(())
}

fn begin_again(alloc: Global, read: &mut Read, name: &str) -> Result<(), Bad> {
    match &mut read.row {
        Some(row) => row.again(alloc, name),
        None => Err(Bad::NoRow),
    }
}

fn set(alloc: Global, read: &mut Read, key: &str, text: &str) -> Result<(), Bad> {
    match &mut read.row {
        Some(row) => row.set(alloc, &read.names, key, text),
        None => Err(Bad::NoRow),
    }
}

fn take_line<H: Threads + Wait + Copy + Send + Sync + 'static>(
    rt: H,
    alloc: Global,
    read: &mut Read,
    line: &str,
) -> Result<(), Bad> {
    let line = line.split('#').next().unwrap_or("").trim();
    let (key, text) = line.split_once(' ').unwrap_or((line, ""));
    let text = text.trim();
    match key {
        "" => Ok(()),
        "part" => read.names.add_part(alloc, text),
        "counts" => read.names.set_counts(alloc, text),
        "row" => {
            finish(rt, alloc, read)?;
            begin(alloc, read, text)
        }
        "and" => {
            finish(rt, alloc, read)?;
            begin_again(alloc, read, text)
        }
        _ => set(alloc, read, key, text),
    }
}

// Takes the lines of a file, up to the first that can't be tried, which is returned with its number.
fn take_lines<'a, H: Threads + Wait + Copy + Send + Sync + 'static>(
    rt: H,
    alloc: Global,
    read: &mut Read,
    text: &'a str,
) -> Option<(usize, &'a str)> {
    for (place, line) in text.lines().enumerate() {
        if take_line(rt, alloc, read, line).is_err() {
            return Some((place.saturating_add(1), line));
        }
    }
    None
}

/// Runs the rows of a file, and says what it came to.
pub(crate) fn run_file<H: Threads + Wait + Copy + Send + Sync + 'static>(
    rt: H,
    alloc: Global,
    name: &str,
    text: &str,
) -> Result<String, Bad> {
    let mut read = Read {
        names: Names::new(alloc),
        row: None,
        found: Found {
            runs: 0,
            differ: 0,
            said: String::new(alloc),
        },
    };
    if let Some((place, line)) = take_lines(rt, alloc, &mut read, text) {
        let said = read.found.said.as_str();
        let said = format!(in alloc;
            "{said}{name}: line {place}, or the row before it, can't be tried: {line}"
        )?;
        return Ok(said);
    }
    finish(rt, alloc, &mut read)?;
    end_of(alloc, name, &read.found)
}
