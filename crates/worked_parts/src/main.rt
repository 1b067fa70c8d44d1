//! Makes the libraries' calls on worked rows, which are text, and prints the rows whose results differ.
#![tactic(auto)]

mod bits;
mod captures;
mod codes;
mod datagrams;
mod fields;
mod file;
mod headers;
mod kinds;
mod lines;
mod low_delay;
mod named;
mod narrow_planes;
mod parameters;
mod places;
mod planes;
mod plans;
mod ports;
mod quantisers;
mod reading;
mod reports;
mod runs;
mod said;
mod sizes;
mod slices;
mod wires;
mod words;

use file::run_file;
use std::{env, fs, io};

fn text_of(rt: &HostRuntime, name: &str) -> io::Result<String> {
    fs::read_to_string(rt, name)
}

fn main(rt: HostRuntime) -> io::Result<()> {
    for name in env::args(&rt)?.skip(1) {
        let text = text_of(&rt, name.as_str())?;
        match run_file(rt.alloc(), name.as_str(), text.as_str()) {
            Ok(said) => rt.println(said)?,
            Err(_) => rt.println("memory ran out")?,
        }
    }
    Ok(())
}
