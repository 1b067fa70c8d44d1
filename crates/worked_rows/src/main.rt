//! Runs the program on worked rows, which are text, and prints the rows whose results differ.
#![tactic(auto)]

mod bench;
mod datagrams;
mod file;
mod hands;
mod lossy_wire;
mod names;
mod numbers;
mod row;
mod setup;
mod turn_log;
mod wants;

use file::run_file;
use std::{env, fs, io};

fn text_of(rt: &HostRuntime, name: &str) -> io::Result<String> {
    fs::read_to_string(rt, name)
}

fn main(rt: HostRuntime) -> io::Result<()> {
    for name in env::args(&rt)?.skip(1) {
        let text = text_of(&rt, name.as_str())?;
        match run_file(rt, rt.alloc(), name.as_str(), text.as_str()) {
            Ok(said) => rt.println(said)?,
            Err(_) => rt.println("memory ran out, or the last row can't be tried")?,
        }
    }
    Ok(())
}
