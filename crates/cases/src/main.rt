//! Replays the recorded answers of the Rust against the proved crates, and tries the edges that no line holds. It prints how many lines
//! and cases there were, names each line that differs or cannot be read, and counts both by call.
#![tactic(auto)]

mod answer;
mod call;
mod case;
mod chain;
mod edges;
mod failing;
mod fault;
mod fields;
mod lent;
mod memory;
mod pieces;
mod replay;
mod tally;

use std::fs::File;
use std::io::{Error, ErrorKind};
use std::rt::{Env, Files};
use std::{fs, io, str};
use tally::Tally;

// The library opens no file whose name is not UTF-8.
fn open(rt: &impl Files<File = File>, path: &[u8]) -> io::Result<File> {
    match str::from_utf8(path) {
        Ok(path) => fs::open(rt, path),
        Err(_) => Err(Error::from(ErrorKind::InvalidFilename)),
    }
}

// Replays the list that the program is told to, and `answers.txt` where it is told none.
fn main(rt: HostRuntime) {
    let mut name = [0; 4096];
    let path = match rt.arg(1, &mut name) {
        Ok(length) if length > 0 => &name[..length],
        _ => b"answers.txt",
    };
    let mut tally = Tally::default();
    match open(&rt, path) {
        Ok(file) => replay::replay(&rt, file, &mut tally),
        Err(error) => failing::fail(rt.stderr(), path, error),
    }
    edges::try_all(&rt, &mut tally);
    pieces::print(&rt, tally);
}
