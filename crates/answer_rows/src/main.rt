//! Reads lines of answers back: each line of the files that the words name must be an answer that
//! is printed as the same line, or be refused where the file's name says so. The number of each
//! line that fails is printed, and then how many passed and how many failed.
#![tactic(auto)]

mod line;

use kan_base::{Place, StdSource, take_text};
use kan_terms::{Memory, Names};
use line::{Reading, read_line};
use std::alloc::Global;
use std::process::ExitCode;
use std::{env, io, str};

// How many lines passed, and how many failed.
#[derive(Clone, Copy)]
struct Count {
    passed: u64,
    failed: u64,
}

impl Count {
    // Counts one more line.
    fn add(&mut self, passed: bool) {
        if passed {
            self.passed = self.passed.saturating_add(1);
        } else {
            self.failed = self.failed.saturating_add(1);
        }
    }
}

// What is wanted of the lines of a file, by its name.
fn wanted_of(name: &str) -> Reading {
    if name.starts_with("refused") {
        Reading::Refused
    } else {
        Reading::Same
    }
}

// Tries one line under a table of its own.
fn try_line(alloc: Global, line: &str, wanted: Reading) -> Result<bool, Memory> {
    let mut names = Names::new(alloc);
    let read = read_line(alloc, line, &mut names)?;
    Ok(read == wanted)
}

// Tries the lines of a text, and prints the numbers of those that fail.
fn try_lines(rt: &HostRuntime, name: &str, text: &str, count: &mut Count) -> io::Result<()> {
    let wanted = wanted_of(name);
    for (at, line) in text.lines().enumerate() {
        let passed = try_line(rt.alloc(), line, wanted) == Ok(true);
        count.add(passed);
        if !passed {
            let number = at.saturating_add(1);
            println!(rt; "{name}: line {number} failed")?;
        }
    }
    Ok(())
}

// Reads a file and tries its lines. A file without a text counts as a line that fails.
fn try_file(rt: &HostRuntime, name: &str, count: &mut Count) -> io::Result<()> {
    let mut folder = StdSource::new(*rt);
    if let Ok(bytes) = take_text(rt.alloc(), &mut folder, Place::File(name)) {
        if let Ok(text) = str::from_utf8(&bytes) {
            return try_lines(rt, name, text, count);
        }
    }
    count.add(false);
    println!(rt; "{name} is no text")
}

// Tries the files that the words name.
fn try_files(rt: &HostRuntime) -> io::Result<Count> {
    let mut count = Count {
        passed: 0,
        failed: 0,
    };
    for name in env::args(rt)?.skip(1) {
        try_file(rt, &name, &mut count)?;
    }
    let Count { passed, failed } = count;
    println!(rt; "{passed} passed, {failed} failed")?;
    Ok(count)
}

fn main(rt: HostRuntime) -> ExitCode {
    match try_files(&rt) {
        Ok(count) if count.failed == 0 => ExitCode::SUCCESS,
        _ => ExitCode::FAILURE,
    }
}
