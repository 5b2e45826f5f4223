//! The command `kanren`: it gets the text that its words ask for and writes the answers of its
//! runs.
#![tactic(auto)]

use command_line::{WordsFault, process_words};
use kan_base::{Status, StdSink, StdSource, lent_words};
use kanren_run::{complaint, kanren_alone};
use std::process::ExitCode;

// Runs the text that the words ask for.
fn run(rt: &HostRuntime, words: &[&str]) -> Status {
    let mut source = StdSource::new(*rt);
    let mut sink = StdSink::new(*rt);
    kanren_alone(rt.alloc(), words, &mut source, &mut sink)
}

// Runs the program with these words.
fn run_words(rt: &HostRuntime, words: &[String]) -> Status {
    match lent_words(rt.alloc(), words) {
        Ok(lent) => run(rt, &lent),
        Err(_) => Status::Memory,
    }
}

fn main(rt: HostRuntime) -> ExitCode {
    let status = match process_words(&rt) {
        Ok(words) => run_words(&rt, &words),
        Err(WordsFault::Usage) => Status::Usage,
        Err(WordsFault::Memory) => Status::Memory,
    };
    if let Some(line) = complaint(status) {
        let _ = eprintln!(rt; "{line}");
    }
    ExitCode::from(status.code())
}
