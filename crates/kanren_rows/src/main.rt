//! Tries tables of cases: what the program puts and answers for words, texts, sources and sinks.
//!
//! The words are the names of the tables; with `plain:` before its name the cases of a table are
//! tried over the plain store. A line is printed for each case, and then how many passed and how
//! many failed.
#![tactic(auto)]

mod braces;
mod build;
mod case;
mod fault;
mod keyword;
mod report;
mod table;
mod trial;
mod value;

use fault::Fault;
use kan_base::{Place, StdSource, take_text};
use report::Count;
use std::process::ExitCode;
use std::{env, io};
use table::{Misfit, cases_of};
use trial::{Solver, try_case};
use value::text_of;

// Tries the cases of a table.
fn try_cases(
    rt: &HostRuntime,
    solver: Solver,
    name: &str,
    text: &str,
    count: &mut Count,
) -> io::Result<()> {
    let mut folder = StdSource::new(*rt);
    match cases_of(rt.alloc(), text) {
        Ok(cases) => {
            for written in &cases {
                let tried = try_case(rt.alloc(), solver, &mut folder, written);
                count.add(rt, name, written, &tried)?;
            }
            Ok(())
        }
        Err(Misfit { number, fault }) => count.refuse(rt, name, number, fault),
    }
}

// Reads a table and tries its cases.
fn try_table(rt: &HostRuntime, solver: Solver, name: &str, count: &mut Count) -> io::Result<()> {
    let mut folder = StdSource::new(*rt);
    let Ok(table) = take_text(rt.alloc(), &mut folder, Place::File(name)) else {
        return count.refuse(rt, name, 0, Fault::Wrong("the table can't be read"));
    };
    match text_of(&table) {
        Ok(text) => try_cases(rt, solver, name, text, count),
        Err(fault) => count.refuse(rt, name, 0, fault),
    }
}

// Tries the table that a word names.
fn try_word(rt: &HostRuntime, word: &str, count: &mut Count) -> io::Result<()> {
    println!(rt; "{word}")?;
    match word.strip_prefix("plain:") {
        Some(name) => try_table(rt, Solver::Plain, name, count),
        None => try_table(rt, Solver::Own, word, count),
    }
}

// Tries the tables that the words name.
fn try_tables(rt: &HostRuntime) -> io::Result<Count> {
    let mut count = Count {
        passed: 0,
        failed: 0,
    };
    for name in env::args(rt)?.skip(1) {
        try_word(rt, &name, &mut count)?;
    }
    let Count { passed, failed } = count;
    println!(rt; "{passed} passed, {failed} failed")?;
    Ok(count)
}

fn main(rt: HostRuntime) -> ExitCode {
    match try_tables(&rt) {
        Ok(count) if count.failed == 0 && count.passed > 0 => ExitCode::SUCCESS,
        _ => ExitCode::FAILURE,
    }
}
