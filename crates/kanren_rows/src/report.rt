//! What is printed of cases.

use crate::case::Case;
use crate::fault::Fault;
use crate::table::{Misfit, Written};
use crate::trial::{Seen, Verdict};
use std::io;

/// How many cases passed, and how many failed.
#[derive(Clone, Copy)]
pub(crate) struct Count {
    /// How many passed.
    pub passed: u64,
    /// How many failed.
    pub failed: u64,
}

// Bytes as they are shown.
fn shown(bytes: &[u8]) -> &str {
    std::str::from_utf8(bytes).unwrap_or("(bytes that are no text)")
}

// How many lines two outputs begin alike with.
fn lines_alike(wanted: &[u8], seen: &[u8]) -> u64 {
    let mut lines = 0u64;
    for (byte, other) in wanted.iter().zip(seen.iter()) {
        if byte != other {
            return lines;
        }
        if *byte == b'\n' {
            lines = lines.saturating_add(1);
        }
    }
    lines
}

// The line of a text behind so many others.
fn line_behind(text: &str, lines: u64) -> &str {
    let mut passed = 0u64;
    for line in text.lines() {
        if passed == lines {
            return line;
        }
        passed = passed.saturating_add(1);
    }
    "(nothing)"
}

// Prints the first line in which two outputs differ.
fn print_difference(rt: &impl Print, wanted: &[u8], seen: &[u8]) -> io::Result<()> {
    let lines = lines_alike(wanted, seen);
    let (line, other) = (
        line_behind(shown(wanted), lines),
        line_behind(shown(seen), lines),
    );
    println!(rt; "  put behind {lines} lines: {other}\n  must be: {line}")
}

// Prints how what came of a case differs from what must.
fn print_failure(rt: &impl Print, turn: &str, case: &Case, seen: &Seen) -> io::Result<()> {
    if !turn.is_empty() {
        println!(rt; "  each: {turn}")?;
    }
    if seen.status != case.status {
        let (status, wanted) = (seen.status, case.status);
        println!(rt; "  status: {status:?}\n  must be: {wanted:?}")?;
    }
    if seen.output != case.output {
        print_difference(rt, &case.output, &seen.output)?;
    }
    Ok(())
}

// Prints that a table isn't what it must be.
fn print_misfit(rt: &impl Print, table: &str, misfit: Misfit) -> io::Result<()> {
    let number = misfit.number;
    let text = misfit.fault.text();
    println!(rt; "  {table}:{number}: {text}")
}

impl Count {
    /// Prints what came of a case, and counts it.
    pub(crate) fn add(
        &mut self,
        rt: &impl Print,
        table: &str,
        written: &Written<'_>,
        tried: &Result<Verdict, Misfit>,
    ) -> io::Result<()> {
        let (name, number) = (written.name, written.number);
        if let Ok(Verdict::Passed) = tried {
            self.passed = self.passed.saturating_add(1);
            return println!(rt; "ok {name}");
        }
        self.failed = self.failed.saturating_add(1);
        println!(rt; "FAILED {name} ({table}:{number})")?;
        match tried {
            Ok(Verdict::Differs(turn, case, seen)) => print_failure(rt, turn, case, seen),
            Err(misfit) => print_misfit(rt, table, *misfit),
            Ok(Verdict::Passed) => Ok(()),
        }
    }

    /// Prints what is wrong with a table, and counts it as a case that failed.
    pub(crate) fn refuse(
        &mut self,
        rt: &impl Print,
        table: &str,
        number: u64,
        fault: Fault,
    ) -> io::Result<()> {
        self.failed = self.failed.saturating_add(1);
        let text = fault.text();
        println!(rt; "FAILED {table}:{number}: {text}")
    }
}
