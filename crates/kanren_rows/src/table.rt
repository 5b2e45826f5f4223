//! Tables, taken apart into the lines of their cases.

use crate::fault::Fault;
use crate::keyword::{Keyword, behind, keyword_of};
use std::alloc::Global;

/// A line of a case, with its number in the table.
#[derive(Clone, Copy)]
pub(crate) struct Line<'a> {
    /// Its number, from 1.
    pub number: u64,
    /// What it is about.
    pub keyword: Keyword,
    /// What stands behind the keyword.
    pub rest: &'a str,
}

/// A case as it is written.
#[derive(Drop)]
pub(crate) struct Written<'a> {
    /// What it is called.
    pub name: &'a str,
    /// The number of its first line, from 1.
    pub number: u64,
    /// Its lines behind the first one.
    pub lines: Vec<Line<'a>>,
}

/// What is wrong with a table, and in which line.
#[derive(Clone, Copy)]
pub(crate) struct Misfit {
    /// The number of the line, from 1.
    pub number: u64,
    /// What is wrong.
    pub fault: Fault,
}

// Adds a line to the cases of a table.
fn add_line<'a>(
    alloc: Global,
    number: u64,
    line: &'a str,
    cases: &mut Vec<Written<'a>>,
) -> Result<(), Fault> {
    if line.is_empty() || line.starts_with('#') {
        return Ok(());
    }
    if let Some(name) = behind(line, "case") {
        cases.push(Written {
            name,
            number,
            lines: Vec::new(alloc),
        })?;
        return Ok(());
    }
    let Some((keyword, rest)) = keyword_of(line) else {
        return Err(Fault::Wrong("the line begins with no keyword"));
    };
    let Some(written) = cases.last_mut() else {
        return Err(Fault::Wrong("the line stands before the first case"));
    };
    written.lines.push(Line {
        number,
        keyword,
        rest,
    })?;
    Ok(())
}

/// The cases of a table.
pub(crate) fn cases_of(alloc: Global, table: &str) -> Result<Vec<Written<'_>>, Misfit> {
    let mut cases = Vec::new(alloc);
    let mut number = 0u64;
    for line in table.lines() {
        number = number.saturating_add(1);
        if let Err(fault) = add_line(alloc, number, line, &mut cases) {
            return Err(Misfit { number, fault });
        }
    }
    Ok(cases)
}
