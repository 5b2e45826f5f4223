//! Cases, tried: what the top call puts and answers, beside what it must.

ghost use Rattle.std.specs.Prelude.{◌≡◌, ◌≤◌, ◌↔◌, IsTrue, IfOk};

use crate::braces::expand;
use crate::build::build;
use crate::case::{Case, Plan};
use crate::fault::Fault;
use crate::keyword::Keyword;
use crate::table::{Line, Misfit, Written};
use crate::value::{add_each, text_of};
use kan_base::{MemorySink, MemorySource, Source, Status, lent_words};
use kan_plain::PlainStore;
use kanren_run::{kanren_alone, kanren_over};
use std::alloc::{AllocError, Global};

/// What came of a call.
#[derive(Drop)]
pub(crate) struct Seen {
    /// What was put.
    pub output: Vec<u8>,
    /// What it answered.
    pub status: Status,
}

/// What came of a case.
#[derive(Drop)]
pub(crate) enum Verdict {
    /// All that must come came.
    Passed,
    /// Something else came, where `{each}` is this word.
    Differs(String, Case, Seen),
}

// Copies of files.
fn again(alloc: Global, files: &[(String, Vec<u8>)]) -> Result<Vec<(String, Vec<u8>)>, AllocError> {
    let mut copies = Vec::new(alloc);
    for file in files {
        copies.push((file.0.clone()?, file.1.clone()?))?;
    }
    Ok(copies)
}

// How many bytes are moved at once.
fn piece_of(plan: &Plan) -> Result<u32, Fault>
    ensures { IfOk result (λ piece. 1 ≤ piece) }
{
    if plan.piece == 0 {
        return Err(Fault::Wrong("a piece has no bytes"));
    }
    Ok(plan.piece)
}

// The source of a case.
fn source_of(alloc: Global, case: &Case) -> Result<MemorySource, Fault> {
    let piece = piece_of(&case.source)?;
    let input = case.input.clone()?;
    let files = again(alloc, &case.files)?;
    let fails = case.source.fails.clone()?;
    Ok(MemorySource::new(input, files, piece, fails))
}

// The sink of a case.
fn sink_of(alloc: Global, case: &Case) -> Result<MemorySink, Fault> {
    let piece = piece_of(&case.sink)?;
    let fails = case.sink.fails.clone()?;
    match MemorySink::new(alloc, case.room, piece, fails) {
        Ok(sink) => Ok(sink),
        Err(_) => Err(Fault::Memory),
    }
}

/// Which store solves the runs of a case.
#[derive(Clone, Copy)]
pub(crate) enum Solver {
    /// That of the program.
    Own,
    /// The plain one.
    Plain,
}

// The answer of the call over a store.
fn answer(
    alloc: Global,
    solver: Solver,
    words: &[&str],
    source: &mut MemorySource,
    sink: &mut MemorySink,
) -> Status {
    match solver {
        Solver::Own => kanren_alone(alloc, words, source, sink),
        Solver::Plain => kanren_over::<PlainStore, MemorySource, MemorySink>(
            alloc, words, source, sink,
        ),
    }
}

// What comes of a case.
fn see(alloc: Global, solver: Solver, case: &Case) -> Result<Seen, Fault> {
    let mut source = source_of(alloc, case)?;
    let mut sink = sink_of(alloc, case)?;
    let words = lent_words(alloc, &case.words)?;
    let status = answer(alloc, solver, &words, &mut source, &mut sink);
    let output = sink.put().to_vec(alloc)?;
    Ok(Seen { output, status })
}

// Adds what a line says that the case is tried with.
fn add_turns(alloc: Global, line: &Line<'_>, turns: &mut Vec<String>) -> Result<(), Fault> {
    match line.keyword {
        Keyword::Each => add_each(alloc, line.rest, turns)?,
        Keyword::One => {
            let bytes = expand(alloc, line.rest, "")?;
            turns.push(String::from_str(alloc, text_of(&bytes)?)?)?;
        }
        _ => {}
    }
    Ok(())
}

// What a case is tried with in turn: an empty word where it names nothing.
fn turns(alloc: Global, lines: &[Line<'_>]) -> Result<Vec<String>, Fault> {
    let mut turns = Vec::new(alloc);
    for line in lines {
        add_turns(alloc, line, &mut turns)?;
    }
    if turns.is_empty() {
        turns.push(String::new(alloc))?;
    }
    Ok(turns)
}

// Whether all came that must, and nothing else.
fn agrees(case: &Case, seen: &Seen) -> bool
    ensures { IsTrue result
        ↔ ((seen.now.status ≡ case.now.status) × (seen.now.output.items ≡ case.now.output.items)) }
{
    seen.status == case.status && seen.output.as_slice() == case.output.as_slice()
}

// Tries a case once.
fn try_turn<S: Source>(
    alloc: Global,
    solver: Solver,
    folder: &mut S,
    written: &Written<'_>,
    turn: String,
) -> Result<Verdict, Misfit> {
    let number = written.number;
    let case = build(alloc, folder, number, &written.lines, &turn)?;
    let seen = see(alloc, solver, &case).map_err(|fault| Misfit { number, fault })?;
    if agrees(&case, &seen) {
        Ok(Verdict::Passed)
    } else {
        Ok(Verdict::Differs(turn, case, seen))
    }
}

/// Tries a case with each of its words in turn, as far as all comes that must. The folder has the
/// files that the case names.
pub(crate) fn try_case<S: Source>(
    alloc: Global,
    solver: Solver,
    folder: &mut S,
    written: &Written<'_>,
) -> Result<Verdict, Misfit> {
    let number = written.number;
    let turns = turns(alloc, &written.lines).map_err(|fault| Misfit { number, fault })?;
    for turn in turns {
        let verdict = try_turn(alloc, solver, folder, written, turn)?;
        if !matches!(verdict, Verdict::Passed) {
            return Ok(verdict);
        }
    }
    Ok(Verdict::Passed)
}
