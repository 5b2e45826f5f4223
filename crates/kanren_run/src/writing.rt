//! Runs, whose answers are written as they come.

ghost use Rattle.std.specs.Prelude.{◌≡◌, ◌+◌, ◌++◌, ◌≤◌, [], ◌∷◌, map, false, IfOk, OnOk};
ghost use Rattle.kan_model.specs.Programs.Closed as programs;
ghost use Rattle.kan_model.specs.Streams.Taking.{take_query};
ghost use Rattle.kan_model.specs.Answers.Output.{taken_text, runs_output};
ghost use Rattle.kan_search.specs.Batches.{ending_of};
ghost use Rattle.kan_model.specs.Programs.Closed.{query_of};
ghost use Rattle.kan_search.specs.Searches.{answers_left, pulls_made, round_of};
ghost use Rattle.kan_grammar.specs.Texts.Reply.{is_spent};
ghost use Rattle.kanren_run.specs.Answers.{spends};
ghost use Rattle.kanren_run.specs.Settings.{InRange};
ghost use Rattle.kan_model.specs.Answers.Answer.{HasNames};
ghost use Rattle.kan_model.specs.Each.{Each};
ghost use Rattle.kanren_run.specs.Writing.{CanRun, Puts, WritesNext, answer_lines, end_text};
ghost use Rattle.kanren_run.specs.Writing.{rest_text, memory_wanted, sink_failed};

use crate::answer::{print_answer, print_summary};
use crate::settings::Settings;
use kan_base::{Failed, Sink, put_all};
use kan_model::{Program, Query, Store};
use kan_search::{Batch, Ended, Search};
use kan_terms::{Memory, Names};
use std::alloc::Global;
use stream_core::{LinkedNodes, Nodes};

/// Why a run wasn't written whole.
#[derive(Clone, Copy, Debug, PartialEq, Eq)]
pub(crate) enum Stop {
    /// The sink failed.
    Fault,
    /// Want of memory.
    Memory,
}

impl From<Memory> for Stop {
    ghost from_gives = { λ _ e. e ≡ memory_wanted };

    fn from(_refused: Memory) -> Stop {
        Stop::Memory
    }
}

impl From<Failed> for Stop {
    ghost from_gives = { λ _ e. e ≡ sink_failed };

    fn from(_failed: Failed) -> Stop {
        Stop::Fault
    }
}

// Adds the lines of answers.
fn print_answers<St: Store>(
    alloc: Global,
    answers: &[St],
    names: &Names,
    lines: &mut Vec<u8>,
) -> Result<(), Memory>
    requires { Each (HasNames names.now) (map St.meaning answers.now) }
    ensures { OnOk result (lines.new.items ≡ lines.old.items
        ++ answer_lines names.now (map St.meaning answers.now)) }
{
    for store in answers {
        print_answer(alloc, store, names, lines)?;
    }
    Ok(())
}

// The lines of a batch: those of its answers and, where the run has ended with it, the run's
// summary line.
fn batch_lines<St: Store>(
    alloc: Global,
    batch: &Batch<St>,
    answers: u64,
    pulls: u64,
    names: &Names,
) -> Result<Vec<u8>, Memory>
    requires { Each (HasNames names.now) (map St.meaning batch.now.answers) }
    ensures { IfOk result
        (λ lines. lines.items ≡ answer_lines names.now (map St.meaning batch.now.answers)
        ++ end_text answers pulls batch.now.ended) }
{
    let mut lines = Vec::new(alloc);
    print_answers(alloc, batch.answers.items(), names, &mut lines)?;
    if let Some(ended) = batch.ended {
        print_summary(alloc, answers, pulls, ended, &mut lines)?;
    }
    Ok(lines)
}

// Writes the lines of a batch, after which the run has given so many answers with so many pulls.
fn write_batch<K: Sink, St: Store>(
    alloc: Global,
    batch: &Batch<St>,
    answers: u64,
    pulls: u64,
    names: &Names,
    sink: &mut K,
) -> Result<(), Stop>
    requires { Each (HasNames names.now) (map St.meaning batch.now.answers) }
    ensures { Puts (answer_lines names.now (map St.meaning batch.now.answers)
        ++ end_text answers pulls batch.now.ended) (K.view sink.old) (K.view sink.new) result }
{
    let lines = batch_lines(alloc, batch, answers, pulls, names)?;
    put_all(sink, &lines)?;
    Ok(())
}

// The sum of two counts, as far as a u64 goes.
fn sum(count: u64, more: usize) -> Result<u64, Memory>
    ensures { IfOk result (λ sum. sum ≡ count + more) }
{
    match count.checked_add(more as u64) {
        Some(sum) => Ok(sum),
        None => Err(Memory),
    }
}

// Writes the next lines of a run, which has given so many answers so far; says how it ended where
// these are its last ones.
fn write_next<K: Sink, St: Store, N: Nodes<St> + Drop>(
    alloc: Global,
    search: &mut Search<'_, St, N>,
    answers: &mut u64,
    names: &Names,
    sink: &mut K,
) -> Result<Option<Ended>, Stop>
    requires round { 1 ≤ round_of search.old }
    requires named { Each (HasNames names.now) (answers_left search.old).stores }
    ensures next { WritesNext names.now (answers_left search.old) answers.old
        (pulls_made search.old) (answers_left search.new) answers.new (pulls_made search.new)
        (K.view sink.old) (K.view sink.new) result }
    ensures round { round_of search.new ≡ round_of search.old }
{
    let batch = search.advance_alone(alloc)?;
    *answers = sum(*answers, batch.answers.len())?;
    match write_batch(alloc, &batch, *answers, search.pulls(), names, sink) {
        Ok(()) => Ok(batch.ended),
        Err(stop) => Err(stop),
    }
}

// Writes the lines of a run, from its first answer on, and says how it ended.
fn write_search<K: Sink, St: Store, N: Nodes<St> + Drop>(
    alloc: Global,
    search: &mut Search<'_, St, N>,
    names: &Names,
    sink: &mut K,
) -> Result<Ended, Stop>
    requires round { 1 ≤ round_of search.old }
    requires named { Each (HasNames names.now) (answers_left search.old).stores }
    ensures puts { Puts (rest_text names.now 0 (pulls_made search.old) (answers_left search.old))
        (K.view sink.old) (K.view sink.new) result }
    ensures ended { IfOk result (λ ended. ending_of ended ≡ (answers_left search.old).ending) }
{
    let mut answers = 0;
    loop {
        if let Some(ended) = write_next(alloc, search, &mut answers, names, sink)? {
            return Ok(ended);
        }
    }
}

// Writes the lines of a run, and says how it ended.
fn write_query<K: Sink, St: Store>(
    alloc: Global,
    program: &Program,
    query: &Query,
    settings: Settings,
    names: &Names,
    sink: &mut K,
) -> Result<Ended, Stop>
    requires can_run { CanRun names.now program.now (query.now ∷ []) }
    requires range { InRange settings }
    ensures puts { Puts (taken_text names.now
        (take_query (programs.meaning program.now) settings.fuel (query_of program.now query.now)))
        (K.view sink.old) (K.view sink.new) result }
    ensures ended { IfOk result (λ ended. ending_of ended
        ≡ (take_query (programs.meaning program.now) settings.fuel
        (query_of program.now query.now)).ending) }
{
    let mut search: Search<'_, St, LinkedNodes<'_>> = Search::open_alone(
        alloc,
        program,
        query,
        settings.fuel,
        settings.round,
    )?;
    let ended = write_search(alloc, &mut search, names, sink)?;
    Ok(ended)
}

// Whether a run ended by its fuel.
fn ended_by_fuel(ended: Ended) -> bool
    ensures { result ≡ is_spent (ending_of ended) }
{
    matches!(ended, Ended::Fuel)
}

/// Writes the runs of a text, one after the other, and says whether one of them ended by its fuel.
pub(crate) fn write_runs<K: Sink, St: Store>(
    alloc: Global,
    program: &Program,
    queries: &[Query],
    settings: Settings,
    names: &Names,
    sink: &mut K,
) -> Result<bool, Stop>
    requires can_run { CanRun names.now program.now queries.now }
    requires range { InRange settings }
    ensures puts { Puts (runs_output names.now (programs.meaning program.now) settings.fuel
        (map (query_of program.now) queries.now)) (K.view sink.old) (K.view sink.new) result }
    ensures spent { IfOk result
        (λ spent. spent
        ≡ spends (programs.meaning program.now) settings.fuel
        (map (query_of program.now) queries.now)) }
{
    let mut spent = false;
    for query in queries {
        let ended = write_query::<K, St>(alloc, program, query, settings, names, sink)?;
        spent |= ended_by_fuel(ended);
    }
    Ok(spent)
}
