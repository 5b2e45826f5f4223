//! Runs in the dialect in which every goal of fresh and conde suspends: their answers and pulls.

ghost use Rattle.std.specs.Prelude.{◌≡◌, ◌≤◌, [], ◌∷◌, length, map, true};
ghost use Rattle.kan_model.specs.Programs.Closed as programs;
ghost use Rattle.kan_model.specs.Programs.Nodes.{goal_place};
ghost use Rattle.kan_model.specs.Programs.Scope.{is_small};
ghost use Rattle.kan_model.specs.Programs.Tables.{are_closed};
ghost use Rattle.susp_cells.specs.Tables.{program_of};

use crate::programs::compiled;
use goal_syntax::Compiled;
use kan_grammar::Dialect;
use kan_model::{Program, Query};
use kan_plain::PlainStore;
use kan_search::Search;
use kan_terms::{Memory, Names};
use std::alloc::Global;
use std::process::Abort;
use std::sync::Wait;
use std::test::Fail;
use stream_core::{LinkedNodes, Nodes};
use susp_cells::{OpenGate, SharedNodes, Table};

// How many answers the first batch of a search has, and how many pulls there were with it.
fn advanced<N: Nodes<PlainStore> + Drop>(
    alloc: Global,
    search: &mut Search<'_, PlainStore, N>,
) -> Result<(usize, u64), Memory> {
    let batch = search.advance_alone(alloc)?;
    Ok((batch.answers.len(), search.pulls()))
}

// The same of a run over the table of one thread.
fn searched_alone(alloc: Global, program: &Program, query: &Query) -> Result<(usize, u64), Memory>
    requires closed { are_closed (programs.tables program.now) (query.now.goal ∷ []) ≡ true }
    requires small { is_small (programs.meaning program.now) ≡ true }
{
    let mut search: Search<'_, PlainStore, LinkedNodes<'_>> = Search::open_alone(
        alloc, program, query, 1000, 100,
    )?;
    advanced(alloc, &mut search)
}

// The same over a shared table, which is used with one number.
fn searched_shared(
    rt: &(impl Abort + Wait + Alloc<A = Global>),
    program: &Program,
    query: &Query,
    table: &Table<'_, PlainStore>,
) -> Result<(usize, u64), Memory>
    requires table { program_of table.now ≡ programs.meaning program.now }
    requires closed { are_closed (programs.tables program.now) (query.now.goal ∷ []) ≡ true }
    requires small { is_small (programs.meaning program.now) ≡ true }
{
    let nodes = SharedNodes::new(rt, table, &OpenGate, 0);
    let mut search = Search::open(rt.alloc(), program, nodes, query, 1000, 100)?;
    advanced(rt.alloc(), &mut search)
}

// What a run has over both tables, if it is the same.
fn searched(
    rt: &(impl Abort + Wait + Alloc<A = Global>),
    program: &Program,
    query: &Query,
) -> Result<(usize, u64), Fail>
    requires closed { are_closed (programs.tables program.now) (query.now.goal ∷ []) ≡ true }
    requires small { is_small (programs.meaning program.now) ≡ true }
{
    let alone = searched_alone(rt.alloc(), program, query)?;
    let table: Table<'_, PlainStore> = Table::new(rt.alloc(), program)?;
    let shared = searched_shared(rt, program, query, &table)?;
    if alone == shared {
        Ok(alone)
    } else {
        Err(Fail::from("not the same over both tables"))
    }
}

// How many answers a program's only run has in its first batch, and how many pulls it makes.
fn searched_once(
    rt: &(impl Abort + Wait + Alloc<A = Global>),
    made: &Compiled,
) -> Result<(usize, u64), Fail>
    requires closed { are_closed (programs.tables made.now.program)
        (map goal_place made.now.queries) ≡ true }
    requires small { is_small (programs.meaning made.now.program) ≡ true }
{
    if made.queries.len() != 1 {
        return Err(Fail::from("not one run"));
    }
    let Some(query) = made.queries.get(0) else {
        return Err(Fail::from("no run"));
    };
    searched(rt, &made.program, query)
}

// Demands how many answers a text's only run has, and how many pulls it makes.
fn expect_search(
    rt: &(impl Abort + Wait + Alloc<A = Global>),
    text: &str,
    answers: usize,
    pulls: u64,
) -> Result<(), Fail>
    requires { length text.now ≤ 1048576 }
{
    let mut names = Names::new(rt.alloc());
    let made = compiled(rt.alloc(), text, &mut names, Dialect::All)?;
    let found = searched_once(rt, &made)?;
    assert_eq!(rt; found.0, answers);
    assert_eq!(rt; found.1, pulls);
    Ok(())
}

#[test]
fn goals_suspend(rt: HostRuntime) -> Result<(), Fail> {
    expect_search(&rt, "(run* q (conde ((== q 1)) ((== q 2))))", 2, 1)?;
    expect_search(&rt, "(run* (x) (== x 1))", 1, 1)
}
