//! Searches over the table of one thread, and over a shared one with one number: the same batches,
//! pulls and ends.

ghost use Rattle.std.specs.Prelude.{◌≡◌, ◌≤◌, [], ◌∷◌, true};
ghost use Rattle.kan_model.specs.Programs.Closed as programs;
ghost use Rattle.kan_model.specs.Programs.Scope.{is_small};
ghost use Rattle.kan_model.specs.Programs.Tables.{are_closed};
ghost use Rattle.susp_cells.specs.Tables.{program_of};
ghost use Rattle.engine_tests.specs.Small.{endless_tables};

use crate::endless::endless_program;
use kan_model::{Program, Query};
use kan_plain::PlainStore;
use kan_search::{Ended, Search};
use std::alloc::Global;
use std::process::Abort;
use std::sync::Wait;
use std::test::Fail;
use stream_core::{LinkedNodes, Nodes, PlainNodes};
use susp_cells::{OpenGate, SharedNodes, Table};

// How many answers a batch has, how many pulls there were with it, and whether the run ended.
#[derive(Clone, Copy)]
struct Step {
    answers: usize,
    pulls: u64,
    ended: Option<Ended>,
}

// A run: its query, its fuel and the pulls of a round.
#[derive(Clone, Copy)]
struct Run {
    query: Query,
    fuel: u64,
    round: u32,
}

// Demands what the next batches of a search are.
fn expect_steps<N: Nodes<PlainStore> + Drop>(
    rt: &(impl Abort + Alloc<A = Global>),
    search: &mut Search<'_, PlainStore, N>,
    steps: &[Step],
) -> Result<(), Fail> {
    for step in steps {
        let batch = search.advance_alone(rt.alloc())?;
        assert_eq!(rt; batch.answers.len(), step.answers);
        assert_eq!(rt; search.pulls(), step.pulls);
        assert!(rt; batch.ended == step.ended);
    }
    Ok(())
}

// Demands the batches of a run over the table of one thread.
fn expect_alone(
    rt: &(impl Abort + Alloc<A = Global>),
    program: &Program,
    run: &Run,
    steps: &[Step],
) -> Result<(), Fail>
    requires closed { are_closed (programs.tables program.now) (run.now.query.goal ∷ []) ≡ true }
    requires small { is_small (programs.meaning program.now) ≡ true }
    requires fuel { 1 ≤ run.now.fuel × (run.now.fuel ≤ 1000000) }
    requires round { 1 ≤ run.now.round × (run.now.round ≤ 65536) }
{
    let mut search: Search<'_, PlainStore, LinkedNodes<'_>> = Search::open_alone(
        rt.alloc(),
        program,
        &run.query,
        run.fuel,
        run.round,
    )?;
    expect_steps(rt, &mut search, steps)
}

// Demands the batches of a run over the table that keeps each force.
fn expect_keeping(
    rt: &(impl Abort + Alloc<A = Global>),
    program: &Program,
    run: &Run,
    steps: &[Step],
) -> Result<(), Fail>
    requires closed { are_closed (programs.tables program.now) (run.now.query.goal ∷ []) ≡ true }
    requires small { is_small (programs.meaning program.now) ≡ true }
    requires fuel { 1 ≤ run.now.fuel × (run.now.fuel ≤ 1000000) }
    requires round { 1 ≤ run.now.round × (run.now.round ≤ 65536) }
{
    let nodes: PlainNodes<'_, PlainStore> = PlainNodes::new(rt.alloc(), program);
    let mut search = Search::open(rt.alloc(), program, nodes, &run.query, run.fuel, run.round)?;
    expect_steps(rt, &mut search, steps)
}

// Demands the batches of a run over a shared table, which is used with one number.
fn expect_shared(
    rt: &(impl Abort + Wait + Alloc<A = Global>),
    program: &Program,
    run: &Run,
    steps: &[Step],
    table: &Table<'_, PlainStore>,
) -> Result<(), Fail>
    requires table { program_of table.now ≡ programs.meaning program.now }
    requires closed { are_closed (programs.tables program.now) (run.now.query.goal ∷ []) ≡ true }
    requires small { is_small (programs.meaning program.now) ≡ true }
    requires fuel { 1 ≤ run.now.fuel × (run.now.fuel ≤ 1000000) }
    requires round { 1 ≤ run.now.round × (run.now.round ≤ 65536) }
{
    let nodes = SharedNodes::new(rt, table, &OpenGate, 0);
    let mut search = Search::open(rt.alloc(), program, nodes, &run.query, run.fuel, run.round)?;
    expect_steps(rt, &mut search, steps)
}

// Demands the batches of a run of the endless program over each table.
fn expect_over_each(
    rt: &(impl Abort + Wait + Alloc<A = Global>),
    program: &Program,
    run: &Run,
    steps: &[Step],
) -> Result<(), Fail>
    requires tables { programs.tables program.now ≡ endless_tables }
    requires closed { are_closed endless_tables (run.now.query.goal ∷ []) ≡ true }
    requires fuel { 1 ≤ run.now.fuel × (run.now.fuel ≤ 1000000) }
    requires round { 1 ≤ run.now.round × (run.now.round ≤ 65536) }
{
    expect_alone(rt, program, run, steps)?;
    expect_keeping(rt, program, run, steps)?;
    let table: Table<'_, PlainStore> = Table::new(rt.alloc(), program)?;
    expect_shared(rt, program, run, steps, &table)
}

// A run of a goal.
fn run_of(goal: u32, limit: Option<u64>, fuel: u64, round: u32) -> Run
    ensures { result ≡ record {
      query = record { goal = goal; limit = limit };
      fuel = fuel;
      round = round;
    } }
{
    Run {
        query: Query { goal, limit },
        fuel,
        round,
    }
}

// A batch of a run.
fn batch_of(answers: usize, pulls: u64, ended: Option<Ended>) -> Step {
    Step {
        answers,
        pulls,
        ended,
    }
}

#[test]
fn a_run_ends_with_its_stream(rt: HostRuntime) -> Result<(), Fail> {
    let program = endless_program(rt.alloc())?;
    let run = run_of(0, None, 1000, 100);
    expect_over_each(
        &rt,
        &program,
        &run,
        &[
            batch_of(1, 0, Some(Ended::End)),
            batch_of(0, 0, Some(Ended::End)),
        ],
    )?;
    let run = run_of(3, None, 1000, 100);
    expect_over_each(
        &rt,
        &program,
        &run,
        &[
            batch_of(1, 1, Some(Ended::End)),
            batch_of(0, 1, Some(Ended::End)),
        ],
    )
}

#[test]
fn a_run_ends_at_its_limit(rt: HostRuntime) -> Result<(), Fail> {
    let program = endless_program(rt.alloc())?;
    let run = run_of(1, Some(3), 1000, 100);
    expect_over_each(
        &rt,
        &program,
        &run,
        &[
            batch_of(3, 3, Some(Ended::Limit)),
            batch_of(0, 3, Some(Ended::Limit)),
        ],
    )?;
    let run = run_of(2, Some(0), 1000, 100);
    expect_over_each(&rt, &program, &run, &[batch_of(0, 0, Some(Ended::Limit))])
}

#[test]
fn a_run_ends_by_its_fuel(rt: HostRuntime) -> Result<(), Fail> {
    let program = endless_program(rt.alloc())?;
    let run = run_of(1, None, 3, 2);
    expect_over_each(
        &rt,
        &program,
        &run,
        &[
            batch_of(2, 2, None),
            batch_of(1, 3, Some(Ended::Fuel)),
            batch_of(0, 3, Some(Ended::Fuel)),
        ],
    )?;
    let run = run_of(2, None, 5, 100);
    expect_over_each(&rt, &program, &run, &[batch_of(6, 5, Some(Ended::Fuel))])
}

#[test]
fn batches_are_full(rt: HostRuntime) -> Result<(), Fail> {
    let program = endless_program(rt.alloc())?;
    let run = run_of(1, None, 1100, 65536);
    expect_over_each(
        &rt,
        &program,
        &run,
        &[
            batch_of(1024, 1024, None),
            batch_of(76, 1100, Some(Ended::Fuel)),
        ],
    )
}
