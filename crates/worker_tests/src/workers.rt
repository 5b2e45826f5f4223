//! A worker is stopped, and what it settled is compared with the search of one thread.

ghost use Rattle.std.specs.Prelude.{◌≡◌, ◌≤◌, ◌+◌, [], ◌∷◌, true, false, IfOk};
ghost use Rattle.kan_model.specs.Programs.Closed as programs;
ghost use Rattle.pull_budget.specs.Seats.{view, IsSeatOf};
ghost use Rattle.stream_core.specs.Tables.{IsTableOf};
ghost use Rattle.task_deques.specs.Holders.{holder_part, AreWhole, IsUnusedHolder};
ghost use Rattle.susp_cells.specs.Tables.{home_of, table_of, program_of, IsIn};
ghost use Rattle.worker_tests.specs.Endless.{endless_tables, endless};

use crate::chains::compared;
use crate::programs::{endless_call, endless_program, endless_table};
use crate::running::{Passes, Worked, beside};
use crew::{Offered, Tally, crew_deques, offer};
use kan_model::{Program, Query, Store};
use kan_plain::PlainStore;
use kan_search::Search;
use kan_terms::Memory;
use pull_budget::{Budget, BudgetSeat};
use std::alloc::Global;
use std::sync::Wait;
use std::sync::atomic::AtomicU64;
use std::test::Fail;
use std::thread::Threads;
use stream_core::LinkedNodes;
use susp_cells::{Susp, Table};
use task_deques::{Holder, gather};

// The goal that is run: the call.
const GOAL: u32 = 1;

// Two holders of tasks of a table.
fn two_holders<St: Store>(
    alloc: Global,
    table: &Table<'_, St>,
) -> Result<(Holder<Offered<St>>, Holder<Offered<St>>), Memory>
    ensures whole { IfOk result (λ two. AreWhole (holder_part two.0 ∷ holder_part two.1 ∷ [])) }
    ensures first { IfOk result (λ two. IsUnusedHolder (home_of table.now) two.0) }
    ensures second { IfOk result (λ two. IsUnusedHolder (home_of table.now) two.1) }
{
    let mut deques = crew_deques(alloc, table, 2);
    let mut all = deques.deal()?;
    let Some(second) = all.pop() else {
        return Err(Memory);
    };
    let Some(first) = all.pop() else {
        return Err(Memory);
    };
    Ok((first, second))
}

// How many tasks are left with both.
fn left_with<St: Store>(
    alloc: Global,
    first: Holder<Offered<St>>,
    second: Holder<Offered<St>>,
) -> Result<usize, Memory>
    requires whole { AreWhole (holder_part first ∷ holder_part second ∷ []) }
{
    let mut all = Vec::new(alloc);
    all.push(first)?;
    all.push(second)?;
    let left = gather(alloc, all)?;
    Ok(left.len())
}

// One offers, and a worker steals and forces, until it passed a gate eight times.
#[tactic(auto, using(crate::proofs::HolderLaws::unused_is_of))]
fn stolen<St: Store + Send + Sync, R: Threads + Wait + Sync>(
    rt: &R,
    alloc: Global,
    program: &Program,
    table: &Table<'_, St>,
    budget: &Budget,
    mut seat: BudgetSeat,
    susp: &Susp<St>,
) -> Result<(BudgetSeat, Tally), Memory>
    requires table { IsTableOf program.now (table_of table.now) }
    requires inside { IsIn table.now susp.now }
    requires seat { IsSeatOf budget.now seat × ((view seat).puller ≡ true) }
    ensures seat { IfOk result (λ ends. IsSeatOf budget.now ends.0
        × ((view ends.0).puller ≡ true)) }
{
    let (mut first, second) = two_holders(alloc, table)?;
    offer(table, &mut first, susp);
    let other = budget.split(&mut seat);
    let gate = Passes {
        count: AtomicU64::new(0),
    };
    let (mut seat, worked) = beside(
        rt, alloc, program, table, budget, seat, other, second, &gate, 8,
    );
    let Worked {
        seat: other,
        holder: second,
        tally,
    } = worked;
    budget.join(&mut seat, other);
    let _ = left_with(alloc, first, second)?;
    Ok((seat, tally))
}

// What a worker did that may begin as many forces as it may run ahead, and how many were begun.
fn worked<St: Store + Send + Sync, R: Threads + Wait + Sync>(
    rt: &R,
    alloc: Global,
    program: &Program,
    table: &Table<'_, St>,
    susp: &Susp<St>,
    ahead: u32,
) -> Result<(Tally, u64), Memory>
    requires table { IsTableOf program.now (table_of table.now) }
    requires inside { IsIn table.now susp.now }
{
    let (budget, seat) = Budget::new(alloc, ahead)?;
    let (seat, tally) = stolen(rt, alloc, program, table, &budget, seat, susp)?;
    let spent = budget.end(seat);
    Ok((tally, spent.begun))
}

// How many of the chain of tails agree with the search of one thread.
fn agreed<St: Store>(
    alloc: Global,
    program: &Program,
    query: &Query,
    table: &Table<'_, St>,
    susp: Susp<St>,
) -> Result<Option<u32>, Memory>
    requires program { programs.tables program.now ≡ endless_tables }
    requires goal { query.now.goal ≡ 1 }
    requires inside { IsIn table.now susp }
{
    let mut search: Search<'_, St, LinkedNodes<'_>> = Search::open_alone(
        alloc, program, query, 1000, 1,
    )?;
    compared(alloc, table, susp, &mut search, 100)
}

// What a worker did, how many forces were begun, and how many of those agree.
fn one_worker<R: Threads + Wait + Sync>(
    rt: &R,
    alloc: Global,
    program: &Program,
    query: &Query,
) -> Result<(Tally, u64, Option<u32>), Memory>
    requires program { programs.tables program.now ≡ endless_tables }
    requires goal { query.now.goal ≡ 1 }
{
    let table: Table<'_, PlainStore> = endless_table(alloc, program)?;
    let susp = endless_call(rt, alloc, program, &table)?;
    let (tally, begun) = worked(rt, alloc, program, &table, &susp, 20)?;
    let same = agreed(alloc, program, query, &table, susp)?;
    Ok((tally, begun, same))
}

#[test]
fn what_a_worker_settles_is_what_one_thread_finds(rt: HostRuntime) -> Result<(), Fail> {
    let alloc = rt.alloc();
    let query = Query {
        goal: GOAL,
        limit: None,
    };
    let program = endless_program(alloc, query)?;
    let (tally, begun, same) = one_worker(&rt, alloc, &program, &query)?;
    assert_eq!(rt; tally.taken, begun);
    assert!(rt; begun >= 3 && begun <= 20);
    assert!(rt; same.is_some_and(|count| count >= 3));
    Ok(())
}
