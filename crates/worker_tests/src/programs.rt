//! The endless program, its table, and the suspension of its call.

ghost use Rattle.std.specs.Prelude.{◌≡◌, IfOk, OnOk};
ghost use Rattle.kan_model.specs.Programs.Closed as programs;
ghost use Rattle.kan_model.specs.Programs.Drafts.{tables};
ghost use Rattle.susp_cells.specs.Tables.{program_of, IsIn};
ghost use Rattle.worker_tests.specs.Endless.{no_tables, goal_tables, endless_tables, endless};

use kan_model::{Draft, Env, GoalNode, Program, Query, Relation, Store};
use kan_terms::Memory;
use std::alloc::Global;
use std::sync::Wait;
use stream_core::Thunk;
use susp_cells::{Susp, Table};

// Adds the goals.
fn add_goals(draft: &mut Draft) -> Result<(), Memory>
    requires { tables draft.old ≡ no_tables }
    ensures { OnOk result (tables draft.new ≡ goal_tables) }
{
    draft.goal(GoalNode::Succeed)?;
    draft.goal(GoalNode::Call(0, 0, 0))?;
    draft.goal(GoalNode::Both(1, 1))?;
    draft.goal(GoalNode::Either(0, 2))?;
    Ok(())
}

// Adds the relation.
fn add_relation(draft: &mut Draft) -> Result<(), Memory>
    requires { tables draft.old ≡ goal_tables }
    ensures { OnOk result (tables draft.new ≡ endless_tables) }
{
    draft.relation(Relation {
        name: 0,
        params: 0,
        body: 3,
    })?;
    Ok(())
}

/// The program.
pub(crate) fn endless_program(alloc: Global, query: Query) -> Result<Program, Memory>
    ensures { IfOk result (λ made. programs.tables made ≡ endless_tables) }
{
    let mut draft = Draft::new(alloc);
    add_goals(&mut draft)?;
    add_relation(&mut draft)?;
    match draft.close(&[query]) {
        Ok(program) => Ok(program),
        Err(_) => Err(Memory),
    }
}

/// Its empty table.
pub(crate) fn endless_table<'a, St: Store>(
    alloc: Global,
    program: &'a Program,
) -> Result<Table<'a, St>, Memory>
    requires { programs.tables program.now ≡ endless_tables }
    ensures { IfOk result (λ made. program_of made ≡ endless) }
{
    Table::new(alloc, program)
}

/// The suspension of its call.
pub(crate) fn endless_call<St: Store, R: Wait>(
    rt: &R,
    alloc: Global,
    program: &Program,
    table: &Table<'_, St>,
) -> Result<Susp<St>, Memory>
    requires { program_of table.now ≡ endless }
    ensures { IfOk result (IsIn table.now) }
{
    let store = St::empty(alloc)?;
    let args = Env::of(program, Vec::new(alloc));
    let made = table.suspend(
        rt,
        Thunk::Call {
            rel: 0,
            args,
            store,
        },
    )?;
    Ok(made)
}
