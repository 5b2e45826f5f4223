//! A program with a relation that holds again and again.

ghost use Rattle.std.specs.Prelude.{◌≡◌, IfOk, OnOk};
ghost use Rattle.kan_model.specs.Programs.Closed as programs;
ghost use Rattle.kan_model.specs.Programs.Drafts.{tables};
ghost use Rattle.engine_tests.specs.Small.{no_tables, endless_goals, endless_tables};

use kan_model::{Draft, GoalNode, Program, Relation};
use kan_terms::Memory;
use std::alloc::Global;
use std::test::Fail;

// Adds the goal that holds, the call, and the goal of which one of both holds.
fn add_goals(draft: &mut Draft) -> Result<(), Memory>
    requires { tables draft.old ≡ no_tables }
    ensures { OnOk result (tables draft.new ≡ endless_goals) }
{
    draft.goal(GoalNode::Succeed)?;
    draft.goal(GoalNode::Call(0, 0, 0))?;
    draft.goal(GoalNode::Either(0, 1))?;
    Ok(())
}

// Adds the goal that waits before it holds, and the relation.
fn add_relation(draft: &mut Draft) -> Result<(), Memory>
    requires { tables draft.old ≡ endless_goals }
    ensures { OnOk result (tables draft.new ≡ endless_tables) }
{
    draft.goal(GoalNode::Later(0))?;
    draft.relation(Relation {
        name: 0,
        params: 0,
        body: 2,
    })?;
    Ok(())
}

/// A program with a relation without arguments that holds, or else is called again. Goal 0 holds,
/// goal 1 calls it, goal 2 is its body, and goal 3 waits before it holds.
pub(crate) fn endless_program(alloc: Global) -> Result<Program, Fail>
    ensures { IfOk result (λ made. programs.tables made ≡ endless_tables) }
{
    let mut draft = Draft::new(alloc);
    add_goals(&mut draft)?;
    add_relation(&mut draft)?;
    match draft.close(&[]) {
        Ok(program) => Ok(program),
        Err(_) => Err(Fail::from("the draft is open")),
    }
}
