//! A small program of one relation, which always holds.

ghost use Rattle.std.specs.Prelude.{◌≡◌, IfOk, OnOk};
ghost use Rattle.kan_model.specs.Programs.Closed as programs;
ghost use Rattle.kan_model.specs.Programs.Drafts.{tables};
ghost use Rattle.susp_cells_tests.specs.Small.{no_tables, small_tables};

use kan_model::{Draft, GoalNode, Program, Relation};
use kan_terms::Memory;
use std::alloc::Global;

// Adds a relation without arguments that always holds.
fn add_relation(draft: &mut Draft) -> Result<(), Memory>
    requires { tables draft.old ≡ no_tables }
    ensures { OnOk result (tables draft.new ≡ small_tables) }
{
    draft.goal(GoalNode::Succeed)?;
    draft.relation(Relation {
        name: 0,
        params: 0,
        body: 0,
    })?;
    Ok(())
}

/// A program with a relation without arguments that always holds.
pub(crate) fn small_program(alloc: Global) -> Result<Program, Memory>
    ensures { IfOk result (λ made. programs.tables made ≡ small_tables) }
{
    let mut draft = Draft::new(alloc);
    add_relation(&mut draft)?;
    match draft.close(&[]) {
        Ok(program) => Ok(program),
        Err(_) => Err(Memory),
    }
}
