//! A small program, made entry after entry.

ghost use Rattle.std.specs.Prelude.{◌≡◌, IfOk, OnOk};
ghost use Rattle.kan_model.specs.Programs.Closed as programs;
ghost use Rattle.kan_model.specs.Programs.Drafts.{tables};
ghost use Rattle.engine_tests.specs.Small.{no_tables, pair_tables, small_tables};

use kan_model::{Draft, GoalNode, Program, Relation, TermNode};
use kan_terms::Memory;
use std::alloc::Global;
use std::test::Fail;

// Adds the template of a pair of two slots.
fn add_pair(draft: &mut Draft) -> Result<(), Memory>
    requires { tables draft.old ≡ no_tables }
    ensures { OnOk result (tables draft.new ≡ pair_tables) }
{
    draft.term(TermNode::Slot(0))?;
    draft.term(TermNode::Slot(1))?;
    draft.term(TermNode::Pair(0, 1))?;
    Ok(())
}

// Adds a relation without arguments that always holds.
fn add_relation(draft: &mut Draft) -> Result<(), Memory>
    requires { tables draft.old ≡ pair_tables }
    ensures { OnOk result (tables draft.new ≡ small_tables) }
{
    draft.argument(2)?;
    draft.goal(GoalNode::Succeed)?;
    draft.relation(Relation {
        name: 0,
        params: 0,
        body: 0,
    })?;
    Ok(())
}

/// A program with the template of a pair of two slots, and with a relation without arguments that
/// always holds.
pub(crate) fn small_program(alloc: Global) -> Result<Program, Fail>
    ensures { IfOk result (λ made. programs.tables made ≡ small_tables) }
{
    let mut draft = Draft::new(alloc);
    add_pair(&mut draft)?;
    add_relation(&mut draft)?;
    match draft.close(&[]) {
        Ok(program) => Ok(program),
        Err(_) => Err(Fail::from("the draft is open")),
    }
}
