//! Goals that are made of those that were made last.

ghost use Rattle.std.specs.Prelude.{◌≡◌, length, true, OnOk};
ghost use Rattle.kan_model.specs.Programs.Drafts.{tables};
ghost use Rattle.kan_model.specs.Programs.Nodes.{goal_entry};
ghost use Rattle.kan_model.specs.Programs.Tables.{is_goal_grown};
ghost use Rattle.goal_syntax.specs.Building.GoalsBuilt.{with_entry};
ghost use Rattle.goal_syntax.specs.Building.GrownTables.{Grows};
ghost use Rattle.goal_syntax.specs.Building.Entries.{Adds, HasRoomFor};
ghost use Rattle.goal_syntax.specs.Building.GoalsLeft.{empty_entry, with_last_fresh, join_entry};
ghost use Rattle.goal_syntax.specs.Building.GoalsLeft.{with_last_joined};
ghost use Rattle.goal_syntax.specs.Building.GoalsLeft.{with_last_suspended};
ghost use Rattle.goal_syntax.specs.Building.StackSteps.{ChangesGoals};
ghost use Rattle.goal_syntax.specs.Building.WorkSteps.{AreMade, goals_made, width_made};
ghost use Rattle.goal_syntax.specs.Building.Widths.{Widens};
ghost use Rattle.goal_syntax.specs.Building.Named.{Lacks, goal_unnamed};
ghost use Rattle.kan_terms.specs.Table.{Table};

use crate::drafting::add_goal;
use kan_grammar::Dialect;
use kan_model::{Draft, GoalNode};
use kan_terms::Memory;

/// How the goals of a list are joined.
#[derive(Clone, Copy, Debug, PartialEq, Eq)]
pub(crate) enum Row {
    /// Goals that hold together.
    All,
    /// Goals of which one holds.
    One,
    /// Clauses of which one holds.
    Clauses,
}

impl Row {
    /// The goal of an empty row.
    pub(crate) fn empty(self) -> GoalNode
        ensures { goal_entry result ≡ empty_entry self }
    {
        match self {
            Row::All => GoalNode::Succeed,
            Row::One => GoalNode::Fail,
            Row::Clauses => GoalNode::Fail,
        }
    }

    /// Two goals joined as those of a row.
    pub(crate) fn join(self, left: u32, right: u32) -> GoalNode
        ensures { goal_entry result ≡ join_entry self left right }
    {
        match self {
            Row::All => GoalNode::Both(left, right),
            Row::One => GoalNode::Either(left, right),
            Row::Clauses => GoalNode::Either(left, right),
        }
    }
}

/// Adds a goal, and its place to those that were made.
pub(crate) fn make(node: GoalNode, draft: &mut Draft, places: &mut Vec<u32>) -> Result<(), Memory>
    requires there { is_goal_grown (tables draft.old) (length (tables draft.old).goals)
        (goal_entry node) ≡ true }
    requires room { HasRoomFor 1 (tables draft.old) }
    requires below { AreMade draft.old places.old.items }
    ensures made { OnOk result
        (goals_made draft.new places.new.items
        ≡ with_entry (tables draft.old) (goal_entry node)
        (goals_made draft.old places.old.items)) }
    ensures below { OnOk result (AreMade draft.new places.new.items) }
    ensures grows { OnOk result (Grows (tables draft.old) (tables draft.new)) }
    ensures room { OnOk result (Adds 1 (tables draft.old) (tables draft.new)) }
    ensures terms { OnOk result ((tables draft.new).terms ≡ (tables draft.old).terms) }
    ensures narrow { OnOk result (Widens (width_made draft.new places.new.items)
        (tables draft.old) (tables draft.new)) }
    ensures named { OnOk result ((names : Table) →
        Lacks names (goal_unnamed names (goal_entry node)) (tables draft.old) (tables draft.new)) }
{
    let place = add_goal(draft, node)?;
    places.push(place)?;
    Ok(())
}

/// Joins the two goals that were made last as those of a row.
pub(crate) fn join_two(row: Row, draft: &mut Draft, places: &mut Vec<u32>) -> Result<(), Memory>
    requires room { HasRoomFor 1 (tables draft.old) }
    requires below { AreMade draft.old places.old.items }
    ensures { OnOk result (ChangesGoals (with_last_joined row)
        (tables draft.old) (tables draft.new) places.old.items places.new.items) }
{
    let Some(right) = places.pop() else {
        return Ok(());
    };
    let Some(left) = places.pop() else {
        return Ok(());
    };
    make(row.join(left, right), draft, places)?;
    Ok(())
}

/// Gives the goal that was made last so many slots of its own.
pub(crate) fn add_slots(count: u32, draft: &mut Draft, places: &mut Vec<u32>) -> Result<(), Memory>
    requires room { HasRoomFor 1 (tables draft.old) }
    requires below { AreMade draft.old places.old.items }
    ensures { OnOk result (ChangesGoals (with_last_fresh count)
        (tables draft.old) (tables draft.new) places.old.items places.new.items) }
{
    let Some(goal) = places.pop() else {
        return Ok(());
    };
    make(GoalNode::Fresh(count, goal), draft, places)?;
    Ok(())
}

// Lets the goal that was made last suspend.
fn add_later(draft: &mut Draft, places: &mut Vec<u32>) -> Result<(), Memory>
    requires room { HasRoomFor 1 (tables draft.old) }
    requires below { AreMade draft.old places.old.items }
    ensures { OnOk result (ChangesGoals (with_last_suspended Dialect.All)
        (tables draft.old) (tables draft.new) places.old.items places.new.items) }
{
    let Some(goal) = places.pop() else {
        return Ok(());
    };
    make(GoalNode::Later(goal), draft, places)?;
    Ok(())
}

/// Lets the goal that was made last suspend, in the dialect in which `fresh` and `conde` do.
pub(crate) fn suspend(
    dialect: Dialect,
    draft: &mut Draft,
    places: &mut Vec<u32>,
) -> Result<(), Memory>
    requires room { HasRoomFor 1 (tables draft.old) }
    requires below { AreMade draft.old places.old.items }
    ensures { OnOk result (ChangesGoals (with_last_suspended dialect)
        (tables draft.old) (tables draft.new) places.old.items places.new.items) }
{
    match dialect {
        Dialect::Book => Ok(()),
        Dialect::All => add_later(draft, places),
    }
}
