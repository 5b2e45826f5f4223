//! Building the goals of runs.

ghost use Rattle.std.specs.Prelude.{true, ◌≤◌, ◌≡◌, ◌<◌, ◌+◌, ◌^◌, ◌∷◌, [], List, length};
ghost use Rattle.std.specs.Prelude.{IfOk, OnOk};
ghost use Rattle.std.specs.List.{list_all};
ghost use Rattle.kan_terms.specs.Table.{Table};
ghost use Rattle.kan_model.specs.Programs.Drafts.{tables, templates, goals as model_goals};
ghost use Rattle.kan_model.specs.Programs.Goals as model;
ghost use Rattle.kan_model.specs.Programs.Scope.{is_low, width};
ghost use Rattle.kan_model.specs.Programs.Tables.{RelationEntry, goal_at};
ghost use Rattle.kan_grammar.specs.Texts.Resolved.{suspended_in, within};
ghost use Rattle.goal_syntax.specs.Building.CallsThere.{are_there, calls_named};
ghost use Rattle.goal_syntax.specs.Building.Entries.{Adds, HasRoomFor};
ghost use Rattle.goal_syntax.specs.Building.FormsBuilt.{asked_equation};
ghost use Rattle.goal_syntax.specs.Building.AddingGoals.{AddsGoal};
ghost use Rattle.goal_syntax.specs.Building.GrownTables.{HasGoal, Grows};
ghost use Rattle.goal_syntax.specs.Building.InContext.{list_goal, goal_behind, run_goal};
ghost use Rattle.goal_syntax.specs.Building.InContext.{fresh_goal, list_entries, fresh_entries};
ghost use Rattle.goal_syntax.specs.Building.InContext.{run_entries, list_width, run_width};
ghost use Rattle.goal_syntax.specs.Building.InContext.{KeepsClosedIn, NamesIn};
ghost use Rattle.goal_syntax.specs.Building.Named.{Lacks};
ghost use Rattle.goal_syntax.specs.Building.Widths.{Widens};

use crate::build_goal::build_goals;
use crate::build_term::build_slots;
use crate::drafting::{add_goal, add_term};
use goal_forms::{Context, binder_names, enter, pair_parts, unnamed};
use kan_grammar::Dialect;
use kan_model::{Draft, GoalNode, TermNode};
use kan_terms::Memory;

/// Builds the goal of a run over one name.
pub(crate) fn build_one(
    context: &Context,
    symbol: u32,
    goals: u32,
    draft: &mut Draft,
) -> Result<u32, Memory>
    requires room { HasRoomFor (1 + list_entries context.now goals) (tables draft.old) }
    ensures { IfOk result (AddsGoal context.now
        (list_goal context.now (within [] (symbol ∷ [])) goals)
        (1 + list_entries context.now goals) (list_width context.now goals) draft.old draft.new) }
{
    let mut scope = Vec::new(context.alloc);
    scope.push(Some(symbol))?;
    let goal = build_goals(context, goals, scope, draft)?;
    Ok(goal)
}

// Builds the goal that slot 0 is the list of as many slots behind it as there are names.
fn build_equation(bound: &[u32], draft: &mut Draft) -> Result<u32, Memory>
    requires room { HasRoomFor (3 + length bound.now + length bound.now) (tables draft.old) }
    ensures made { IfOk result (λ at. HasGoal (tables draft.new) at (asked_equation bound.now)) }
    ensures grows { OnOk result (Grows (tables draft.old) (tables draft.new)) }
    ensures room { OnOk result
        (Adds (3 + length bound.now + length bound.now) (tables draft.old) (tables draft.new)) }
    ensures low { OnOk result
        (length bound.now ≤ 2048 → list_all is_low (templates draft.old)
        ≡ true → list_all is_low (templates draft.new) ≡ true) }
    ensures called { OnOk result
        ((rows : List RelationEntry) → are_there rows (tables draft.new).goals
        ≡ are_there rows (tables draft.old).goals) }
    ensures narrow { OnOk result (Widens 0 (tables draft.old) (tables draft.new)) }
    ensures named { OnOk result ((names : Table) →
        Lacks names 0 (tables draft.old) (tables draft.new)) }
{
    let list = build_slots(bound, draft)?;
    let asked = add_term(draft, TermNode::Slot(0))?;
    let goal = add_goal(draft, GoalNode::Same(list, asked))?;
    Ok(goal)
}

// Builds the goals of a list behind a goal with which they hold together.
fn build_behind(
    context: &Context,
    first: u32,
    goals: u32,
    scope: Vec<Option<u32>>,
    draft: &mut Draft,
) -> Result<u32, Memory>
    requires there { first < length (tables draft.old).goals }
    requires room { HasRoomFor (1 + list_entries context.now goals) (tables draft.old) }
    requires few { length scope.items + list_entries context.now goals < 2 ^ 24 }
    ensures made { IfOk result (λ at. (g : model.Goal) → HasGoal (tables draft.old) first g →
        HasGoal (tables draft.new) at (goal_behind context.now g scope.items goals)) }
    ensures grows { OnOk result (Grows (tables draft.old) (tables draft.new)) }
    ensures room { OnOk result
        (Adds (1 + list_entries context.now goals) (tables draft.old) (tables draft.new)) }
    ensures closed { OnOk result (KeepsClosedIn context.now draft.old draft.new
        (λ rows. calls_named rows (list_goal context.now scope.items goals))) }
    ensures narrow { OnOk result (Widens
        (width (goal_at (model_goals draft.old) first) + list_width context.now goals)
        (tables draft.old) (tables draft.new)) }
    ensures named { OnOk result (NamesIn context.now draft.old draft.new) }
{
    if pair_parts(context.flat, goals).is_none() {
        return Ok(first);
    }
    let rest = build_goals(context, goals, scope, draft)?;
    let both = add_goal(draft, GoalNode::Both(first, rest))?;
    Ok(both)
}

// Builds the fresh goal of a run over a list of names, whose variable is the list of these.
fn build_fresh(context: &Context, binder: u32, goals: u32, draft: &mut Draft) -> Result<u32, Memory>
    requires room { HasRoomFor (fresh_entries context.now binder goals) (tables draft.old) }
    ensures { IfOk result (AddsGoal context.now (fresh_goal context.now binder goals)
        (fresh_entries context.now binder goals) (run_width context.now binder goals)
        draft.old draft.new) }
{
    let bound = binder_names(context.alloc, context.flat, binder)?;
    let count = bound.len() as u32;
    let mut scope = unnamed(context.alloc)?;
    enter(&bound, &mut scope)?;
    let first = build_equation(&bound, draft)?;
    let goal = build_behind(context, first, goals, scope, draft)?;
    let fresh = add_goal(draft, GoalNode::Fresh(count, goal))?;
    Ok(fresh)
}

// The goal at a place, which suspends in the dialect in which `fresh` does.
fn suspend_at(dialect: Dialect, goal: u32, draft: &mut Draft) -> Result<u32, Memory>
    requires there { goal < length (tables draft.old).goals }
    requires room { HasRoomFor 1 (tables draft.old) }
    ensures made { IfOk result (λ at. (g : model.Goal) → HasGoal (tables draft.old) goal g →
        HasGoal (tables draft.new) at (suspended_in dialect g)) }
    ensures grows { OnOk result (Grows (tables draft.old) (tables draft.new)) }
    ensures room { OnOk result (Adds 1 (tables draft.old) (tables draft.new)) }
    ensures terms { OnOk result ((tables draft.new).terms ≡ (tables draft.old).terms) }
    ensures called { OnOk result ((rows : List RelationEntry) →
        are_there rows (tables draft.new).goals ≡ are_there rows (tables draft.old).goals) }
    ensures narrow { OnOk result (Widens 0 (tables draft.old) (tables draft.new)) }
    ensures named { OnOk result ((names : Table) →
        Lacks names 0 (tables draft.old) (tables draft.new)) }
{
    match dialect {
        Dialect::Book => Ok(goal),
        Dialect::All => {
            let later = add_goal(draft, GoalNode::Later(goal))?;
            Ok(later)
        }
    }
}

/// Builds the goal of a run over a list of names, whose variable is the list of these.
pub(crate) fn build_list(
    context: &Context,
    binder: u32,
    goals: u32,
    draft: &mut Draft,
) -> Result<u32, Memory>
    requires room { HasRoomFor (run_entries context.now binder goals) (tables draft.old) }
    ensures { IfOk result (AddsGoal context.now (run_goal context.now binder goals)
        (run_entries context.now binder goals) (run_width context.now binder goals)
        draft.old draft.new) }
{
    let fresh = build_fresh(context, binder, goals, draft)?;
    let goal = suspend_at(context.dialect, fresh, draft)?;
    Ok(goal)
}
