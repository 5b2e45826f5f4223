//! Building goals.

ghost use Rattle.goal_syntax.specs.Building.InContext.{list_goal, goal_alone, KeepsLowIn};
ghost use Rattle.goal_syntax.specs.Building.WorkSteps.{goals_made, width_made, made_later};
ghost use Rattle.goal_syntax.specs.Building.WorkSteps.{AreMade, Falls, KeepsEntries, KeepsWidth};
ghost use Rattle.std.specs.Prelude.{List, ◌≡◌, ◌&&◌, ◌<◌, ◌≤◌, ◌+◌, ◌^◌, ◌∷◌, ◌++◌, [], length};
ghost use Rattle.std.specs.Prelude.{reverse};
ghost use Rattle.std.specs.Prelude.{IfOk, OnOk};
ghost use Rattle.kan_grammar.specs.Texts.Resolved.{Names, within};
ghost use Rattle.kan_model.specs.Programs.Drafts.{tables};
ghost use Rattle.goal_forms.specs.Contexts.{data_of, datum_at, binder_at};
ghost use Rattle.kan_model.specs.Programs.Tables.{RelationEntry};
ghost use Rattle.goal_syntax.specs.Building.CallsThere.{are_there, calls_named};
ghost use Rattle.goal_syntax.specs.Building.GoalsBuilt.{with_maybe};
ghost use Rattle.goal_syntax.specs.Building.GrownTables.{HasGoal, Grows};
ghost use Rattle.goal_syntax.specs.Building.Entries.{Adds, HasRoomFor, entries};
ghost use Rattle.goal_syntax.specs.Building.InContext.{goals_entries, list_entries, next_entries};
ghost use Rattle.goal_forms.specs.Steps.GoalSteps.{inner_names};
ghost use Rattle.goal_syntax.specs.Building.GoalsLeft.{first_work, inner_works, other_works};
ghost use Rattle.goal_syntax.specs.Building.GoalsLeft.{own_size};
ghost use Rattle.goal_forms.specs.Shapes.{parts};
ghost use Rattle.goal_syntax.specs.Building.Widths.{Widens};
ghost use Rattle.goal_syntax.specs.Building.InContext.{list_width};
ghost use Rattle.goal_syntax.specs.Building.InContext.{NamesIn};

use crate::build_node::build_node;
use crate::join_goal::{Row, add_slots, join_two, make, suspend};
use goal_forms::{Context, Goal, binder_names, enter, is_proper, pair_parts, parse_goal};
use kan_model::{Draft, GoalNode};
use kan_terms::Memory;

/// What is left to be built.
#[derive(Clone, Copy, Debug, PartialEq, Eq)]
pub(crate) enum Work {
    /// The goal at a place.
    Goal(u32),
    /// The clause at a place.
    Clause(u32),
    /// The goals of a list, from a place of it on.
    Row(Row, u32),
    /// The goal of the two that were made last, joined as those of a row.
    Join(Row),
    /// The goal made last, with so many slots of its own.
    Fresh(u32),
    /// The goal made last, which suspends where the dialect says so.
    Suspend,
    /// That a scope is left: only so many slots keep their names.
    Leave(usize),
}

// Builds a goal that has no goals in it.
fn build_own(
    context: &Context,
    scope: &[Option<u32>],
    goal: Goal,
    draft: &mut Draft,
    places: &mut Vec<u32>,
) -> Result<(), Memory>
    requires room { HasRoomFor
        (own_size context.now.names.now (data_of context.now) goal) (tables draft.old) }
    requires few { length scope.now < 2 ^ 24 }
    requires below { AreMade draft.old places.old.items }
    ensures made { OnOk result (goals_made draft.new places.new.items
        ≡ with_maybe (goal_alone context.now scope.now goal)
        (goals_made draft.old places.old.items)) }
    ensures below { OnOk result (AreMade draft.new places.new.items) }
    ensures grows { OnOk result (Grows (tables draft.old) (tables draft.new)) }
    ensures room { OnOk result
        (Adds (own_size context.now.names.now (data_of context.now) goal)
        (tables draft.old) (tables draft.new)) }
    ensures low { OnOk result (KeepsLowIn context.now draft.old draft.new) }
    ensures narrow { OnOk result (Widens (width_made draft.new places.new.items)
        (tables draft.old) (tables draft.new)) }
    ensures named { OnOk result (NamesIn context.now draft.old draft.new) }
{
    if let Some(node) = build_node(context, scope, goal, draft)? {
        make(node, draft, places)?;
    }
    Ok(())
}

// Puts the names of a binder into scope, and the goals in which it binds on the stack.
fn enter_fresh(
    context: &Context,
    binder: u32,
    goals: u32,
    scope: &mut Vec<Option<u32>>,
    works: &mut Vec<Work>,
) -> Result<(), Memory>
    ensures scope { OnOk result
        (scope.new.items ≡ within scope.old.items (binder_at context.now binder).value) }
    ensures works { OnOk result (works.new.items ≡ works.old.items
        ++ Work.Suspend ∷ Work.Fresh (length (binder_at context.now binder).value)
        ∷ Work.Leave (length scope.old.items) ∷ Work.Row Row.All goals ∷ []) }
{
    let bound = binder_names(context.alloc, context.flat, binder)?;
    let count = bound.len() as u32;
    works.push(Work::Suspend)?;
    works.push(Work::Fresh(count))?;
    works.push(Work::Leave(scope.len()))?;
    works.push(Work::Row(Row::All, goals))?;
    enter(&bound, scope)?;
    Ok(())
}

// Puts the goals in a goal on the stack, in their scope.
fn wait_for(
    context: &Context,
    goal: Goal,
    scope: &mut Vec<Option<u32>>,
    works: &mut Vec<Work>,
) -> Result<(), Memory>
    ensures scope { OnOk result
        (scope.new.items ≡ inner_names context.now.names.now
        (data_of context.now) scope.old.items goal) }
    ensures works { OnOk result
        (works.new.items ≡ works.old.items
        ++ inner_works context.now.names.now (data_of context.now) scope.old.items goal) }
{
    match goal {
        Goal::Fresh(binder, goals) => enter_fresh(context, binder, goals, scope, works)?,
        Goal::AllOf(goals) => works.push(Work::Row(Row::All, goals))?,
        Goal::OneOf(goals) => works.push(Work::Row(Row::One, goals))?,
        Goal::Clauses(clauses) => {
            works.push(Work::Suspend)?;
            works.push(Work::Row(Row::Clauses, clauses))?;
        }
        _ => {}
    }
    Ok(())
}

// Builds a goal but for those in it, which are put on the stack.
fn build_goal(
    context: &Context,
    place: u32,
    scope: &mut Vec<Option<u32>>,
    draft: &mut Draft,
    places: &mut Vec<u32>,
    works: &mut Vec<Work>,
) -> Result<(), Memory>
    requires room { HasRoomFor (next_entries context.now (Work.Goal place)) (tables draft.old) }
    requires few { length scope.old.items + next_entries context.now (Work.Goal place) < 2 ^ 24 }
    requires below { AreMade draft.old places.old.items }
    ensures made { OnOk result
        (made_later context.now scope.new.items (reverse works.new.items) draft.new places.new.items
        ≡ made_later context.now scope.old.items (Work.Goal place ∷ reverse works.old.items)
        draft.old places.old.items) }
    ensures falls { OnOk result
        (Falls context.now (Work.Goal place) works.old.items works.new.items) }
    ensures below { OnOk result (AreMade draft.new places.new.items) }
    ensures grows { OnOk result (Grows (tables draft.old) (tables draft.new)) }
    ensures room { OnOk result
        (KeepsEntries context.now (Work.Goal place) works.old.items works.new.items
        (entries (tables draft.old)) (entries (tables draft.new))) }
    ensures few { OnOk result
        (KeepsEntries context.now (Work.Goal place) works.old.items works.new.items
        (length scope.old.items) (length scope.new.items)) }
    ensures low { OnOk result (KeepsLowIn context.now draft.old draft.new) }
    ensures wide { OnOk result
        (KeepsWidth context.now (Work.Goal place) works.old.items works.new.items
        (width_made draft.old places.old.items) (width_made draft.new places.new.items)) }
    ensures narrow { OnOk result (Widens (width_made draft.new places.new.items)
        (tables draft.old) (tables draft.new)) }
    ensures named { OnOk result (NamesIn context.now draft.old draft.new) }
{
    let goal = parse_goal(context.flat, context.names, place);
    build_own(context, scope, goal, draft, places)?;
    wait_for(context, goal, scope, works)?;
    Ok(())
}

// Puts the elements of a row behind its first one on the stack, where there are any, and that they
// are joined to it.
fn wait_for_others(
    context: &Context,
    row: Row,
    rest: u32,
    works: &mut Vec<Work>,
) -> Result<(), Memory>
    ensures { OnOk result
        (works.new.items ≡ works.old.items
        ++ other_works row rest (parts (datum_at context.now rest))) }
{
    if pair_parts(context.flat, rest).is_some() {
        works.push(Work::Join(row))?;
        works.push(Work::Row(row, rest))?;
    }
    Ok(())
}

// What is left to be built of the first element of a row.
fn first_work(row: Row, place: u32) -> Work
    ensures { result ≡ first_work row place }
{
    match row {
        Row::All => Work::Goal(place),
        Row::One => Work::Goal(place),
        Row::Clauses => Work::Clause(place),
    }
}

// Puts the first element of a row and the others on the stack; a row that is empty is built.
fn build_row(
    context: &Context,
    row: Row,
    place: u32,
    draft: &mut Draft,
    places: &mut Vec<u32>,
    works: &mut Vec<Work>,
) -> Result<(), Memory>
    requires room { HasRoomFor (next_entries context.now (Work.Row row place)) (tables draft.old) }
    requires below { AreMade draft.old places.old.items }
    ensures made { OnOk result ((ns : Names) →
        made_later context.now ns (reverse works.new.items) draft.new places.new.items
        ≡ made_later context.now ns (Work.Row row place ∷ reverse works.old.items)
        draft.old places.old.items) }
    ensures falls { OnOk result
        (Falls context.now (Work.Row row place) works.old.items works.new.items) }
    ensures below { OnOk result (AreMade draft.new places.new.items) }
    ensures grows { OnOk result (Grows (tables draft.old) (tables draft.new)) }
    ensures room { OnOk result
        (KeepsEntries context.now (Work.Row row place) works.old.items works.new.items
        (entries (tables draft.old)) (entries (tables draft.new))) }
    ensures few { OnOk result
        (goals_entries context.now works.new.items
        ≤ next_entries context.now (Work.Row row place)
        + goals_entries context.now works.old.items) }
    ensures terms { OnOk result ((tables draft.new).terms ≡ (tables draft.old).terms) }
    ensures wide { OnOk result
        (KeepsWidth context.now (Work.Row row place) works.old.items works.new.items
        (width_made draft.old places.old.items) (width_made draft.new places.new.items)) }
    ensures narrow { OnOk result (Widens (width_made draft.new places.new.items)
        (tables draft.old) (tables draft.new)) }
    ensures named { OnOk result (NamesIn context.now draft.old draft.new) }
{
    if let Some((first, rest)) = pair_parts(context.flat, place) {
        wait_for_others(context, row, rest, works)?;
        works.push(first_work(row, first))?;
    } else {
        make(row.empty(), draft, places)?;
    }
    Ok(())
}

// Puts the goals of a clause on the stack; one that is no list fails.
fn build_clause(
    context: &Context,
    clause: u32,
    draft: &mut Draft,
    places: &mut Vec<u32>,
    works: &mut Vec<Work>,
) -> Result<(), Memory>
    requires room { HasRoomFor (next_entries context.now (Work.Clause clause)) (tables draft.old) }
    requires below { AreMade draft.old places.old.items }
    ensures made { OnOk result ((ns : Names) →
        made_later context.now ns (reverse works.new.items) draft.new places.new.items
        ≡ made_later context.now ns (Work.Clause clause ∷ reverse works.old.items)
        draft.old places.old.items) }
    ensures falls { OnOk result
        (Falls context.now (Work.Clause clause) works.old.items works.new.items) }
    ensures below { OnOk result (AreMade draft.new places.new.items) }
    ensures grows { OnOk result (Grows (tables draft.old) (tables draft.new)) }
    ensures room { OnOk result
        (KeepsEntries context.now (Work.Clause clause) works.old.items works.new.items
        (entries (tables draft.old)) (entries (tables draft.new))) }
    ensures few { OnOk result
        (goals_entries context.now works.new.items
        ≤ next_entries context.now (Work.Clause clause)
        + goals_entries context.now works.old.items) }
    ensures terms { OnOk result ((tables draft.new).terms ≡ (tables draft.old).terms) }
    ensures wide { OnOk result
        (KeepsWidth context.now (Work.Clause clause) works.old.items works.new.items
        (width_made draft.old places.old.items) (width_made draft.new places.new.items)) }
    ensures narrow { OnOk result (Widens (width_made draft.new places.new.items)
        (tables draft.old) (tables draft.new)) }
    ensures named { OnOk result (NamesIn context.now draft.old draft.new) }
{
    if is_proper(context.flat, clause) {
        works.push(Work::Row(Row::All, clause))?;
    } else {
        make(GoalNode::Fail, draft, places)?;
    }
    Ok(())
}

// Does a piece of work, but for what it leaves on the stack.
fn build_next(
    context: &Context,
    work: Work,
    scope: &mut Vec<Option<u32>>,
    draft: &mut Draft,
    places: &mut Vec<u32>,
    works: &mut Vec<Work>,
) -> Result<(), Memory>
    requires room { HasRoomFor (next_entries context.now work) (tables draft.old) }
    requires few { length scope.old.items + next_entries context.now work < 2 ^ 24 }
    requires below { AreMade draft.old places.old.items }
    ensures made { OnOk result
        (made_later context.now scope.new.items (reverse works.new.items) draft.new places.new.items
        ≡ made_later context.now scope.old.items (work ∷ reverse works.old.items)
        draft.old places.old.items) }
    ensures falls { OnOk result
        (Falls context.now work works.old.items works.new.items) }
    ensures below { OnOk result (AreMade draft.new places.new.items) }
    ensures grows { OnOk result (Grows (tables draft.old) (tables draft.new)) }
    ensures room { OnOk result (KeepsEntries context.now work works.old.items works.new.items
        (entries (tables draft.old)) (entries (tables draft.new))) }
    ensures few { OnOk result (KeepsEntries context.now work works.old.items works.new.items
        (length scope.old.items) (length scope.new.items)) }
    ensures low { OnOk result (KeepsLowIn context.now draft.old draft.new) }
    ensures wide { OnOk result (KeepsWidth context.now work works.old.items works.new.items
        (width_made draft.old places.old.items) (width_made draft.new places.new.items)) }
    ensures narrow { OnOk result (Widens (width_made draft.new places.new.items)
        (tables draft.old) (tables draft.new)) }
    ensures named { OnOk result (NamesIn context.now draft.old draft.new) }
{
    match work {
        Work::Goal(place) => build_goal(context, place, scope, draft, places, works)?,
        Work::Clause(place) => build_clause(context, place, draft, places, works)?,
        Work::Row(row, place) => build_row(context, row, place, draft, places, works)?,
        Work::Join(row) => join_two(row, draft, places)?,
        Work::Fresh(count) => add_slots(count, draft, places)?,
        Work::Suspend => suspend(context.dialect, draft, places)?,
        Work::Leave(slots) => scope.truncate(slots),
    }
    Ok(())
}

/// Builds the goals of a list, which hold together, where these names are in scope, and gives the
/// place of their goal.
pub(crate) fn build_goals(
    context: &Context,
    place: u32,
    mut scope: Vec<Option<u32>>,
    draft: &mut Draft,
) -> Result<u32, Memory>
    requires room { HasRoomFor (list_entries context.now place) (tables draft.old) }
    requires few { length scope.items + list_entries context.now place < 2 ^ 24 }
    ensures made { IfOk result
        (λ at. HasGoal (tables draft.new) at (list_goal context.now scope.items place)) }
    ensures grows { OnOk result (Grows (tables draft.old) (tables draft.new)) }
    ensures room { OnOk result
        (Adds (list_entries context.now place) (tables draft.old) (tables draft.new)) }
    ensures low { OnOk result (KeepsLowIn context.now draft.old draft.new) }
    ensures called { OnOk result
        ((rows : List RelationEntry) → are_there rows (tables draft.new).goals
        ≡ (are_there rows (tables draft.old).goals
        && calls_named rows (list_goal context.now scope.items place))) }
    ensures narrow { OnOk result
        (Widens (list_width context.now place) (tables draft.old) (tables draft.new)) }
    ensures named { OnOk result (NamesIn context.now draft.old draft.new) }
{
    let mut places = Vec::new(context.alloc);
    let mut works = Vec::new(context.alloc);
    works.push(Work::Row(Row::All, place))?;
    while let Some(work) = works.pop() {
        build_next(context, work, &mut scope, draft, &mut places, &mut works)?;
    }
    let Some(goal) = places.pop() else {
        unreachable!()
    };
    Ok(goal)
}
