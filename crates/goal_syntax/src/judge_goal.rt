//! The faults of goals.

ghost use Rattle.std.specs.Prelude.{◌≡◌, ◌+◌, ◌<◌, ◌++◌, ◌∷◌, [], length, reverse, List, Option, ℕ};
ghost use Rattle.std.specs.Prelude.{OnOk};
ghost use Rattle.std.specs.List.{flat_map};
ghost use Rattle.kan_terms.specs.Table.{Table};
ghost use Rattle.kan_grammar.specs.Texts.GoalForms.{term_forms};
ghost use Rattle.kan_grammar.specs.Texts.TextFaults.{term_faults, call_faults, goals_faults};
ghost use Rattle.kan_grammar.specs.Texts.Resolved.{arity, within};
ghost use Rattle.goal_forms.specs.Contexts.{data_of, datum_at, defined_in, term_at, terms_at};
ghost use Rattle.goal_forms.specs.Contexts.{goals_at, binder_at};
ghost use Rattle.goal_syntax.specs.Judging.InContext.{faults_left, faults_alone};
ghost use Rattle.goal_syntax.specs.Judging.GoalsLeft.{fresh_faults, inner_waiting, stack_parts};
ghost use Rattle.goal_syntax.specs.Judging.GoalsLeft.{waiting_parts};
ghost use Rattle.goal_forms.specs.Steps.GoalSteps.{inner_names};
ghost use Rattle.goal_syntax.specs.Judging.FaultLists.{fault_list, AddsFaults};
ghost use Rattle.goal_forms.specs.Parts.{sites, site_at};
ghost use Rattle.goal_forms.specs.RelationTables.{relations};
ghost use Rattle.goal_forms.specs.Steps.TermSteps.{site_size};

use crate::fault::{Fault, report};
use crate::judge_binder::{judge_binder, judge_tag};
use crate::judge_term::judge_term;
use goal_forms::{
    Context, FlatData, Goal, Task, binder_names, enter, is_proper, pair_parts, parse_goal,
};
use kan_refusals::Refusal;
use kan_terms::{Memory, Names};
use std::alloc::Global;

// How many terms a list has.
fn count_terms(flat: &FlatData, mut place: u32) -> u32
    ensures { (names : Table) → result
        ≡ length (term_forms names (site_at (sites flat.now) place)) }
{
    let mut counted = 0;
    while let Some((_, rest)) = pair_parts(flat, place) {
        counted += 1;
        place = rest;
    }
    counted
}

// Notes the faults of the terms in a list.
fn judge_terms(
    context: &Context,
    scope: &[Option<u32>],
    mut place: u32,
    faults: &mut Vec<Fault>,
) -> Result<(), Memory>
    ensures { OnOk result (AddsFaults faults.old.items faults.new.items
        (flat_map (term_faults scope.now) (terms_at context.now place))) }
{
    while let Some((first, rest)) = pair_parts(context.flat, place) {
        judge_term(
            context.alloc,
            context.flat,
            context.names,
            scope,
            Task::Term(first),
            faults,
        )?;
        place = rest;
    }
    Ok(())
}

// Notes the fault of a call's head, where it has so many arguments.
fn judge_head(
    context: &Context,
    at: u32,
    symbol: u32,
    count: u32,
    faults: &mut Vec<Fault>,
) -> Result<(), Memory>
    ensures { OnOk result (AddsFaults faults.old.items faults.new.items
        (call_faults (arity (defined_in context.now) symbol) at count)) }
{
    match context.relations.params(symbol) {
        None => report(faults, at, Refusal::UnknownRelation),
        Some(params) if count != params => report(faults, at, Refusal::WrongCount),
        Some(_) => Ok(()),
    }
}

/// What waits to be judged.
#[derive(Clone, Copy, Debug, PartialEq, Eq)]
pub(crate) enum Waiting {
    /// The goal at a place.
    Goal(u32),
    /// The goals of a list, from a pair of it on.
    Goals(u32),
    /// The clauses of a list, from a pair of it on.
    Clauses(u32),
    /// That a scope is left: only so many slots keep their names.
    Leave(usize),
}

// Notes the faults of a term.
fn judge_one(
    context: &Context,
    scope: &[Option<u32>],
    term: u32,
    faults: &mut Vec<Fault>,
) -> Result<(), Memory>
    ensures { OnOk result (AddsFaults faults.old.items faults.new.items
        (term_faults scope.now (term_at context.now term))) }
{
    judge_term(
        context.alloc,
        context.flat,
        context.names,
        scope,
        Task::Term(term),
        faults,
    )
}

// Notes the faults of a goal's terms, of its head and of its shape.
fn judge_own(
    context: &Context,
    scope: &[Option<u32>],
    goal: Goal,
    faults: &mut Vec<Fault>,
) -> Result<(), Memory>
    ensures { OnOk result (AddsFaults faults.old.items faults.new.items
        (faults_alone context.now scope.now goal)) }
{
    match goal {
        Goal::Same(left, right) | Goal::Differ(left, right) => {
            judge_one(context, scope, left, faults)?;
            judge_one(context, scope, right, faults)
        }
        Goal::Symbol(term) | Goal::Number(term) | Goal::Text(term) => judge_one(
            context, scope, term, faults,
        ),
        Goal::Absent(tag, term) => {
            judge_tag(context.flat, context.names, tag, faults)?;
            judge_one(context, scope, term, faults)
        }
        Goal::Call(at, symbol, args) => {
            judge_head(context, at, symbol, count_terms(context.flat, args), faults)?;
            judge_terms(context, scope, args, faults)
        }
        Goal::Misshapen(at) => report(faults, at, Refusal::BadShape),
        _ => Ok(()),
    }
}

// Notes the faults of a binder, puts its names into scope, and the goals in which it binds on the
// stack.
fn enter_fresh(
    context: &Context,
    binder: u32,
    goals: u32,
    scope: &mut Vec<Option<u32>>,
    waiting: &mut Vec<Waiting>,
    faults: &mut Vec<Fault>,
) -> Result<(), Memory>
    ensures faults { OnOk result (AddsFaults faults.old.items faults.new.items
        ((binder_at context.now binder).faults)) }
    ensures scope { OnOk result
        (scope.new.items ≡ within scope.old.items (binder_at context.now binder).value) }
    ensures waiting { OnOk result
        (waiting.new.items ≡ waiting.old.items ++ Waiting.Leave (length scope.old.items)
        ∷ Waiting.Goals goals ∷ []) }
{
    waiting.push(Waiting::Leave(scope.len()))?;
    judge_binder(context.alloc, context.flat, context.names, binder, faults)?;
    let bound = binder_names(context.alloc, context.flat, binder)?;
    enter(&bound, scope)?;
    waiting.push(Waiting::Goals(goals))?;
    Ok(())
}

// Puts what stands in a goal on the stack, in its scope, and notes the faults of its binder.
fn wait_for(
    context: &Context,
    goal: Goal,
    scope: &mut Vec<Option<u32>>,
    waiting: &mut Vec<Waiting>,
    faults: &mut Vec<Fault>,
) -> Result<(), Memory>
    ensures faults { OnOk result (AddsFaults faults.old.items faults.new.items
        (fresh_faults context.now.names.now (data_of context.now) goal)) }
    ensures scope { OnOk result
        (scope.new.items ≡ inner_names context.now.names.now
        (data_of context.now) scope.old.items goal) }
    ensures waiting { OnOk result
        (waiting.new.items ≡ waiting.old.items ++ inner_waiting scope.old.items goal) }
{
    match goal {
        Goal::Fresh(binder, goals) => enter_fresh(context, binder, goals, scope, waiting, faults),
        Goal::AllOf(goals) | Goal::OneOf(goals) => {
            waiting.push(Waiting::Goals(goals))?;
            Ok(())
        }
        Goal::Clauses(clauses) => {
            waiting.push(Waiting::Clauses(clauses))?;
            Ok(())
        }
        _ => Ok(()),
    }
}

// Notes the faults of a goal but for those of the goals in it, which are put on the stack.
fn judge_goal(
    context: &Context,
    place: u32,
    scope: &mut Vec<Option<u32>>,
    waiting: &mut Vec<Waiting>,
    faults: &mut Vec<Fault>,
) -> Result<(), Memory>
    ensures faults { OnOk result (fault_list faults.new.items
        ++ faults_left context.now scope.new.items (reverse waiting.new.items)
        ≡ fault_list faults.old.items
        ++ faults_left context.now scope.old.items
        (Waiting.Goal place ∷ reverse waiting.old.items)) }
    ensures parts { OnOk result (stack_parts (data_of context.now) waiting.new.items
        < site_size (datum_at context.now place) + stack_parts
        (data_of context.now) waiting.old.items) }
{
    let goal = parse_goal(context.flat, context.names, place);
    judge_own(context, scope, goal, faults)?;
    wait_for(context, goal, scope, waiting, faults)?;
    Ok(())
}

// Puts the first of some goals and the others on the stack.
fn wait_for_goals(context: &Context, place: u32, waiting: &mut Vec<Waiting>) -> Result<(), Memory>
    ensures faults { OnOk result ((slots : List (Option ℕ)) →
        faults_left context.now slots (reverse waiting.new.items)
        ≡ faults_left context.now slots (Waiting.Goals place ∷ reverse waiting.old.items)) }
    ensures parts { OnOk result (stack_parts (data_of context.now) waiting.new.items
        < site_size (datum_at context.now place) + stack_parts
        (data_of context.now) waiting.old.items) }
{
    if let Some((first, rest)) = pair_parts(context.flat, place) {
        waiting.push(Waiting::Goals(rest))?;
        waiting.push(Waiting::Goal(first))?;
    }
    Ok(())
}

// Puts the first of some clauses and the others on the stack, or notes that the first is no list.
fn wait_for_clauses(
    context: &Context,
    place: u32,
    waiting: &mut Vec<Waiting>,
    faults: &mut Vec<Fault>,
) -> Result<(), Memory>
    ensures faults { OnOk result ((slots : List (Option ℕ)) → fault_list faults.new.items
        ++ faults_left context.now slots (reverse waiting.new.items)
        ≡ fault_list faults.old.items
        ++ faults_left context.now slots (Waiting.Clauses place ∷ reverse waiting.old.items)) }
    ensures parts { OnOk result (stack_parts (data_of context.now) waiting.new.items
        < site_size (datum_at context.now place) + stack_parts
        (data_of context.now) waiting.old.items) }
{
    let Some((clause, rest)) = pair_parts(context.flat, place) else {
        return Ok(());
    };
    waiting.push(Waiting::Clauses(rest))?;
    if is_proper(context.flat, clause) {
        waiting.push(Waiting::Goals(clause))?;
    } else {
        report(faults, context.flat.read(clause).at, Refusal::BadShape)?;
    }
    Ok(())
}

// Notes the faults of what comes next, but for those of what stands in it, which is put on the
// stack.
fn judge_next(
    context: &Context,
    next: Waiting,
    scope: &mut Vec<Option<u32>>,
    waiting: &mut Vec<Waiting>,
    faults: &mut Vec<Fault>,
) -> Result<(), Memory>
    ensures faults { OnOk result (fault_list faults.new.items
        ++ faults_left context.now scope.new.items (reverse waiting.new.items)
        ≡ fault_list faults.old.items
        ++ faults_left context.now scope.old.items (next ∷ reverse waiting.old.items)) }
    ensures parts { OnOk result (stack_parts (data_of context.now) waiting.new.items
        < waiting_parts (data_of context.now) next + stack_parts
        (data_of context.now) waiting.old.items) }
{
    match next {
        Waiting::Goal(place) => judge_goal(context, place, scope, waiting, faults)?,
        Waiting::Goals(place) => wait_for_goals(context, place, waiting)?,
        Waiting::Clauses(place) => wait_for_clauses(context, place, waiting, faults)?,
        Waiting::Leave(slots) => scope.truncate(slots),
    }
    Ok(())
}

/// Notes the faults of the goals in a list, where these names are in scope.
pub(crate) fn judge_goals(
    context: &Context,
    goals: u32,
    mut scope: Vec<Option<u32>>,
    faults: &mut Vec<Fault>,
) -> Result<(), Memory>
    ensures { OnOk result (AddsFaults faults.old.items faults.new.items
        (goals_faults (defined_in context.now) scope.items (goals_at context.now goals))) }
{
    let mut waiting = Vec::new(context.alloc);
    waiting.push(Waiting::Goals(goals))?;
    while let Some(next) = waiting.pop() {
        judge_next(context, next, &mut scope, &mut waiting, faults)?;
    }
    Ok(())
}
