//! Building templates of terms.

ghost use Rattle.goal_syntax.specs.Building.InContext.{task_template, term_templates, KeepsLowIn};
ghost use Rattle.std.specs.Prelude.{◌≡◌, ◌∷◌, ◌+◌, ◌<◌, ◌^◌, ◌≤◌, map, length, reverse, unwrap_or};
ghost use Rattle.std.specs.Prelude.{true, IfOk, OnOk};
ghost use Rattle.kan_grammar.specs.Texts.ProgramText.{slot_list};
ghost use Rattle.kan_grammar.specs.Texts.Resolved.{template_in, slot_of};
ghost use Rattle.kan_model.specs.Programs.Tables.{is_term_grown, template_at, template_of};
ghost use Rattle.kan_model.specs.Programs.Nodes.{term_entry};
ghost use Rattle.kan_model.specs.Programs.Drafts.{tables, templates};
ghost use Rattle.std.specs.List.{list_all};
ghost use Rattle.kan_model.specs.Programs.Scope.{is_low};
ghost use Rattle.goal_forms.specs.Contexts.{data_of, terms_at};
ghost use Rattle.kan_terms.specs.Tree.{size};
ghost use Rattle.goal_syntax.specs.Building.TermHeights.{WorksLow, all_low};
ghost use Rattle.goal_syntax.specs.Building.TermsLeft.{AddsTerms, HasTemplates, with_arguments};
ghost use Rattle.goal_syntax.specs.Building.TermsLeft.{stack_templates, pair_of_last_two, finish};
ghost use Rattle.goal_syntax.specs.Building.TermsLeft.{work_size};
ghost use Rattle.goal_syntax.specs.Building.TermsLeft.{works_size, work_entries};
ghost use Rattle.goal_syntax.specs.Building.GrownTables.{HasTemplate, HasArguments, Grows};
ghost use Rattle.goal_syntax.specs.Building.Entries.{Adds, HasRoomFor, arguments_size, entries};
ghost use Rattle.goal_syntax.specs.Building.Entries.{terms_size};
ghost use Rattle.goal_syntax.specs.Building.InContext.{task_entries, terms_entries};
ghost use Rattle.goal_forms.specs.Steps.TermSteps.{step_form, step_size};
ghost use Rattle.goal_forms.specs.Places.{are_below};
ghost use Rattle.goal_syntax.specs.Building.Named.{Lacks, term_unnamed, tree_unnamed};
ghost use Rattle.kan_terms.specs.Table.{Table};
ghost use Rattle.goal_syntax.specs.Building.InContext.{NamesIn};

use crate::drafting::{add_argument, add_term};
use goal_forms::{Context, Step, Task, pair_parts, parse_task, slot_of};
use kan_model::{Draft, TermNode};
use kan_terms::Memory;

/// What is left to be built.
#[derive(Clone, Copy, Debug, PartialEq, Eq)]
pub(crate) enum Work {
    /// The template of a task's term.
    Term(Task),
    /// The pair of the two templates that were built last.
    Pair,
}

// Adds a template as the one built last.
fn put(node: TermNode, draft: &mut Draft, places: &mut Vec<u32>) -> Result<(), Memory>
    requires there { is_term_grown (length (tables draft.old).terms) (term_entry node) ≡ true }
    requires room { HasRoomFor 1 (tables draft.old) }
    requires below { are_below (length (tables draft.old).terms) places.old.items ≡ true }
    ensures made { OnOk result
        (stack_templates (templates draft.new) places.new.items
        ≡ template_of (templates draft.old) (term_entry node)
        ∷ stack_templates (templates draft.old) places.old.items) }
    ensures below { OnOk result
        (are_below (length (tables draft.new).terms) places.new.items ≡ true) }
    ensures adds { OnOk result (AddsTerms (tables draft.old) (tables draft.new)) }
    ensures low { OnOk result
        (is_low (template_of (templates draft.old) (term_entry node))
        ≡ true → list_all is_low (templates draft.old)
        ≡ true → list_all is_low (templates draft.new) ≡ true) }
    ensures room { OnOk result (Adds 1 (tables draft.old) (tables draft.new)) }
    ensures named { OnOk result ((names : Table) →
        Lacks names (term_unnamed names (term_entry node)) (tables draft.old) (tables draft.new)) }
{
    let place = add_term(draft, node)?;
    places.push(place)?;
    Ok(())
}

// Builds the pair of the two templates that were built last.
fn join(draft: &mut Draft, places: &mut Vec<u32>) -> Result<(), Memory>
    requires room { HasRoomFor 1 (tables draft.old) }
    requires below { are_below (length (tables draft.old).terms) places.old.items ≡ true }
    ensures made { OnOk result
        (stack_templates (templates draft.new) places.new.items
        ≡ pair_of_last_two (stack_templates (templates draft.old) places.old.items)) }
    ensures below { OnOk result
        (are_below (length (tables draft.new).terms) places.new.items ≡ true) }
    ensures adds { OnOk result (AddsTerms (tables draft.old) (tables draft.new)) }
    ensures low { OnOk result
        (list_all is_low (pair_of_last_two (stack_templates (templates draft.old) places.old.items))
        ≡ true → list_all is_low (templates draft.old)
        ≡ true → list_all is_low (templates draft.new) ≡ true) }
    ensures room { OnOk result (Adds 1 (tables draft.old) (tables draft.new)) }
    ensures named { OnOk result ((names : Table) →
        Lacks names 0 (tables draft.old) (tables draft.new)) }
{
    let Some(rest) = places.pop() else {
        return Ok(());
    };
    let Some(first) = places.pop() else {
        return Ok(());
    };
    put(TermNode::Pair(first, rest), draft, places)?;
    Ok(())
}

// The slot of a variable, 0 where its name is not in scope.
fn slot_number(scope: &[Option<u32>], symbol: u32) -> u32
    requires few { length scope.now < 2 ^ 24 }
    ensures { result ≡ unwrap_or (slot_of scope.now symbol) 0 }
{
    match slot_of(scope, symbol) {
        Some(slot) => slot as u32,
        None => 0,
    }
}

// Builds the template that begins with a step, as far as its parts.
fn build_step(
    context: &Context,
    scope: &[Option<u32>],
    step: Step,
    draft: &mut Draft,
    places: &mut Vec<u32>,
    works: &mut Vec<Work>,
) -> Result<(), Memory>
    requires room { HasRoomFor
        (size (step_form (data_of context.now) context.now.names.now step)) (tables draft.old) }
    requires few { length scope.now < 2 ^ 24 }
    requires below { are_below (length (tables draft.old).terms) places.old.items ≡ true }
    ensures made { OnOk result
        (finish (data_of context.now) context.now.names.now scope.now (reverse works.new.items)
        (stack_templates (templates draft.new) places.new.items)
        ≡ finish (data_of context.now) context.now.names.now scope.now (reverse works.old.items)
        (template_in scope.now (step_form (data_of context.now) context.now.names.now step)
        ∷ stack_templates (templates draft.old) places.old.items)) }
    ensures below { OnOk result
        (are_below (length (tables draft.new).terms) places.new.items ≡ true) }
    ensures adds { OnOk result (AddsTerms (tables draft.old) (tables draft.new)) }
    ensures low { OnOk result (
        all_low (data_of context.now) context.now.names.now scope.now (reverse works.old.items)
        (template_in scope.now (step_form (data_of context.now) context.now.names.now step)
        ∷ stack_templates (templates draft.old) places.old.items) ≡ true →
        list_all is_low (templates draft.old) ≡ true →
        WorksLow (data_of context.now) context.now.names.now scope.now (reverse works.new.items)
        (templates draft.new) places.new.items) }
    ensures falls { OnOk result (works_size (data_of context.now) works.new.items
        ≤ 1 + step_size (data_of context.now) step + step_size
        (data_of context.now) step + works_size (data_of context.now) works.old.items) }
    ensures room { OnOk result
        (entries (tables draft.new) + terms_entries context.now works.new.items
        ≤ entries (tables draft.old)
        + (size (step_form (data_of context.now) context.now.names.now step)
        + terms_entries context.now works.old.items)) }
    ensures named { OnOk result
        (Lacks context.now.names.now (tree_unnamed context.now.names.now
        (step_form (data_of context.now) context.now.names.now step))
        (tables draft.old) (tables draft.new)) }
{
    match step {
        Step::Variable(_, symbol) => {
            put(TermNode::Slot(slot_number(scope, symbol)), draft, places)?
        }
        Step::Symbol(symbol) => put(TermNode::Sym(symbol), draft, places)?,
        Step::Text(text) => put(TermNode::Str(text), draft, places)?,
        Step::Number(number) => put(TermNode::Num(number), draft, places)?,
        Step::Truth(truth) => put(TermNode::Truth(truth), draft, places)?,
        Step::Misshapen(_) | Step::Nil => put(TermNode::Nil, draft, places)?,
        Step::Pair(first, rest) => {
            works.push(Work::Pair)?;
            works.push(Work::Term(rest))?;
            works.push(Work::Term(first))?;
        }
        Step::Same(task) => works.push(Work::Term(task))?,
    }
    Ok(())
}

// Does a piece of work, as far as its parts.
fn build_work(
    context: &Context,
    scope: &[Option<u32>],
    work: Work,
    draft: &mut Draft,
    places: &mut Vec<u32>,
    works: &mut Vec<Work>,
) -> Result<(), Memory>
    requires room { HasRoomFor
        (work_entries (data_of context.now) context.now.names.now work) (tables draft.old) }
    requires few { length scope.now < 2 ^ 24 }
    requires below { are_below (length (tables draft.old).terms) places.old.items ≡ true }
    ensures made { OnOk result
        (finish (data_of context.now) context.now.names.now scope.now (reverse works.new.items)
        (stack_templates (templates draft.new) places.new.items)
        ≡ finish (data_of context.now) context.now.names.now scope.now
        (work ∷ reverse works.old.items) (stack_templates (templates draft.old) places.old.items)) }
    ensures below { OnOk result
        (are_below (length (tables draft.new).terms) places.new.items ≡ true) }
    ensures adds { OnOk result (AddsTerms (tables draft.old) (tables draft.new)) }
    ensures low { OnOk result
        (WorksLow (data_of context.now) context.now.names.now scope.now
        (work ∷ reverse works.old.items) (templates draft.old) places.old.items →
        WorksLow (data_of context.now) context.now.names.now scope.now (reverse works.new.items)
        (templates draft.new) places.new.items) }
    ensures falls { OnOk result (works_size (data_of context.now) works.new.items
        < work_size (data_of context.now) work + works_size (data_of context.now) works.old.items) }
    ensures room { OnOk result
        (entries (tables draft.new) + terms_entries context.now works.new.items
        ≤ entries (tables draft.old)
        + (work_entries (data_of context.now) context.now.names.now work
        + terms_entries context.now works.old.items)) }
    ensures named { OnOk result (NamesIn context.now draft.old draft.new) }
{
    match work {
        Work::Term(task) => {
            let step = parse_task(context.flat, context.names, task);
            build_step(context, scope, step, draft, places, works)?;
        }
        Work::Pair => join(draft, places)?,
    }
    Ok(())
}

/// Builds the template of a term where these names are in scope, and gives its place.
pub(crate) fn build_term(
    context: &Context,
    scope: &[Option<u32>],
    task: Task,
    draft: &mut Draft,
) -> Result<u32, Memory>
    requires room { HasRoomFor (task_entries context.now task) (tables draft.old) }
    requires few { length scope.now < 2 ^ 24 }
    ensures made { IfOk result
        (λ at. HasTemplate (tables draft.new) at (task_template context.now scope.now task)) }
    ensures grows { OnOk result (Grows (tables draft.old) (tables draft.new)) }
    ensures room { OnOk result
        (Adds (task_entries context.now task) (tables draft.old) (tables draft.new)) }
    ensures same { OnOk result ((tables draft.new).goals ≡ (tables draft.old).goals) }
    ensures low { OnOk result (KeepsLowIn context.now draft.old draft.new) }
    ensures named { OnOk result (NamesIn context.now draft.old draft.new) }
{
    let mut places = Vec::new(context.alloc);
    let mut works = Vec::new(context.alloc);
    works.push(Work::Term(task))?;
    while let Some(work) = works.pop() {
        build_work(context, scope, work, draft, &mut places, &mut works)?;
    }
    let Some(place) = places.pop() else {
        unreachable!()
    };
    Ok(place)
}

// Builds the templates of the terms in a list, and gives their places.
fn build_terms(
    context: &Context,
    scope: &[Option<u32>],
    mut place: u32,
    draft: &mut Draft,
) -> Result<Vec<u32>, Memory>
    requires room { HasRoomFor (terms_size (terms_at context.now place)) (tables draft.old) }
    requires few { length scope.now < 2 ^ 24 }
    ensures made { IfOk result
        (λ places. HasTemplates (tables draft.new) places.items
        (term_templates context.now scope.now place)) }
    ensures adds { OnOk result (AddsTerms (tables draft.old) (tables draft.new)) }
    ensures low { OnOk result (KeepsLowIn context.now draft.old draft.new) }
    ensures room { OnOk result
        (Adds (terms_size (terms_at context.now place)) (tables draft.old) (tables draft.new)) }
    ensures named { OnOk result (NamesIn context.now draft.old draft.new) }
{
    let mut places = Vec::new(context.alloc);
    while let Some((first, rest)) = pair_parts(context.flat, place) {
        let term = build_term(context, scope, Task::Term(first), draft)?;
        places.push(term)?;
        place = rest;
    }
    Ok(places)
}

// Puts templates, by their places, behind the arguments that are there.
fn put_behind(terms: &[u32], draft: &mut Draft) -> Result<(), Memory>
    requires room { HasRoomFor (length terms.now) (tables draft.old) }
    requires below { are_below (length (tables draft.old).terms) terms.now ≡ true }
    ensures put { OnOk result (tables draft.new ≡ with_arguments (tables draft.old) terms.now) }
    ensures adds { OnOk result (AddsTerms (tables draft.old) (tables draft.new)) }
    ensures terms { OnOk result ((tables draft.new).terms ≡ (tables draft.old).terms) }
    ensures room { OnOk result (Adds (length terms.now) (tables draft.old) (tables draft.new)) }
    ensures named { OnOk result ((names : Table) →
        Lacks names 0 (tables draft.old) (tables draft.new)) }
{
    for term in terms {
        add_argument(draft, *term)?;
    }
    Ok(())
}

// The same, and gives the place of the first of them.
fn put_arguments(terms: &[u32], draft: &mut Draft) -> Result<u32, Memory>
    requires room { HasRoomFor (length terms.now) (tables draft.old) }
    requires below { are_below (length (tables draft.old).terms) terms.now ≡ true }
    ensures put { IfOk result
        (λ at. HasArguments (tables draft.new) at (length terms.now)
        (map (template_at (templates draft.old)) terms.now)) }
    ensures adds { OnOk result (AddsTerms (tables draft.old) (tables draft.new)) }
    ensures terms { OnOk result ((tables draft.new).terms ≡ (tables draft.old).terms) }
    ensures room { OnOk result (Adds (length terms.now) (tables draft.old) (tables draft.new)) }
    ensures named { OnOk result ((names : Table) →
        Lacks names 0 (tables draft.old) (tables draft.new)) }
{
    let Some((first, rest)) = terms.split_first() else {
        return Ok(0);
    };
    let at = add_argument(draft, *first)?;
    put_behind(rest, draft)?;
    Ok(at)
}

/// Builds the templates of the terms in a list and puts them into the table of arguments, one
/// behind the other: gives the place of the first one, and how many there are.
pub(crate) fn build_arguments(
    context: &Context,
    scope: &[Option<u32>],
    place: u32,
    draft: &mut Draft,
) -> Result<(u32, u32), Memory>
    requires room { HasRoomFor (arguments_size (terms_at context.now place)) (tables draft.old) }
    requires few { length scope.now < 2 ^ 24 }
    ensures made { IfOk result
        (λ made. HasArguments (tables draft.new) made.0 made.1
        (term_templates context.now scope.now place)) }
    ensures grows { OnOk result (Grows (tables draft.old) (tables draft.new)) }
    ensures room { OnOk result
        (Adds (arguments_size (terms_at context.now place)) (tables draft.old) (tables draft.new)) }
    ensures same { OnOk result ((tables draft.new).goals ≡ (tables draft.old).goals) }
    ensures low { OnOk result (KeepsLowIn context.now draft.old draft.new) }
    ensures named { OnOk result (NamesIn context.now draft.old draft.new) }
{
    let terms = build_terms(context, scope, place, draft)?;
    let at = put_arguments(&terms, draft)?;
    Ok((at, terms.len() as u32))
}

/// Builds the list of as many slots as there are names, from slot 1 on, and gives its place.
pub(crate) fn build_slots(bound: &[u32], draft: &mut Draft) -> Result<u32, Memory>
    requires room { HasRoomFor (1 + length bound.now + length bound.now) (tables draft.old) }
    ensures made { IfOk result (λ at. HasTemplate (tables draft.new) at (slot_list 1 bound.now)) }
    ensures grows { OnOk result (Grows (tables draft.old) (tables draft.new)) }
    ensures room { OnOk result
        (Adds (1 + length bound.now + length bound.now) (tables draft.old) (tables draft.new)) }
    ensures same { OnOk result ((tables draft.new).goals ≡ (tables draft.old).goals) }
    ensures low { OnOk result
        (length bound.now ≤ 2048 → list_all is_low (templates draft.old)
        ≡ true → list_all is_low (templates draft.new) ≡ true) }
    ensures named { OnOk result ((names : Table) →
        Lacks names 0 (tables draft.old) (tables draft.new)) }
{
    let mut slot = bound.len() as u32;
    let mut list = add_term(draft, TermNode::Nil)?;
    while slot > 0 {
        let first = add_term(draft, TermNode::Slot(slot))?;
        list = add_term(draft, TermNode::Pair(first, list))?;
        slot -= 1;
    }
    Ok(list)
}
