//! Building top forms: relations and runs.

ghost use Rattle.goal_syntax.specs.Building.InContext.{list_goal, relation_at, relations_parsed};
ghost use Rattle.goal_syntax.specs.Building.InContext.{queries_parsed, names_parsed};
ghost use Rattle.std.specs.Prelude.{◌≡◌, ◌<◌, ◌+◌, ◌∷◌, ◌++◌, [], length, IfOk, OnOk};
ghost use Rattle.kan_grammar.specs.Texts.TopForms.{head_name};
ghost use Rattle.kan_grammar.specs.Texts.Resolved.{within};
ghost use Rattle.kan_model.specs.Programs.Drafts.{tables};
ghost use Rattle.kan_model.specs.Programs.Nodes.{relation_entry};
ghost use Rattle.kan_model.specs.Programs.Tables.{with_relation};
ghost use Rattle.goal_forms.specs.Contexts.{data_of, datum_at, form_of, head_at};
ghost use Rattle.goal_syntax.specs.Building.CallsThere.{all_named, bodies_named};
ghost use Rattle.goal_syntax.specs.Building.FormsBuilt.{name_symbol, query_asked, AddsNames};
ghost use Rattle.goal_syntax.specs.Building.FormsBuilt.{AddsRelations, AddsForms};
ghost use Rattle.goal_syntax.specs.Building.AddingGoals.{AddsGoal};
ghost use Rattle.goal_syntax.specs.Building.Entries.{Adds, HasRoomFor, form_size};
ghost use Rattle.goal_syntax.specs.Building.InContext.{list_entries};
ghost use Rattle.goal_forms.specs.Steps.FormSteps.{limit_at};
ghost use Rattle.goal_forms.specs.Parts.{sites, site_at};
ghost use Rattle.goal_syntax.specs.Building.Widths.{Widens, form_width};
ghost use Rattle.goal_syntax.specs.Building.InContext.{list_width};
ghost use Rattle.goal_syntax.specs.Building.Named.{Lacks, relation_unnamed};
ghost use Rattle.kan_terms.specs.Table.{Table};
ghost use Rattle.goal_syntax.specs.Building.InContext.{KeepsClosedIn, NamesIn};

use crate::build_goal::build_goals;
use crate::build_run::{build_list, build_one};
use crate::compiler::Queries;
use goal_forms::{Context, FlatData, Form, enter, head_name, head_params, limit};
use kan_model::{Draft, Query, Relation};
use kan_terms::Memory;

// Adds a relation.
fn add_relation(draft: &mut Draft, relation: Relation) -> Result<(), Memory>
    requires there { relation.body < length (tables draft.old).goals }
    requires room { HasRoomFor 1 (tables draft.old) }
    ensures added { OnOk result
        (tables draft.new ≡ with_relation (tables draft.old) (relation_entry relation)) }
    ensures room { OnOk result (Adds 1 (tables draft.old) (tables draft.new)) }
    ensures narrow { OnOk result (Widens 0 (tables draft.old) (tables draft.new)) }
    ensures named { OnOk result ((names : Table) →
        Lacks names (relation_unnamed names (relation_entry relation)) (tables draft.old)
        (tables draft.new)) }
{
    draft.relation(relation)?;
    Ok(())
}

// The symbol of a relation's name; one that is none stands for the first symbol.
fn relation_name(flat: &FlatData, head: u32) -> u32
    ensures { result ≡ name_symbol (head_name (site_at (sites flat.now) head)) }
{
    match head_name(flat, head) {
        Some((_, symbol)) => symbol,
        None => 0,
    }
}

// Builds the body of a relation with these parameters.
fn build_body(
    context: &Context,
    params: &[u32],
    goals: u32,
    draft: &mut Draft,
) -> Result<u32, Memory>
    requires room { HasRoomFor
        (length params.now + list_entries context.now goals) (tables draft.old) }
    ensures { IfOk result (AddsGoal context.now
        (list_goal context.now (within [] params.now) goals)
        (length params.now + list_entries context.now goals) (list_width context.now goals)
        draft.old draft.new) }
{
    let mut scope = Vec::new(context.alloc);
    enter(params, &mut scope)?;
    let body = build_goals(context, goals, scope, draft)?;
    Ok(body)
}

/// Builds the relation with this head and these goals.
pub(crate) fn build_relation(
    context: &Context,
    head: u32,
    goals: u32,
    draft: &mut Draft,
) -> Result<(), Memory>
    requires room { HasRoomFor
        (1 + length (head_at context.now head).value + list_entries context.now goals)
        (tables draft.old) }
    ensures means { OnOk result (AddsRelations (tables draft.old) (tables draft.new)
        (relation_at context.now head goals ∷ [])) }
    ensures names { OnOk result
        (AddsNames (tables draft.old) (tables draft.new)
        (name_symbol (head_name (datum_at context.now head)) ∷ [])) }
    ensures room { OnOk result
        (Adds (1 + length (head_at context.now head).value + list_entries context.now goals)
        (tables draft.old) (tables draft.new)) }
    ensures closed { OnOk result (KeepsClosedIn context.now draft.old draft.new
        (bodies_named (relation_at context.now head goals ∷ []))) }
    ensures narrow { OnOk result
        (Widens (list_width context.now goals) (tables draft.old) (tables draft.new)) }
    ensures named { OnOk result (NamesIn context.now draft.old draft.new) }
{
    let bound = head_params(context.alloc, context.flat, head)?;
    let params = bound.len() as u32;
    let body = build_body(context, &bound, goals, draft)?;
    let name = relation_name(context.flat, head);
    add_relation(draft, Relation { name, params, body })?;
    Ok(())
}

// The limit of a run, where it has one.
fn limit_of(flat: &FlatData, place: Option<u32>) -> Option<u64>
    ensures { result ≡ (limit_at (sites flat.now) place).value }
{
    limit(flat, place?)?
}

// Adds a run that asks for a goal.
fn ask(
    context: &Context,
    goal: u32,
    limit: Option<u32>,
    queries: &mut Queries,
) -> Result<(), Memory>
    ensures { OnOk result
        (queries.new ≡ queries.old ++ query_asked goal (limit_at (data_of context.now) limit).value
        ∷ []) }
{
    let limit = limit_of(context.flat, limit);
    match queries.push(Query { goal, limit }) {
        Ok(()) => Ok(()),
        Err(_) => Err(Memory),
    }
}

/// Builds the relation or the run of a top form.
pub(crate) fn build_form(
    context: &Context,
    form: Form,
    draft: &mut Draft,
    queries: &mut Queries,
) -> Result<(), Memory>
    requires room { HasRoomFor (form_size (form_of context.now form)) (tables draft.old) }
    ensures means { OnOk result
        (AddsForms (tables draft.old) (tables draft.new) queries.old queries.new
        (relations_parsed context.now form)
        (queries_parsed context.now form)) }
    ensures names { OnOk result
        (AddsNames (tables draft.old) (tables draft.new) (names_parsed context.now form)) }
    ensures room { OnOk result
        (Adds (form_size (form_of context.now form)) (tables draft.old) (tables draft.new)) }
    ensures closed { OnOk result (KeepsClosedIn context.now draft.old draft.new
        (all_named (relations_parsed context.now form) (queries_parsed context.now form))) }
    ensures narrow { OnOk result
        (Widens (form_width (form_of context.now form)) (tables draft.old) (tables draft.new)) }
    ensures named { OnOk result (NamesIn context.now draft.old draft.new) }
{
    match form {
        Form::Relation(head, goals) => build_relation(context, head, goals, draft)?,
        Form::RunOfOne(limit, _, symbol, goals) => {
            let goal = build_one(context, symbol, goals, draft)?;
            ask(context, goal, limit, queries)?;
        }
        Form::RunOfList(limit, binder, goals) => {
            let goal = build_list(context, binder, goals, draft)?;
            ask(context, goal, limit, queries)?;
        }
        Form::Misshapen(_) | Form::Unknown(_) => {}
    }
    Ok(())
}
