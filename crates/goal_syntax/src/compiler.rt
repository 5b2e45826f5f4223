//! Compiling texts: their program and their runs.

ghost use Rattle.goal_syntax.specs.Building.InContext.{form_relations, form_names, forms_relations};
ghost use Rattle.goal_syntax.specs.Building.InContext.{forms_queries, forms_names};
ghost use Rattle.goal_syntax.specs.Building.FormsBuilt.{relation_names, entry_names, AddsNames};
ghost use Rattle.goal_syntax.specs.Building.FormsBuilt.{AddsRelations, AddsForms};
ghost use Rattle.std.specs.Prelude.{[], ◌≡◌, ◌+◌, ◌*◌, ◌<◌, ◌≤◌, ◌^◌, ◌++◌, length, map};
ghost use Rattle.std.specs.Prelude.{true, IfOk};
ghost use Rattle.std.specs.Prelude.{OnOk};
ghost use Rattle.kan_grammar.specs.Texts.TextNames.{with_prefixes};
ghost use Rattle.kan_model.specs.Programs.Drafts.{tables};
ghost use Rattle.kan_model.specs.Programs.Nodes.{goal_place};
ghost use Rattle.kan_grammar.specs.Texts.ProgramText.{text_meaning};
ghost use Rattle.kan_model.specs.Programs.Closed as programs;
ghost use Rattle.kan_model.specs.Programs.Scope.{is_small};
ghost use Rattle.kan_grammar.specs.Texts.Sited.{with_sites};
ghost use Rattle.sexpr.specs.WrittenForms.{written_form};
ghost use Rattle.kan_model.specs.Programs.Tables.{are_closed};
ghost use Rattle.kan_grammar.specs.Texts.TopForms.{definitions};
ghost use Rattle.goal_forms.specs.Contexts.{data_of, data_at, datum_at, defined_in};
ghost use Rattle.goal_forms.specs.Heights.{AreLow};
ghost use Rattle.kan_grammar.specs.Texts.TextFaults.{faults_of, IsAccepted};
ghost use Rattle.goal_syntax.specs.Building.CallsThere.{all_named, bodies_named};
ghost use Rattle.goal_syntax.specs.Compiling.CompiledForms.{CompilesForms, IsMeant};
ghost use Rattle.goal_syntax.specs.Compiling.Compiles.{AreOfText, Compiles, IsAcceptedAlone};
ghost use Rattle.goal_syntax.specs.Compiling.Compiles.{TableAfter};
ghost use Rattle.goal_syntax.specs.Building.Entries.{Adds, HasRoomFor, form_size, forms_size};
ghost use Rattle.goal_syntax.specs.Building.InContext.{forms_entries};
ghost use Rattle.goal_forms.specs.Sizes.{parts_in};
ghost use Rattle.kan_grammar.specs.Texts.TopForms.{form};
ghost use Rattle.goal_syntax.specs.Compiling.SymbolNames.{are_named};
ghost use Rattle.goal_forms.specs.Parts.{sites, site_at};
ghost use Rattle.goal_forms.specs.RelationTables.{relations};
ghost use Rattle.goal_forms.specs.Flattening.{AreNumbered, meaning};
ghost use Rattle.goal_syntax.specs.Building.Widths.{Widens, form_width, forms_width, widest_in};
ghost use Rattle.goal_syntax.specs.Building.InContext.{widest_form};
ghost use Rattle.goal_syntax.specs.Building.Named.{data_unnamed};
ghost use Rattle.goal_syntax.specs.Building.InContext.{KeepsClosedIn, NamesIn};
ghost use Rattle.goal_forms.specs.Unnamed.{AreNamed};

use crate::build_form::{build_form, build_relation};
use crate::judge_text::first_of_forms;
use crate::refusal::SyntaxError;
use goal_forms::{
    Context, FlatData, Form, Prefixes, define, number_prefixes, parse_form, turn_both,
};
use kan_grammar::Dialect;
use kan_model::{Draft, Program, Query};
use kan_terms::{ListOf, Memory, Names};
use sexpr::Datum;
use std::alloc::Global;

/// Queries in their order.
pub type Queries = ListOf<Query>;

/// A program and its runs, in the order of the text.
#[derive(Drop)]
pub struct Compiled {
    /// The relations of the text, and the goals of its runs.
    pub program: Program,
    /// The runs, whose goals the program was closed with.
    pub queries: Queries,
}

// Builds the relation of a top form of a library, which has no runs.
fn build_library_form(context: &Context, place: u32, draft: &mut Draft) -> Result<(), Memory>
    requires room { HasRoomFor
        (form_size (form context.now.names.now (datum_at context.now place))) (tables draft.old) }
    ensures means { OnOk result (AddsRelations (tables draft.old) (tables draft.new)
        (form_relations context.now place)) }
    ensures names { OnOk result
        (AddsNames (tables draft.old) (tables draft.new) (form_names context.now place)) }
    ensures room { OnOk result
        (Adds (form_size (form context.now.names.now (datum_at context.now place)))
        (tables draft.old) (tables draft.new)) }
    ensures closed { OnOk result (KeepsClosedIn context.now draft.old draft.new
        (bodies_named (form_relations context.now place))) }
    ensures narrow { OnOk result (Widens
        (form_width (form context.now.names.now (datum_at context.now place)))
        (tables draft.old) (tables draft.new)) }
    ensures named { OnOk result (NamesIn context.now draft.old draft.new) }
{
    if let Form::Relation(head, goals) = parse_form(context.flat, context.names, place) {
        build_relation(context, head, goals, draft)?;
    }
    Ok(())
}

// Builds the relations of a library.
fn build_library(context: &Context, forms: &[u32], draft: &mut Draft) -> Result<(), Memory>
    requires room { HasRoomFor (forms_entries context.now forms.now) (tables draft.old) }
    ensures means { OnOk result (AddsRelations (tables draft.old) (tables draft.new)
        (forms_relations context.now forms.now)) }
    ensures names { OnOk result
        (AddsNames (tables draft.old) (tables draft.new) (forms_names context.now forms.now)) }
    ensures room { OnOk result
        (Adds (forms_entries context.now forms.now) (tables draft.old) (tables draft.new)) }
    ensures closed { OnOk result (KeepsClosedIn context.now draft.old draft.new
        (bodies_named (forms_relations context.now forms.now))) }
    ensures narrow { OnOk result
        (Widens (widest_form context.now forms.now) (tables draft.old) (tables draft.new)) }
    ensures named { OnOk result (NamesIn context.now draft.old draft.new) }
{
    for place in forms {
        build_library_form(context, *place, draft)?;
    }
    Ok(())
}

// Builds the relations and the runs of a text.
fn build_text(
    context: &Context,
    forms: &[u32],
    draft: &mut Draft,
    queries: &mut Queries,
) -> Result<(), Memory>
    requires room { HasRoomFor (forms_entries context.now forms.now) (tables draft.old) }
    ensures means { OnOk result
        (AddsForms (tables draft.old) (tables draft.new) queries.old queries.new
        (forms_relations context.now forms.now)
        (forms_queries context.now forms.now)) }
    ensures names { OnOk result
        (AddsNames (tables draft.old) (tables draft.new) (forms_names context.now forms.now)) }
    ensures room { OnOk result
        (Adds (forms_entries context.now forms.now) (tables draft.old) (tables draft.new)) }
    ensures closed { OnOk result (KeepsClosedIn context.now draft.old draft.new
        (all_named (forms_relations context.now forms.now) (forms_queries context.now forms.now))) }
    ensures narrow { OnOk result
        (Widens (widest_form context.now forms.now) (tables draft.old) (tables draft.new)) }
    ensures named { OnOk result (NamesIn context.now draft.old draft.new) }
{
    for place in forms {
        build_form(
            context,
            parse_form(context.flat, context.names, *place),
            draft,
            queries,
        )?;
    }
    Ok(())
}

// Closes a draft with the goals of runs, in which nothing is open.
fn close(draft: Draft, queries: Queries) -> Compiled
    requires narrow { widest_in (tables draft) < 2 ^ 21 }
    requires closed { are_closed (tables draft) (map goal_place queries) ≡ true }
    ensures tables { programs.tables result.program ≡ tables draft }
    ensures queries { result.queries ≡ queries }
    ensures closed { are_closed (tables draft) (map goal_place queries) ≡ true }
    ensures small { is_small (programs.meaning result.program) ≡ true }
{
    let Ok(program) = draft.close(queries.items()) else {
        unreachable!()
    };
    Compiled { program, queries }
}

// Builds the program and the runs of a text behind a library.
fn build_program(context: &Context, library: &[u32], forms: &[u32]) -> Result<Compiled, Memory>
    requires low { AreLow (data_of context.now) }
    requires alone { faults_of context.now.names.now [] (data_at context.now library.now) ≡ [] }
    requires accepted { faults_of context.now.names.now (data_at context.now library.now)
        (data_at context.now forms.now) ≡ [] }
    requires relations { defined_in context.now
        ≡ definitions context.now.names.now (data_at context.now library.now)
        ++ definitions context.now.names.now (data_at context.now forms.now) }
    requires room { forms_entries context.now library.now
        + forms_entries context.now forms.now < 2 ^ 24 }
    requires narrow_library { widest_form context.now library.now < 2 ^ 21 }
    requires narrow_text { widest_form context.now forms.now < 2 ^ 21 }
    requires named { data_unnamed context.now.names.now (data_of context.now) ≡ 0 }
    ensures meant { IfOk result
        (λ made. IsMeant (text_meaning context.now.dialect context.now.names.now
        (data_at context.now library.now)
        (data_at context.now forms.now)) made.program made.queries) }
    ensures named { IfOk result
        (λ made. are_named context.now.names.now (programs.tables made.program) ≡ true) }
    ensures names { IfOk result (λ made. entry_names (programs.tables made.program)
        ≡ relation_names context.now.names.now
        (data_at context.now library.now ++ data_at context.now forms.now)) }
{
    let mut draft = Draft::new(context.alloc);
    let mut queries = ListOf::new(context.alloc);
    build_library(context, library, &mut draft)?;
    build_text(context, forms, &mut draft, &mut queries)?;
    let compiled = close(draft, queries);
    Ok(compiled)
}

// Compiles the top forms of a text behind those of a library.
fn compile_forms(
    alloc: Global,
    flat: &FlatData,
    names: &Names,
    library: &[u32],
    forms: &[u32],
    dialect: Dialect,
) -> Result<Compiled, SyntaxError>
    requires few { length library.now + length forms.now < 2 ^ 32 }
    requires room { forms_size names.now (map (site_at (sites flat.now)) library.now)
        + forms_size names.now (map (site_at (sites flat.now)) forms.now) < 2 ^ 24 }
    requires low { AreLow (sites flat.now) }
    requires alone { faults_of names.now [] (map (site_at (sites flat.now)) library.now) ≡ [] }
    requires narrow_library { forms_width names.now (map (site_at (sites flat.now)) library.now)
        < 2 ^ 21 }
    requires narrow_text { forms_width names.now (map (site_at (sites flat.now)) forms.now)
        < 2 ^ 21 }
    requires named { data_unnamed names.now (sites flat.now) ≡ 0 }
    ensures { CompilesForms dialect names.now (map (site_at (sites flat.now)) library.now)
        (map (site_at (sites flat.now)) forms.now) result }
{
    let (relations, before) = define(alloc, flat, names, library, forms)?;
    let context = Context {
        alloc,
        flat,
        names,
        relations: &relations,
        dialect,
    };
    if let Some(fault) = first_of_forms(&context, before, forms)? {
        return Err(SyntaxError::Fault(fault.at, fault.refusal));
    }
    let compiled = build_program(&context, library, forms)?;
    Ok(compiled)
}

// Compiles a text behind a library under names that have the prefixes.
fn compile_data(
    alloc: Global,
    library: &[Datum],
    text: &[Datum],
    names: &Names,
    prefixes: &Prefixes,
    dialect: Dialect,
) -> Result<Compiled, SyntaxError>
    requires numbered { AreNumbered names.now prefixes.now }
    requires few { length library.now + length text.now < 2 ^ 32 }
    requires library_parts { parts_in (map (meaning names.now) library.now)
        + 3 * length library.now ≤ 2 ^ 22 }
    requires text_parts { parts_in (map (meaning names.now) text.now) + 3 * length text.now
        ≤ 2 ^ 22 }
    requires low_library { AreLow (map (meaning names.now) library.now) }
    requires low_text { AreLow (map (meaning names.now) text.now) }
    requires alone { IsAccepted names.now [] (map (written_form names.now) library.now) }
    requires prefixed { AreNamed names.now prefixes.now }
    ensures { CompilesForms dialect names.now
        (map (with_sites names.now) (map (written_form names.now) library.now))
        (map (with_sites names.now) (map (written_form names.now) text.now)) result }
{
    let mut table = FlatData::new(alloc);
    let places = turn_both(alloc, library, text, names, prefixes, &mut table)?;
    let (first, later) = places.as_slice().split_at(library.len());
    compile_forms(alloc, &table, names, first, later, dialect)
}

/// Compiles a text behind a library, whose data these are, to its program and its runs. A text with
/// faults is refused by the one at the least offset, and of two at one offset by the one with the
/// smaller number. The data are those of texts, and the library is accepted by itself, so nothing
/// is open in what is built of an accepted text.
pub fn compile(
    alloc: Global,
    library: &[Datum],
    text: &[Datum],
    names: &mut Names,
    dialect: Dialect,
) -> Result<Compiled, SyntaxError>
    requires names { length names.old.symbols + 3 < 2 ^ 32 }
    requires library { AreOfText (with_prefixes names.old) library.now }
    requires text { AreOfText (with_prefixes names.old) text.now }
    requires alone { IsAcceptedAlone (with_prefixes names.old) library.now }
    ensures compiled { Compiles dialect (with_prefixes names.old) library.now text.now result }
    ensures table { TableAfter names.old names.new result }
{
    let prefixes = number_prefixes(names)?;
    compile_data(alloc, library, text, names, &prefixes, dialect)
}
