//! Top forms as they are written.

ghost use Rattle.std.specs.Prelude.{◌≡◌};
ghost use Rattle.kan_grammar.specs.Texts.TopForms.{form, relation_form, run_form, limited_form};
ghost use Rattle.kan_grammar.specs.Texts.TopForms.{definitions_of, definitions_of_head};
ghost use Rattle.kan_grammar.specs.Texts.Sited.{elements};
ghost use Rattle.goal_forms.specs.Steps.FormSteps.{step_top, limit_at, run_with};
ghost use Rattle.goal_forms.specs.Parts.{sites, site_at};
ghost use Rattle.goal_forms.specs.DefinedRelations.{optional_relation};

use crate::flat_data::{FlatData, Part};
use crate::relations::Defined;
use crate::shape::{count, head_word, is_proper, pair_parts};
use crate::word::{Word, word_of_symbol};
use kan_terms::Names;

/// What a top form is, with the places of its parts.
#[derive(Clone, Copy, Debug, PartialEq, Eq)]
pub enum Form {
    /// The head of a relation and its goals.
    Relation(u32, u32),
    /// A run's limit, where it has one, the offset and the symbol of its name, and its goals.
    RunOfOne(Option<u32>, u32, u32, u32),
    /// A run's limit, where it has one, the list of its names, and its goals.
    RunOfList(Option<u32>, u32, u32),
    /// A form of the language with a bad shape, at an offset.
    Misshapen(u32),
    /// No top form, at an offset.
    Unknown(u32),
}

/// What the top form at a place is.
pub fn parse_form(flat: &FlatData, names: &Names, place: u32) -> Form
    ensures { step_top (sites flat.now) names.now result
        ≡ form names.now (site_at (sites flat.now) place) }
{
    let node = flat.read(place);
    match node.part {
        Part::Pair(head, parts) => match head_word(flat, names, head) {
            Word::Defrel => parse_relation(flat, names, node.at, parts),
            Word::Run => parse_limited(flat, names, node.at, parts),
            Word::RunAll => parse_run(flat, names, node.at, None, parts),
            _ => Form::Unknown(node.at),
        },
        _ => Form::Unknown(node.at),
    }
}

// The relation with these parts.
fn parse_relation(flat: &FlatData, names: &Names, at: u32, parts: u32) -> Form
    ensures { step_top (sites flat.now) names.now result
        ≡ relation_form names.now at (site_at (sites flat.now) parts) }
{
    match pair_parts(flat, parts) {
        Some((head, goals)) if is_proper(flat, goals) => Form::Relation(head, goals),
        _ => Form::Misshapen(at),
    }
}

// The run with these parts, of which the first is its limit.
fn parse_limited(flat: &FlatData, names: &Names, at: u32, parts: u32) -> Form
    ensures { step_top (sites flat.now) names.now result
        ≡ limited_form names.now at (site_at (sites flat.now) parts) }
{
    match pair_parts(flat, parts) {
        Some((limit, parts)) => parse_run(flat, names, at, Some(limit), parts),
        None => Form::Misshapen(at),
    }
}

// The run with these parts behind its limit.
fn parse_run(flat: &FlatData, names: &Names, at: u32, limit: Option<u32>, parts: u32) -> Form
    ensures { step_top (sites flat.now) names.now result
        ≡ run_form names.now at (limit_at (sites flat.now) limit) (site_at (sites flat.now) parts) }
{
    match pair_parts(flat, parts) {
        Some((binder, goals)) if is_proper(flat, goals) => parse_binder(
            flat, names, limit, binder, goals,
        ),
        _ => Form::Misshapen(at),
    }
}

// The run with this limit, this binder and these goals.
fn parse_binder(flat: &FlatData, names: &Names, limit: Option<u32>, binder: u32, goals: u32) -> Form
    ensures { step_top (sites flat.now) names.now result
        ≡ run_with names.now (limit_at (sites flat.now) limit) (site_at (sites flat.now) binder)
        (site_at (sites flat.now) goals) }
{
    let node = flat.read(binder);
    match node.part {
        Part::Name(symbol) => Form::RunOfOne(limit, node.at, symbol, goals),
        _ => Form::RunOfList(limit, binder, goals),
    }
}

/// The relation that a top form defines, where it defines one.
pub fn defined_by(flat: &FlatData, names: &Names, place: u32) -> Option<Defined>
    ensures { optional_relation result ≡ definitions_of names.now (site_at (sites flat.now) place) }
{
    let (head, parts) = pair_parts(flat, place)?;
    let (relation, _) = pair_parts(flat, parts)?;
    match head_word(flat, names, head) {
        Word::Defrel => definitions_of_head(flat, names, relation),
        _ => None,
    }
}

// The relation that a head defines, where it defines one.
fn definitions_of_head(flat: &FlatData, names: &Names, head: u32) -> Option<Defined>
    ensures { optional_relation result
        ≡ definitions_of_head names.now (elements (site_at (sites flat.now) head)) }
{
    let (first, rest) = pair_parts(flat, head)?;
    let params = count(flat, rest)?;
    let Part::Name(name) = flat.read(first).part else {
        return None;
    };
    match word_of_symbol(names, name) {
        Word::Other => Some(Defined { name, params }),
        _ => None,
    }
}
