//! Goals as they are written, parsed one step at a time.

ghost use Rattle.std.specs.Prelude.{◌≡◌, ◌<◌, ◌≤◌, List, true};
ghost use Rattle.kan_terms.specs.Table.{Table};
ghost use Rattle.kan_grammar.specs.Texts.Sited.{Sited, name, pair, count};
ghost use Rattle.kan_grammar.specs.Texts.GoalForms.{goal_form, fresh_form, is_count, parts_of};
ghost use Rattle.kan_grammar.specs.Texts.GoalForms.{atom_goal};
ghost use Rattle.kan_grammar.specs.Texts.Language.{word};
ghost use Rattle.goal_forms.specs.Words.{word_of};
ghost use Rattle.goal_forms.specs.Parts.{sites, site_at};
ghost use Rattle.goal_forms.specs.Steps.TermSteps.{site_size};
ghost use Rattle.goal_forms.specs.Steps.GoalSteps.{step_goal, step_goal_size};

use crate::flat_data::{FlatData, Part};
use crate::shape::{count, first, pair_parts, rest};
use crate::word::{Word, word_of_symbol};
use kan_terms::Names;

/// What a goal is, with the places of its parts.
#[derive(Clone, Copy, Debug, PartialEq, Eq)]
pub enum Goal {
    Succeed,
    Fail,
    Same(u32, u32),
    Differ(u32, u32),
    Symbol(u32),
    Number(u32),
    Text(u32),
    /// A tag and a term.
    Absent(u32, u32),
    /// A binder, and the list of the goals in which it binds.
    Fresh(u32, u32),
    /// A list of goals that hold together.
    AllOf(u32),
    /// A list of goals of which one holds.
    OneOf(u32),
    /// A list of clauses.
    Clauses(u32),
    /// The offset and the symbol of a head, and the list of the arguments.
    Call(u32, u32, u32),
    /// A bad shape at an offset.
    Misshapen(u32),
}

// Whether so many parts, where they are a proper list, may follow a head.
fn fits(word: Word, parts: Option<u32>) -> bool
    ensures { result ≡ is_count (parts_of (word_of word)) parts }
{
    let Some(parts) = parts else {
        return false;
    };
    match word {
        Word::Same | Word::Differ | Word::Absento | Word::ConjTwo | Word::DisjTwo => parts == 2,
        Word::Symbolo | Word::Numbero | Word::Stringo => parts == 1,
        Word::Fresh => parts >= 1,
        Word::Conde | Word::Conj | Word::Disj | Word::Other => true,
        _ => false,
    }
}

// The goal that a symbol is.
fn parse_atom(at: u32, word: Word) -> Goal
    ensures form { (ds : List Sited) → (names : Table) → step_goal ds names result
        ≡ atom_goal (word_of word) at }
    ensures size { (ds : List Sited) → step_goal_size ds result ≡ 0 }
{
    match word {
        Word::Succeed => Goal::Succeed,
        Word::Fail => Goal::Fail,
        _ => Goal::Misshapen(at),
    }
}

// The goal of a fresh with these parts.
fn parse_fresh(flat: &FlatData, names: &Names, at: u32, parts: u32) -> Goal
    ensures form { step_goal (sites flat.now) names.now result
        ≡ fresh_form names.now at (site_at (sites flat.now) parts) }
    ensures size { step_goal_size (sites flat.now) result
        ≤ site_size (site_at (sites flat.now) parts) }
{
    match pair_parts(flat, parts) {
        Some((binder, goals)) => Goal::Fresh(binder, goals),
        None => Goal::Misshapen(at),
    }
}

// The goal that a head, which is this name of the language, makes of its parts.
fn parse_word(flat: &FlatData, names: &Names, at: u32, head: u32, symbol: u32, parts: u32) -> Goal
    requires { is_count (parts_of (word names.now symbol)) (count (site_at (sites flat.now) parts))
        ≡ true }
    ensures form { step_goal (sites flat.now) names.now result
        ≡ goal_form names.now (pair at (name head symbol) (site_at (sites flat.now) parts)) }
    ensures size { step_goal_size (sites flat.now) result
        ≤ site_size (site_at (sites flat.now) parts) }
{
    match word_of_symbol(names, symbol) {
        Word::Same => Goal::Same(first(flat, parts), first(flat, rest(flat, parts))),
        Word::Differ => Goal::Differ(first(flat, parts), first(flat, rest(flat, parts))),
        Word::Symbolo => Goal::Symbol(first(flat, parts)),
        Word::Numbero => Goal::Number(first(flat, parts)),
        Word::Stringo => Goal::Text(first(flat, parts)),
        Word::Absento => Goal::Absent(first(flat, parts), first(flat, rest(flat, parts))),
        Word::Fresh => parse_fresh(flat, names, at, parts),
        Word::Conde => Goal::Clauses(parts),
        Word::Conj | Word::ConjTwo => Goal::AllOf(parts),
        Word::Disj | Word::DisjTwo => Goal::OneOf(parts),
        Word::Other => Goal::Call(head, symbol, parts),
        _ => Goal::Misshapen(at),
    }
}

// The goal of a list with a symbol for its head.
fn parse_form(flat: &FlatData, names: &Names, at: u32, head: u32, symbol: u32, parts: u32) -> Goal
    ensures form { step_goal (sites flat.now) names.now result
        ≡ goal_form names.now (pair at (name head symbol) (site_at (sites flat.now) parts)) }
    ensures size { step_goal_size (sites flat.now) result
        ≤ site_size (site_at (sites flat.now) parts) }
{
    if fits(word_of_symbol(names, symbol), count(flat, parts)) {
        parse_word(flat, names, at, head, symbol, parts)
    } else {
        Goal::Misshapen(at)
    }
}

/// What the goal at a place is.
pub fn parse_goal(flat: &FlatData, names: &Names, place: u32) -> Goal
    ensures form { step_goal (sites flat.now) names.now result
        ≡ goal_form names.now (site_at (sites flat.now) place) }
    ensures size { step_goal_size (sites flat.now) result
        < site_size (site_at (sites flat.now) place) }
{
    let node = flat.read(place);
    match node.part {
        Part::Name(symbol) => parse_atom(node.at, word_of_symbol(names, symbol)),
        Part::Pair(head, parts) => parse_list(flat, names, node.at, head, parts),
        _ => Goal::Misshapen(node.at),
    }
}

// The goal of a list by its head and its parts.
fn parse_list(flat: &FlatData, names: &Names, at: u32, head: u32, parts: u32) -> Goal
    ensures form { step_goal (sites flat.now) names.now result
        ≡ goal_form names.now
        (pair at (site_at (sites flat.now) head) (site_at (sites flat.now) parts)) }
    ensures size { step_goal_size (sites flat.now) result
        ≤ site_size (site_at (sites flat.now) parts) }
{
    let node = flat.read(head);
    match node.part {
        Part::Name(symbol) => parse_form(flat, names, at, node.at, symbol, parts),
        _ => Goal::Misshapen(at),
    }
}
