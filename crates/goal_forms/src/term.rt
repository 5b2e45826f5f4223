//! Terms as they are written, parsed one step at a time.

ghost use Rattle.std.specs.Prelude.{◌≡◌, ◌<◌, ◌≤◌};
ghost use Rattle.kan_grammar.specs.Texts.TermForms.{term_form, template_form, list_form};
ghost use Rattle.kan_grammar.specs.Texts.TermForms.{quote_form, cons_form, quasiquote_form};
ghost use Rattle.kan_grammar.specs.Texts.TermForms.{unquote_form};
ghost use Rattle.kan_grammar.specs.Texts.Sited.{constant};
ghost use Rattle.goal_forms.specs.Parts.{sites, site_at};
ghost use Rattle.goal_forms.specs.Steps.TermSteps.{proper_list_form, site_size, step_size};
ghost use Rattle.goal_forms.specs.Steps.TermSteps.{step_form};
ghost use Rattle.goal_forms.specs.Steps.TermSteps.{task_form};
ghost use Rattle.goal_forms.specs.Steps.TermSteps.{task_size};

use crate::flat_data::{FlatData, Part};
use crate::shape::{head_word, is_proper, only_part, pair_parts, two_parts};
use crate::word::Word;
use kan_terms::Names;

/// What the part at a place is to be read as.
#[derive(Clone, Copy, Debug, PartialEq, Eq)]
pub enum Task {
    /// A term.
    Term(u32),
    /// The terms of a list, from a pair of it on.
    Terms(u32),
    /// A template.
    Template(u32),
    /// A constant.
    Constant(u32),
}

/// What a term begins with.
#[derive(Clone, Copy, Debug, PartialEq, Eq)]
pub enum Step {
    /// The use of a variable: the offset, and its symbol.
    Variable(u32, u32),
    /// A bad shape at an offset.
    Misshapen(u32),
    Symbol(u32),
    Text(u32),
    Number(i128),
    Truth(bool),
    Nil,
    /// A pair of what the two tasks give.
    Pair(Task, Task),
    /// What the task gives.
    Same(Task),
}

/// What a task's term begins with.
pub fn parse_task(flat: &FlatData, names: &Names, task: Task) -> Step
    ensures form { step_form (sites flat.now) names.now result
        ≡ task_form (sites flat.now) names.now task }
    ensures smaller { step_size (sites flat.now) result < task_size (sites flat.now) task }
{
    match task {
        Task::Term(place) => parse_term(flat, names, place),
        Task::Terms(place) => parse_terms(flat, names, place),
        Task::Template(place) => parse_template(flat, names, place),
        Task::Constant(place) => parse_constant(flat, names, place),
    }
}

// What a term begins with.
fn parse_term(flat: &FlatData, names: &Names, place: u32) -> Step
    ensures form { step_form (sites flat.now) names.now result
        ≡ term_form names.now (site_at (sites flat.now) place) }
    ensures smaller { step_size (sites flat.now) result
        < site_size (site_at (sites flat.now) place) }
{
    let node = flat.read(place);
    match node.part {
        Part::Name(symbol) => Step::Variable(node.at, symbol),
        Part::Text(text) => Step::Text(text),
        Part::Number(number) => Step::Number(number),
        Part::Truth(truth) => Step::Truth(truth),
        Part::Nil => Step::Nil,
        Part::Pair(head, parts) => {
            match head_word(flat, names, head) {
                Word::Quote => parse_quoted(flat, names, node.at, parts),
                Word::Quasiquote => parse_quasiquoted(flat, names, node.at, parts),
                Word::Cons => parse_cons(flat, names, node.at, parts),
                Word::List => parse_list(flat, names, node.at, parts),
                _ => Step::Misshapen(node.at),
            }
        }
    }
}

// What is quoted begins with this, where these are the parts behind quote.
fn parse_quoted(flat: &FlatData, names: &Names, at: u32, parts: u32) -> Step
    ensures form { step_form (sites flat.now) names.now result
        ≡ quote_form at (site_at (sites flat.now) parts) }
    ensures fits { step_size (sites flat.now) result ≤ site_size (site_at (sites flat.now) parts) }
{
    match only_part(flat, parts) {
        Some(part) => Step::Same(Task::Constant(part)),
        None => Step::Misshapen(at),
    }
}

// The same of a template.
fn parse_quasiquoted(flat: &FlatData, names: &Names, at: u32, parts: u32) -> Step
    ensures form { step_form (sites flat.now) names.now result
        ≡ quasiquote_form names.now at (site_at (sites flat.now) parts) }
    ensures fits { step_size (sites flat.now) result ≤ site_size (site_at (sites flat.now) parts) }
{
    match only_part(flat, parts) {
        Some(part) => Step::Same(Task::Template(part)),
        None => Step::Misshapen(at),
    }
}

// The same of a term in a template.
fn parse_unquoted(flat: &FlatData, names: &Names, at: u32, parts: u32) -> Step
    ensures form { step_form (sites flat.now) names.now result
        ≡ unquote_form names.now at (site_at (sites flat.now) parts) }
    ensures fits { step_size (sites flat.now) result ≤ site_size (site_at (sites flat.now) parts) }
{
    match only_part(flat, parts) {
        Some(part) => Step::Same(Task::Term(part)),
        None => Step::Misshapen(at),
    }
}

// The same of a pair of two terms.
fn parse_cons(flat: &FlatData, names: &Names, at: u32, parts: u32) -> Step
    ensures form { step_form (sites flat.now) names.now result
        ≡ cons_form names.now at (site_at (sites flat.now) parts) }
    ensures fits { step_size (sites flat.now) result ≤ site_size (site_at (sites flat.now) parts) }
{
    match two_parts(flat, parts) {
        Some((first, rest)) => Step::Pair(Task::Term(first), Task::Term(rest)),
        None => Step::Misshapen(at),
    }
}

// The same of a list of terms.
fn parse_list(flat: &FlatData, names: &Names, at: u32, parts: u32) -> Step
    ensures form { step_form (sites flat.now) names.now result
        ≡ proper_list_form names.now at (site_at (sites flat.now) parts) }
    ensures fits { step_size (sites flat.now) result ≤ site_size (site_at (sites flat.now) parts) }
{
    if is_proper(flat, parts) {
        Step::Same(Task::Terms(parts))
    } else {
        Step::Misshapen(at)
    }
}

// What the terms of a list begin with, from a pair of it on.
fn parse_terms(flat: &FlatData, names: &Names, place: u32) -> Step
    ensures form { step_form (sites flat.now) names.now result
        ≡ list_form names.now (site_at (sites flat.now) place) }
    ensures smaller { step_size (sites flat.now) result
        < site_size (site_at (sites flat.now) place) }
{
    match pair_parts(flat, place) {
        Some((first, rest)) => Step::Pair(Task::Term(first), Task::Terms(rest)),
        None => Step::Nil,
    }
}

// What a template begins with.
fn parse_template(flat: &FlatData, names: &Names, place: u32) -> Step
    ensures form { step_form (sites flat.now) names.now result
        ≡ template_form names.now (site_at (sites flat.now) place) }
    ensures smaller { step_size (sites flat.now) result
        < site_size (site_at (sites flat.now) place) }
{
    let node = flat.read(place);
    match node.part {
        Part::Name(symbol) => Step::Symbol(symbol),
        Part::Text(text) => Step::Text(text),
        Part::Number(number) => Step::Number(number),
        Part::Truth(truth) => Step::Truth(truth),
        Part::Nil => Step::Nil,
        Part::Pair(first, rest) => match head_word(flat, names, first) {
            Word::Unquote => parse_unquoted(flat, names, node.at, rest),
            Word::Quasiquote => Step::Misshapen(node.at),
            _ => Step::Pair(Task::Template(first), Task::Template(rest)),
        },
    }
}

// What a constant begins with.
fn parse_constant(flat: &FlatData, names: &Names, place: u32) -> Step
    ensures form { step_form (sites flat.now) names.now result
        ≡ constant (site_at (sites flat.now) place) }
    ensures smaller { step_size (sites flat.now) result
        < site_size (site_at (sites flat.now) place) }
{
    match flat.read(place).part {
        Part::Name(symbol) => Step::Symbol(symbol),
        Part::Text(text) => Step::Text(text),
        Part::Number(number) => Step::Number(number),
        Part::Truth(truth) => Step::Truth(truth),
        Part::Nil => Step::Nil,
        Part::Pair(first, rest) => Step::Pair(Task::Constant(first), Task::Constant(rest)),
    }
}
