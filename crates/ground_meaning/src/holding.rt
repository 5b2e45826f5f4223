//! Whether primitives hold at slot values.

ghost use Rattle.std.specs.Prelude.{◌≡◌, ◌↔◌, IsTrue, IfOk};
ghost use Rattle.std.specs.List.{list_any};
ghost use Rattle.kan_terms.specs.Tree.{ground_eq};
ghost use Rattle.kan_model.specs.Programs.Closed as programs;
ghost use Rattle.kan_model.specs.Programs.Nodes.{goal_entry};
ghost use Rattle.ground_meaning.specs.Holding.{node_holds};
ghost use Rattle.ground_meaning.specs.Values.{value_of, mark_eq, is_tag};
ghost use Rattle.ground_meaning.specs.Values.{begins_symbol, begins_number, begins_string};

use crate::values::marks_of;
use kan_model::{GoalNode, Program};
use kan_terms::{Grounds, Mark, Memory};
use std::alloc::Global;

// Whether two marks are the same.
fn same_mark(left: Mark, right: Mark) -> bool
    ensures { result ≡ mark_eq left right }
{
    match left {
        Mark::Pair => matches!(right, Mark::Pair),
        Mark::Sym(name) => matches!(right, Mark::Sym(other) if other == name),
        Mark::Str(text) => matches!(right, Mark::Str(other) if other == text),
        Mark::Num(number) => matches!(right, Mark::Num(other) if other == number),
        Mark::Truth(truth) => matches!(right, Mark::Truth(other) if other == truth),
        Mark::Nil => matches!(right, Mark::Nil),
    }
}

// Whether two lists of marks are the same.
fn same_marks(mut left: Vec<Mark>, mut right: Vec<Mark>) -> bool
    ensures { IsTrue result ↔ (left.items ≡ right.items) }
{
    while let Some(mark) = left.pop() {
        let Some(other) = right.pop() else {
            return false;
        };
        if !same_mark(mark, other) {
            return false;
        }
    }
    right.is_empty()
}

// Whether two templates have the same value.
fn same_values(
    alloc: Global,
    program: &Program,
    values: &Grounds,
    left: u32,
    right: u32,
) -> Result<bool, Memory>
    ensures { IfOk result (λ same. same ≡ ground_eq (value_of program.now values.now left)
        (value_of program.now values.now right)) }
{
    let left = marks_of(alloc, program, values, left)?;
    let right = marks_of(alloc, program, values, right)?;
    Ok(same_marks(left, right))
}

// Whether marks begin with that of a symbol.
fn is_symbol(marks: &[Mark]) -> bool
    ensures { result ≡ begins_symbol marks.now }
{
    matches!(marks.first(), Some(Mark::Sym(_)))
}

// Whether marks begin with that of a number.
fn is_number(marks: &[Mark]) -> bool
    ensures { result ≡ begins_number marks.now }
{
    matches!(marks.first(), Some(Mark::Num(_)))
}

// Whether marks begin with that of a string.
fn is_string(marks: &[Mark]) -> bool
    ensures { result ≡ begins_string marks.now }
{
    matches!(marks.first(), Some(Mark::Str(_)))
}

// Whether a mark is that of a symbol.
fn is_name(mark: Mark, name: u32) -> bool
    ensures { result ≡ is_tag name mark }
{
    match mark {
        Mark::Sym(found) => name == found,
        _ => false,
    }
}

// Whether a symbol is among marks.
fn has_name(marks: &[Mark], name: u32) -> bool
    ensures { result ≡ list_any (is_tag name) marks.now }
{
    marks.iter().any(|mark| is_name(*mark, name))
}

// Whether the goal is a primitive that holds at these slot values, or the one that always holds.
pub(crate) fn holds(
    alloc: Global,
    program: &Program,
    values: &Grounds,
    node: GoalNode,
) -> Result<bool, Memory>
    ensures { IfOk result (λ held. held
        ≡ node_holds (programs.templates program.now) values.now (goal_entry node)) }
{
    match node {
        GoalNode::Succeed => Ok(true),
        GoalNode::Same(left, right) => same_values(alloc, program, values, left, right),
        GoalNode::Differ(left, right) => {
            let same = same_values(alloc, program, values, left, right)?;
            Ok(!same)
        }
        GoalNode::Symbol(term) => {
            let marks = marks_of(alloc, program, values, term)?;
            Ok(is_symbol(&marks))
        }
        GoalNode::Number(term) => {
            let marks = marks_of(alloc, program, values, term)?;
            Ok(is_number(&marks))
        }
        GoalNode::Text(term) => {
            let marks = marks_of(alloc, program, values, term)?;
            Ok(is_string(&marks))
        }
        GoalNode::Absent(tag, term) => {
            let marks = marks_of(alloc, program, values, term)?;
            Ok(!has_name(&marks, tag))
        }
        _ => Ok(false),
    }
}
