//! Goals of programs, spelled word by word: a goal, and then its parts.

use kan_model::{GoalNode, Program, TermNode};
use kan_terms::Names;
use std::alloc::Global;
use std::test::Fail;

// How many parts a goal has at most.
const MOST_PARTS: u32 = 1_000_000;

// What is still to be spelled.
#[derive(Clone, Copy)]
enum Part {
    Goal(u32),
    Term(u32),
}

// Spells a template as far as its parts, which wait.
fn spell_term(
    program: &Program,
    names: &Names,
    at: u32,
    parts: &mut Vec<Part>,
    text: &mut String,
) -> Result<(), Fail> {
    match *program.term(at).ok_or("no term")? {
        TermNode::Slot(slot) => write!(text, " _{slot}")?,
        TermNode::Sym(number) => {
            let name = names.name(number).ok_or("no name")?;
            write!(text, " '{name}")?;
        }
        TermNode::Str(number) => {
            let string = names.string(number).ok_or("no string")?;
            write!(text, " \"{string}\"")?;
        }
        TermNode::Num(number) => write!(text, " {number}")?,
        TermNode::Truth(true) => text.push_str(" #t")?,
        TermNode::Truth(false) => text.push_str(" #f")?,
        TermNode::Nil => text.push_str(" ()")?,
        TermNode::Pair(first, rest) => {
            text.push_str(" pair")?;
            parts.push(Part::Term(rest))?;
            parts.push(Part::Term(first))?;
        }
    }
    Ok(())
}

// Lets the arguments of a call wait, the first one on top.
fn wait_for_arguments(
    program: &Program,
    at: u32,
    count: u32,
    parts: &mut Vec<Part>,
) -> Result<(), Fail> {
    for offset in 0..count {
        let place = at.checked_add(count - 1 - offset).ok_or("no place")?;
        parts.push(Part::Term(program.argument(place).ok_or("no argument")?))?;
    }
    Ok(())
}

// Lets two goals wait, the first one on top.
fn wait_for_goals(left: u32, right: u32, parts: &mut Vec<Part>) -> Result<(), Fail> {
    parts.push(Part::Goal(right))?;
    parts.push(Part::Goal(left))?;
    Ok(())
}

// Spells a goal as far as its parts, which wait.
fn spell_node(
    program: &Program,
    node: GoalNode,
    parts: &mut Vec<Part>,
    text: &mut String,
) -> Result<(), Fail> {
    match node {
        GoalNode::Succeed => text.push_str(" succeed")?,
        GoalNode::Fail => text.push_str(" fail")?,
        GoalNode::Same(left, right) => {
            text.push_str(" ==")?;
            parts.push(Part::Term(right))?;
            parts.push(Part::Term(left))?;
        }
        GoalNode::Both(left, right) => {
            text.push_str(" both")?;
            wait_for_goals(left, right, parts)?;
        }
        GoalNode::Either(left, right) => {
            text.push_str(" either")?;
            wait_for_goals(left, right, parts)?;
        }
        GoalNode::Fresh(count, body) => {
            write!(text, " fresh {count}")?;
            parts.push(Part::Goal(body))?;
        }
        GoalNode::Later(body) => {
            text.push_str(" later")?;
            parts.push(Part::Goal(body))?;
        }
        GoalNode::Call(relation, at, count) => {
            write!(text, " call {relation} {count}")?;
            wait_for_arguments(program, at, count, parts)?;
        }
        _ => return Err(Fail::from("another constraint")),
    }
    Ok(())
}

/// The words of a goal, with a space before each.
pub(crate) fn spell_goal(
    alloc: Global,
    program: &Program,
    names: &Names,
    goal: u32,
) -> Result<String, Fail> {
    let mut text = String::new(alloc);
    let mut parts = Vec::new(alloc);
    parts.push(Part::Goal(goal))?;
    for _ in 0..MOST_PARTS {
        let Some(part) = parts.pop() else {
            return Ok(text);
        };
        match part {
            Part::Goal(at) => {
                let node = *program.goal(at).ok_or("no goal")?;
                spell_node(program, node, &mut parts, &mut text)?;
            }
            Part::Term(at) => spell_term(program, names, at, &mut parts, &mut text)?,
        }
    }
    Err(Fail::from("too many parts"))
}
