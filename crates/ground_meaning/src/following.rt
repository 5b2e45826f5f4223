//! One step of a derivation, with what is to be shown on a stack.

ghost use Rattle.std.specs.Prelude.{◌≡◌, ◌+◌, ◌≤◌, ◌↔◌, [], ◌∷◌, ◌++◌, length, map};
ghost use Rattle.std.specs.Prelude.{IfNone, IfOk, IfSome, IsTrue};
ghost use Rattle.kan_model.specs.Programs.Closed as programs;
ghost use Rattle.kan_model.specs.Programs.Nodes.{goal_entry};
ghost use Rattle.kan_model.specs.declared.nodes.GoalNode.TheVariants as nodes;
ghost use Rattle.kan_model.specs.Programs.Closed.{ArgumentsPlaced};
ghost use Rattle.ground_meaning.specs.Following.{Follows, FollowsClaim};
ghost use Rattle.ground_meaning.specs.Following.{ShowsAll};
ghost use Rattle.ground_meaning.specs.Values.{value_of};
ghost use Rattle.ground_meaning.specs.declared.steps.Step.TheVariants as steps;

use crate::holding::holds;
use crate::steps::Step;
use crate::values::{copied, extended, made, marks_of, put};
use kan_model::{GoalNode, Program};
use kan_terms::{Ground, Grounds, Memory};
use std::alloc::Global;

// A goal that is to be shown at slot values.
#[derive(Drop)]
pub(crate) struct Waiting {
    pub(crate) goal: u32,
    pub(crate) values: Grounds,
}

// Both goals are to be shown, the first one next.
fn both(
    alloc: Global,
    _program: &Program,
    values: Grounds,
    node: GoalNode,
    waiting: &mut Vec<Waiting>,
) -> Result<bool, Memory>
    ensures { IfOk result (λ followed. Follows _program.now node values steps.Both
        waiting.old.items followed waiting.new.items) }
{
    match node {
        GoalNode::Both(first, second) => {
            let copies = copied(alloc, &values)?;
            waiting.push(Waiting {
                goal: second,
                values: copies,
            })?;
            waiting.push(Waiting {
                goal: first,
                values,
            })?;
            Ok(true)
        }
        _ => Ok(false),
    }
}

// The left goal is to be shown.
fn left(
    _program: &Program,
    values: Grounds,
    node: GoalNode,
    waiting: &mut Vec<Waiting>,
) -> Result<bool, Memory>
    ensures { IfOk result (λ followed. Follows _program.now node values steps.Left
        waiting.old.items followed waiting.new.items) }
{
    match node {
        GoalNode::Either(goal, _) => {
            waiting.push(Waiting { goal, values })?;
            Ok(true)
        }
        _ => Ok(false),
    }
}

// The right goal is to be shown.
fn right(
    _program: &Program,
    values: Grounds,
    node: GoalNode,
    waiting: &mut Vec<Waiting>,
) -> Result<bool, Memory>
    ensures { IfOk result (λ followed. Follows _program.now node values steps.Right
        waiting.old.items followed waiting.new.items) }
{
    match node {
        GoalNode::Either(_, goal) => {
            waiting.push(Waiting { goal, values })?;
            Ok(true)
        }
        _ => Ok(false),
    }
}

// The goal is to be shown with chosen values behind the others.
fn choose(
    alloc: Global,
    _program: &Program,
    values: &Grounds,
    node: GoalNode,
    chosen: &Grounds,
    waiting: &mut Vec<Waiting>,
) -> Result<bool, Memory>
    ensures { IfOk result (λ followed. Follows _program.now node values.now
        (steps.Choose chosen.now) waiting.old.items followed waiting.new.items) }
{
    match node {
        GoalNode::Fresh(count, goal) => {
            if chosen.len() != count as usize {
                return Ok(false);
            }
            let all = extended(alloc, values, chosen)?;
            waiting.push(Waiting { goal, values: all })?;
            Ok(true)
        }
        _ => Ok(false),
    }
}

// The value of a template.
fn value_at(alloc: Global, program: &Program, values: &Grounds, term: u32) -> Result<Ground, Memory>
    ensures { IfOk result (λ value. value ≡ value_of program.now values.now term) }
{
    let marks = marks_of(alloc, program, values, term)?;
    Ok(made(marks))
}

// The values of templates.
fn argument_values(
    alloc: Global,
    program: &Program,
    values: &Grounds,
    arguments: &[u32],
) -> Result<Grounds, Memory>
    ensures { IfOk result (λ all. all ≡ map (value_of program.now values.now) arguments.now) }
{
    let mut all = Grounds::new(alloc);
    for term in arguments {
        put(value_at(alloc, program, values, *term)?, &mut all)?;
    }
    Ok(all)
}

// The body of a relation is to be shown at the values of a call's templates.
fn enter_call(
    alloc: Global,
    program: &Program,
    values: &Grounds,
    relation: u32,
    at: u32,
    count: u32,
    waiting: &mut Vec<Waiting>,
) -> Result<bool, Memory>
    requires { at + count ≤ length (programs.tables program.now).arguments }
    ensures { IfOk result (λ followed. Follows program.now (nodes.Call relation at count)
        values.now steps.Enter waiting.old.items followed waiting.new.items) }
{
    match program.relation(relation) {
        None => Ok(false),
        Some(found) => {
            let arguments = program.arguments(at, count);
            let all = argument_values(alloc, program, values, arguments)?;
            waiting.push(Waiting {
                goal: found.body,
                values: all,
            })?;
            Ok(true)
        }
    }
}

// The goal behind a pause, or a relation's body, is to be shown.
#[tactic(auto, using(crate::proofs::FollowingLaws::same_node))]
fn enter(
    alloc: Global,
    program: &Program,
    values: Grounds,
    node: GoalNode,
    waiting: &mut Vec<Waiting>,
) -> Result<bool, Memory>
    requires { ArgumentsPlaced program.now (goal_entry node) }
    ensures { IfOk result (λ followed. Follows program.now node values steps.Enter
        waiting.old.items followed waiting.new.items) }
{
    match node {
        GoalNode::Later(goal) => {
            waiting.push(Waiting { goal, values })?;
            Ok(true)
        }
        GoalNode::Call(relation, at, count) => {
            enter_call(alloc, program, &values, relation, at, count, waiting)
        }
        _ => Ok(false),
    }
}

// Follows a step with what is to be shown next, and answers whether it is a step of that goal.
fn follow(
    alloc: Global,
    program: &Program,
    claim: Waiting,
    step: &Step,
    waiting: &mut Vec<Waiting>,
) -> Result<bool, Memory>
    ensures { IfOk result (λ followed. FollowsClaim program.now claim step.now
        waiting.old.items followed waiting.new.items) }
{
    let node = program.goal_node(claim.goal);
    let values = claim.values;
    match step {
        Step::Holds => holds(alloc, program, &values, node),
        Step::Both => both(alloc, program, values, node, waiting),
        Step::Left => left(program, values, node, waiting),
        Step::Right => right(program, values, node, waiting),
        Step::Choose(chosen) => choose(alloc, program, &values, node, chosen, waiting),
        Step::Enter => enter(alloc, program, values, node, waiting),
    }
}

// Takes what is to be shown next from the stack.
fn next(waiting: &mut Vec<Waiting>) -> Option<Waiting>
    ensures taken { IfSome result (λ claim. waiting.old.items ≡ waiting.new.items ++ claim ∷ []) }
    ensures empty { IfNone result (waiting.old.items ≡ []) }
{
    waiting.pop()
}

// Whether nothing is to be shown any more.
fn is_done(waiting: &[Waiting]) -> bool
    ensures { IsTrue result ↔ (waiting.now ≡ []) }
{
    waiting.is_empty()
}

// Follows steps to their end, and answers whether nothing is left to be shown then.
pub(crate) fn follow_all(
    alloc: Global,
    program: &Program,
    mut waiting: Vec<Waiting>,
    steps: &[Step],
) -> Result<bool, Memory>
    ensures { IfOk result (λ shown. IsTrue shown ↔ ShowsAll program.now steps.now waiting.items) }
{
    for step in steps {
        let Some(claim) = next(&mut waiting) else {
            return Ok(false);
        };
        if !follow(alloc, program, claim, step, &mut waiting)? {
            return Ok(false);
        }
    }
    Ok(is_done(&waiting))
}
