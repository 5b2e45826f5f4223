//! Building goals that have no goals in them.

ghost use Rattle.goal_syntax.specs.Building.InContext.{goal_alone, KeepsLowIn};
ghost use Rattle.std.specs.Prelude.{◌≡◌, ◌+◌, ◌<◌, ◌≤◌, ◌^◌, length, IfOk, OnOk};
ghost use Rattle.kan_grammar.specs.Texts.Binders.{tag as tag_of};
ghost use Rattle.kan_grammar.specs.Texts.Resolved.{template_in};
ghost use Rattle.kan_model.specs.Programs.Drafts.{tables};
ghost use Rattle.goal_forms.specs.Contexts.{data_of, datum_at, term_at};
ghost use Rattle.goal_syntax.specs.Building.GoalsBuilt.{StandsFor};
ghost use Rattle.goal_syntax.specs.Building.GrownTables.{HasTemplate, Grows};
ghost use Rattle.goal_syntax.specs.Building.Entries.{Adds, HasRoomFor, sides_size};
ghost use Rattle.goal_forms.specs.Steps.GoalSteps.{step_goal};
ghost use Rattle.kan_terms.specs.Tree.{size};
ghost use Rattle.goal_forms.specs.RelationTables.{relations};
ghost use Rattle.goal_syntax.specs.Building.Named.{data_unnamed, node_unnamed};
ghost use Rattle.goal_syntax.specs.Building.InContext.{NamesIn};

use crate::build_term::{build_arguments, build_term};
use goal_forms::{Context, Goal, Task, quoted_symbol};
use kan_model::{Draft, GoalNode};
use kan_terms::Memory;

// Builds two terms, and gives their places.
fn build_two(
    context: &Context,
    scope: &[Option<u32>],
    left: u32,
    right: u32,
    draft: &mut Draft,
) -> Result<(u32, u32), Memory>
    requires room { HasRoomFor
        (size (term_at context.now left) + size (term_at context.now right)) (tables draft.old) }
    requires few { length scope.now < 2 ^ 24 }
    ensures left { IfOk result
        (λ made. HasTemplate (tables draft.new) made.0
        (template_in scope.now (term_at context.now left))) }
    ensures right { IfOk result
        (λ made. HasTemplate (tables draft.new) made.1
        (template_in scope.now (term_at context.now right))) }
    ensures grows { OnOk result (Grows (tables draft.old) (tables draft.new)) }
    ensures room { OnOk result
        (Adds (size (term_at context.now left) + size (term_at context.now right))
        (tables draft.old) (tables draft.new)) }
    ensures low { OnOk result (KeepsLowIn context.now draft.old draft.new) }
    ensures same { OnOk result ((tables draft.new).goals ≡ (tables draft.old).goals) }
    ensures named { OnOk result (NamesIn context.now draft.old draft.new) }
{
    let first = build_term(context, scope, Task::Term(left), draft)?;
    let second = build_term(context, scope, Task::Term(right), draft)?;
    Ok((first, second))
}

// The symbol of a tag; one that is none stands for the first symbol.
fn tag_symbol(context: &Context, place: u32) -> u32
    ensures { result ≡ (tag_of context.now.names.now (datum_at context.now place)).value }
{
    quoted_symbol(context.flat, context.names, place).unwrap_or(0)
}

/// Builds the terms of a goal that has no goals in it, and gives its node.
pub(crate) fn build_node(
    context: &Context,
    scope: &[Option<u32>],
    goal: Goal,
    draft: &mut Draft,
) -> Result<Option<GoalNode>, Memory>
    requires room { HasRoomFor
        (sides_size (step_goal (data_of context.now) context.now.names.now goal))
        (tables draft.old) }
    requires few { length scope.now < 2 ^ 24 }
    ensures made { IfOk result
        (λ node. StandsFor (tables draft.new) node (goal_alone context.now scope.now goal)) }
    ensures grows { OnOk result (Grows (tables draft.old) (tables draft.new)) }
    ensures room { OnOk result
        (Adds (sides_size (step_goal (data_of context.now) context.now.names.now goal))
        (tables draft.old) (tables draft.new)) }
    ensures low { OnOk result (KeepsLowIn context.now draft.old draft.new) }
    ensures same { OnOk result ((tables draft.new).goals ≡ (tables draft.old).goals) }
    ensures named { OnOk result (NamesIn context.now draft.old draft.new) }
    ensures tag { IfOk result (λ node. node_unnamed context.now.names.now node
        ≤ data_unnamed context.now.names.now (data_of context.now)) }
{
    match goal {
        Goal::Succeed => Ok(Some(GoalNode::Succeed)),
        Goal::Fail => Ok(Some(GoalNode::Fail)),
        Goal::Misshapen(_) => Ok(Some(GoalNode::Fail)),
        Goal::Same(left, right) => {
            let (left, right) = build_two(context, scope, left, right, draft)?;
            Ok(Some(GoalNode::Same(left, right)))
        }
        Goal::Differ(left, right) => {
            let (left, right) = build_two(context, scope, left, right, draft)?;
            Ok(Some(GoalNode::Differ(left, right)))
        }
        Goal::Symbol(term) => {
            let term = build_term(context, scope, Task::Term(term), draft)?;
            Ok(Some(GoalNode::Symbol(term)))
        }
        Goal::Number(term) => {
            let term = build_term(context, scope, Task::Term(term), draft)?;
            Ok(Some(GoalNode::Number(term)))
        }
        Goal::Text(term) => {
            let term = build_term(context, scope, Task::Term(term), draft)?;
            Ok(Some(GoalNode::Text(term)))
        }
        Goal::Absent(tag, term) => {
            let term = build_term(context, scope, Task::Term(term), draft)?;
            Ok(Some(GoalNode::Absent(tag_symbol(context, tag), term)))
        }
        Goal::Call(_, symbol, args) => {
            let (at, count) = build_arguments(context, scope, args, draft)?;
            let relation = context.relations.number(symbol).unwrap_or(0);
            Ok(Some(GoalNode::Call(relation, at, count)))
        }
        Goal::Fresh(_, _) | Goal::AllOf(_) | Goal::OneOf(_) | Goal::Clauses(_) => Ok(None),
    }
}
