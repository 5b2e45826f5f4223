//! The faults of top forms.

ghost use Rattle.std.specs.Prelude.{◌≡◌, take, None, IfOk, OnOk};
ghost use Rattle.kan_grammar.specs.Texts.TopForms.{head_name as name_of_head, name_faults};
ghost use Rattle.kan_grammar.specs.Texts.Resolved.{arity, within};
ghost use Rattle.kan_grammar.specs.Texts.TextFaults.{is_new, again_faults, goals_faults};
ghost use Rattle.kan_grammar.specs.Texts.TextFaults.{form_faults};
ghost use Rattle.goal_forms.specs.Contexts.{datum_at, defined_in, goals_at, head_at, form_of};
ghost use Rattle.goal_syntax.specs.Judging.FaultLists.{AddsFaults};
ghost use Rattle.goal_forms.specs.Steps.FormSteps.{limit_at, one_name};
ghost use Rattle.goal_forms.specs.Parts.{sites, site_at};
ghost use Rattle.goal_forms.specs.RelationTables.{relations as relations_of};

use crate::fault::{Fault, report};
use crate::judge_binder::{judge_binder, judge_names};
use crate::judge_goal::judge_goals;
use goal_forms::{
    Context, FlatData, Form, Part, Relations, Word, binder_names, enter, head_name, head_params,
    is_proper, limit, may_bind, pair_parts, unnamed, word_of_symbol,
};
use kan_refusals::Refusal;
use kan_terms::Memory;
use std::alloc::Global;

// Whether no relation of a name is among the first ones.
fn is_new(relations: &Relations, before: u32, symbol: u32) -> bool
    ensures { result ≡ is_new (arity (take before (relations_of relations.now)) symbol) }
{
    match relations.number(symbol) {
        Some(number) => before <= number,
        None => true,
    }
}

// Notes the fault of a relation's name that is one of the language or has a relation among the
// first ones.
fn judge_again(
    context: &Context,
    before: u32,
    head: u32,
    faults: &mut Vec<Fault>,
) -> Result<(), Memory>
    ensures { OnOk result (AddsFaults faults.old.items faults.new.items
        (again_faults context.now.names.now (take before (defined_in context.now))
        (name_of_head (datum_at context.now head)))) }
{
    let Some((at, symbol)) = head_name(context.flat, head) else {
        return Ok(());
    };
    let is_other = matches!(word_of_symbol(context.names, symbol), Word::Other);
    if !(is_other && is_new(context.relations, before, symbol)) {
        report(faults, at, Refusal::DefinedTwice)?;
    }
    Ok(())
}

// Notes the faults of a relation's head.
fn judge_head(context: &Context, head: u32, faults: &mut Vec<Fault>) -> Result<(), Memory>
    ensures { OnOk result (AddsFaults faults.old.items faults.new.items
        ((head_at context.now head).faults)) }
{
    match pair_parts(context.flat, head) {
        Some((name, params)) if is_proper(context.flat, params) => {
            judge_name(context.flat, name, faults)?;
            judge_names(context.alloc, context.flat, context.names, params, faults)
        }
        _ => report(faults, context.flat.read(head).at, Refusal::BadShape),
    }
}

// Notes the fault of a relation's name that is no symbol.
fn judge_name(flat: &FlatData, name: u32, faults: &mut Vec<Fault>) -> Result<(), Memory>
    ensures { OnOk result (AddsFaults faults.old.items faults.new.items
        (name_faults (site_at (sites flat.now) name))) }
{
    let node = flat.read(name);
    match node.part {
        Part::Name(_) => Ok(()),
        _ => report(faults, node.at, Refusal::BadShape),
    }
}

// Notes the fault of a run's limit, where it has one.
fn judge_limit(flat: &FlatData, place: Option<u32>, faults: &mut Vec<Fault>) -> Result<(), Memory>
    ensures { OnOk result (AddsFaults faults.old.items faults.new.items
        ((limit_at (sites flat.now) place).faults)) }
{
    let Some(place) = place else {
        return Ok(());
    };
    match limit(flat, place) {
        Some(_) => Ok(()),
        None => report(faults, flat.read(place).at, Refusal::BadShape),
    }
}

// The one name of a run; its fault is noted.
fn bind_one(
    context: &Context,
    at: u32,
    symbol: u32,
    faults: &mut Vec<Fault>,
) -> Result<Vec<u32>, Memory>
    ensures bound { IfOk result
        (λ bound. bound.items ≡ (one_name context.now.names.now at symbol).value) }
    ensures faults { OnOk result (AddsFaults faults.old.items faults.new.items
        ((one_name context.now.names.now at symbol).faults)) }
{
    let mut bound = Vec::new(context.alloc);
    if !may_bind(context.names, &bound, symbol) {
        report(faults, at, Refusal::BadShape)?;
    }
    bound.push(symbol)?;
    Ok(bound)
}

// Notes the faults of a form's goals, where these names come behind those in scope.
fn judge_body(
    context: &Context,
    bound: &[u32],
    goals: u32,
    mut scope: Vec<Option<u32>>,
    faults: &mut Vec<Fault>,
) -> Result<(), Memory>
    ensures { OnOk result (AddsFaults faults.old.items faults.new.items
        (goals_faults (defined_in context.now) (within scope.items bound.now)
        (goals_at context.now goals))) }
{
    enter(bound, &mut scope)?;
    judge_goals(context, goals, scope, faults)?;
    Ok(())
}

/// Notes the faults of a top form before which this many relations are defined.
pub(crate) fn judge_form(
    context: &Context,
    before: u32,
    form: Form,
    faults: &mut Vec<Fault>,
) -> Result<(), Memory>
    ensures { OnOk result (AddsFaults faults.old.items faults.new.items
        (form_faults context.now.names.now (defined_in context.now)
        (take before (defined_in context.now)) (form_of context.now form))) }
{
    match form {
        Form::Relation(head, goals) => {
            judge_again(context, before, head, faults)?;
            judge_head(context, head, faults)?;
            let bound = head_params(context.alloc, context.flat, head)?;
            judge_body(context, &bound, goals, Vec::new(context.alloc), faults)
        }
        Form::RunOfOne(limit, at, symbol, goals) => {
            judge_limit(context.flat, limit, faults)?;
            let bound = bind_one(context, at, symbol, faults)?;
            judge_body(context, &bound, goals, Vec::new(context.alloc), faults)
        }
        Form::RunOfList(limit, binder, goals) => {
            judge_limit(context.flat, limit, faults)?;
            judge_binder(context.alloc, context.flat, context.names, binder, faults)?;
            let bound = binder_names(context.alloc, context.flat, binder)?;
            judge_body(context, &bound, goals, unnamed(context.alloc)?, faults)
        }
        Form::Misshapen(at) => report(faults, at, Refusal::BadShape),
        Form::Unknown(at) => report(faults, at, Refusal::UnknownForm),
    }
}
