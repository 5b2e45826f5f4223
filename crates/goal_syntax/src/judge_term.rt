//! The faults of terms.

ghost use Rattle.std.specs.Prelude.{◌≡◌, ◌+◌, ◌++◌, OnOk};
ghost use Rattle.std.specs.List.{flat_map};
ghost use Rattle.kan_grammar.specs.Texts.TextFaults.{use_faults, term_faults};
ghost use Rattle.goal_syntax.specs.Judging.FaultLists.{AddsFaults};
ghost use Rattle.goal_forms.specs.Parts.{sites};
ghost use Rattle.goal_forms.specs.Steps.TermSteps.{task_form, step_size};
ghost use Rattle.goal_syntax.specs.Judging.TermsLeft.{own_uses, later_uses, waiting_uses};
ghost use Rattle.goal_syntax.specs.Judging.TermsLeft.{waiting_size};

use crate::fault::{Fault, report};
use goal_forms::{FlatData, Step, Task, parse_task, slot_of};
use kan_refusals::Refusal;
use kan_terms::{Memory, Names};
use std::alloc::Global;

// Notes the fault of a step, where it has one itself.
fn judge_step(scope: &[Option<u32>], step: Step, faults: &mut Vec<Fault>) -> Result<(), Memory>
    ensures { OnOk result (AddsFaults faults.old.items faults.new.items
        (flat_map (use_faults scope.now) (own_uses step))) }
{
    match step {
        Step::Variable(at, symbol) => {
            if slot_of(scope, symbol).is_none() {
                report(faults, at, Refusal::UnboundName)?;
            }
            Ok(())
        }
        Step::Misshapen(at) => report(faults, at, Refusal::BadShape),
        _ => Ok(()),
    }
}

// Puts the tasks of a step on the stack, the first one on top.
fn wait_for(
    flat: &FlatData,
    names: &Names,
    step: Step,
    waiting: &mut Vec<Task>,
) -> Result<(), Memory>
    ensures uses { OnOk result (waiting_uses (sites flat.now) names.now waiting.new.items
        ≡ later_uses (sites flat.now) names.now step
        ++ waiting_uses (sites flat.now) names.now waiting.old.items) }
    ensures size { OnOk result (waiting_size (sites flat.now) waiting.new.items
        ≡ step_size (sites flat.now) step + waiting_size (sites flat.now) waiting.old.items) }
{
    match step {
        Step::Pair(first, rest) => {
            waiting.push(rest)?;
            waiting.push(first)?;
        }
        Step::Same(task) => waiting.push(task)?,
        _ => {}
    }
    Ok(())
}

/// Notes the faults of a task's term, where these names are in scope.
pub(crate) fn judge_term(
    alloc: Global,
    flat: &FlatData,
    names: &Names,
    scope: &[Option<u32>],
    task: Task,
    faults: &mut Vec<Fault>,
) -> Result<(), Memory>
    ensures { OnOk result (AddsFaults faults.old.items faults.new.items
        (term_faults scope.now (task_form (sites flat.now) names.now task))) }
{
    let mut waiting = Vec::new(alloc);
    waiting.push(task)?;
    while let Some(next) = waiting.pop() {
        let step = parse_task(flat, names, next);
        judge_step(scope, step, faults)?;
        wait_for(flat, names, step, &mut waiting)?;
    }
    Ok(())
}
