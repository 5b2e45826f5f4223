//! The end: all deques and stealers come back.

ghost use Rattle.std.specs.Prelude.{◌≡◌, ◌+◌, ◌++◌, map, flat_map, IfOk, OnOk, IsPermutation};
ghost use Rattle.task_deques.specs.Whole.{Every, IsAll};
ghost use Rattle.task_deques.specs.Holders.{pushed_to, taken_from, pushed_through, taken_through};
ghost use Rattle.task_deques.specs.Holders.{deque_part, stealer_part, deque_of, others_of};
ghost use Rattle.task_deques.specs.Holders.{holder_part, pushed_by, taken_by, AreWhole};
ghost use Rattle.task_deques.specs.Holders.{IsWholeDeque};

use crate::holders::{Holder, HolderOf, TaskDeque, TaskStealer};
use crate::shares::{Cut, Task};
use kan_terms::Memory;
use std::alloc::Global;

impl<T: Task> TaskDeque<T> {
    // Takes in what a stealer of this deque pushed and took, and its parts.
    fn absorb(&mut self, stealer: TaskStealer<T>)
        requires same { (deque_part self.old).0 ≡ (stealer_part stealer).1.0 }
        ensures part { deque_part self.new ≡ (
          (deque_part self.old).0,
          (deque_part self.old).1 + (stealer_part stealer).1.1,
        ) }
        ensures pushed { pushed_to self.new ≡ pushed_to self.old ++ pushed_through stealer }
        ensures taken { taken_from self.new ≡ taken_from self.old ++ taken_through stealer }
    {
        let TaskStealer {
            victim: _,
            thief,
            pass,
        } = stealer;
        self.worker.absorb::<Cut>(pass);
        drop(thief);
    }
}

// All deques, and all stealers.
fn apart<T: Task>(
    alloc: Global,
    holders: Vec<Holder<T>>,
) -> Result<(Vec<TaskDeque<T>>, Vec<TaskStealer<T>>), Memory>
    ensures deques { IfOk result (λ parts. parts.0.items ≡ map deque_of holders.items) }
    ensures others { IfOk result (λ parts. parts.1.items ≡ flat_map others_of holders.items) }
{
    let mut deques = Vec::new(alloc);
    let mut stealers = Vec::new(alloc);
    for holder in holders {
        let HolderOf { deque, mut others } = holder;
        if deques.push(deque).is_err() {
            return Err(Memory);
        }
        if stealers.append(&mut others).is_err() {
            return Err(Memory);
        }
    }
    Ok((deques, stealers))
}

// Each deque takes in its stealers.
fn absorb_all<T: Task>(
    mut deques: Vec<TaskDeque<T>>,
    mut stealers: Vec<TaskStealer<T>>,
) -> Vec<TaskDeque<T>>
    requires all { IsAll (map deque_part deques.items) (map stealer_part stealers.items) }
    ensures all { Every IsWholeDeque result.items }
    ensures pushed { IsPermutation (flat_map pushed_to deques.items
        ++ flat_map pushed_through stealers.items) (flat_map pushed_to result.items) }
    ensures taken { IsPermutation (flat_map taken_from deques.items
        ++ flat_map taken_through stealers.items) (flat_map taken_from result.items) }
{
    while let Some(stealer) = stealers.pop() {
        let victim = stealer.victim as usize;
        deques[victim].absorb(stealer);
    }
    deques
}

// Takes what a deque still has.
fn drain<T: Task>(mut deque: TaskDeque<T>, left: &mut Vec<T>) -> Result<(), Memory>
    requires whole { IsWholeDeque deque }
    ensures { OnOk result (IsPermutation (left.old.items ++ pushed_to deque)
        (taken_from deque ++ left.new.items)) }
{
    while let Some(task) = deque.take() {
        let Ok(()) = left.push(task) else {
            return Err(Memory);
        };
    }
    Ok(())
}

fn drain_all<T: Task>(alloc: Global, deques: Vec<TaskDeque<T>>) -> Result<Vec<T>, Memory>
    requires whole { Every IsWholeDeque deques.items }
    ensures { IfOk result (λ left. IsPermutation (flat_map pushed_to deques.items)
        (flat_map taken_from deques.items ++ left.items)) }
{
    let mut left = Vec::new(alloc);
    for deque in deques {
        drain(deque, &mut left)?;
    }
    Ok(left)
}

/// Takes all holders back, with all their stealers, and gives the tasks that are left: what was
/// pushed is what was taken and what is left, each once. After want of memory they are dropped.
pub fn gather<T: Task>(alloc: Global, holders: Vec<Holder<T>>) -> Result<Vec<T>, Memory>
    requires whole { AreWhole (map holder_part holders.items) }
    ensures { IfOk result (λ left. IsPermutation (flat_map pushed_by holders.items)
        (flat_map taken_by holders.items ++ left.items)) }
{
    let (deques, stealers) = apart(alloc, holders)?;
    let deques = absorb_all(deques, stealers);
    let left = drain_all(alloc, deques)?;
    Ok(left)
}
