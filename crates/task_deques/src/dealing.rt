//! The beginning: the deques, and a stealer for every other holder.

ghost use Rattle.std.specs.Prelude.{◌≡◌, ◌+◌, ◌-◌, ◌<◌, ◌≤◌, [], ◌∷◌, ℕ, true, false, map};
ghost use Rattle.std.specs.Prelude.{length, IfOk, OnOk, OnErr};
ghost use Rattle.crossbeam_deque.specs.Handles.{worker_view, worker_flavor, worker_capacity};
ghost use Rattle.crossbeam_deque.specs.Handles.{worker_index};
ghost use Rattle.task_deques.specs.Shares.{share, whole};
ghost use Rattle.task_deques.specs.Whole.{Every};
ghost use Rattle.task_deques.specs.Holders.{pushed_to, taken_from, deque_home, deque_part};
ghost use Rattle.task_deques.specs.Holders.{stealer_part, holder_part, AreWhole, AreReady};
ghost use Rattle.task_deques.specs.Holders.{IsUnusedDeque, IsUnusedStealer, IsUnusedHolder};
ghost use Rattle.task_deques.specs.Holders.{IsLoneHolder, IsWholeDeque, parts_lent};
ghost use Rattle.task_deques.specs.Deals.{tasks_home, deque_count, has_dealt, AreSameDeques};
ghost use Rattle.task_deques.specs.Turns.{after};
ghost use Rattle.task_deques.specs.InTurn.{AreGiven, AreInTurn};

use crate::holders::{Holder, HolderOf, TaskDeque, TaskStealer};
use crate::shares::{Cut, EachOnce, Named, Naming, Share, Task};
use boxcar::tag::Tag;
use crossbeam_deque::Worker;
use kan_terms::Memory;
use std::alloc::Global;
use std::marker::Brand;

// So many pushes are never refused.
const FIRST: usize = 64;

// The worker's pass learns the home, while nothing was pushed.
fn named<J: Naming, T: Task>(worker: &mut Worker<T, Global, Share<T>, EachOnce>, home: &Tag)
    requires home { home.now.numbers ≡ J.home }
    requires new { worker_view worker.old ≡ share whole [] [] [] }
    ensures view { worker_view worker.new ≡ share whole home.now.numbers [] [] }
    ensures flavor { worker_flavor worker.new ≡ worker_flavor worker.old }
    ensures room { worker_capacity worker.old ≤ worker_capacity worker.new }
    ensures index { worker_index worker.new ≡ worker_index worker.old }
{
    let _ = home;
    let _ = worker.another::<Named<J>>();
}

impl<T: Task> TaskDeque<T> {
    // A deque for tasks of a home.
    fn new(alloc: Global, home: &Tag) -> Result<TaskDeque<T>, Memory>
        ensures whole { IfOk result (λ deque. IsWholeDeque deque) }
        ensures unused { IfOk result (λ deque. IsUnusedDeque home.now.numbers deque) }
    {
        let made: Result<Worker<T, Global, Share<T>, EachOnce>, _> = Worker::fifo_as(alloc, FIRST);
        let Ok(mut worker) = made else {
            return Err(Memory);
        };
        named::<Brand, T>(&mut worker, home);
        Ok(TaskDeque { worker })
    }

    // A stealer of this deque, which is the one with the number.
    fn stealer(&mut self, number: u32) -> Result<TaskStealer<T>, Memory>
        requires parts { 1 < (deque_part self.old).1 }
        ensures part { OnOk result (deque_part self.new ≡ (
          (deque_part self.old).0,
          (deque_part self.old).1 - 1,
        )) }
        ensures pushed { pushed_to self.new ≡ pushed_to self.old }
        ensures taken { taken_from self.new ≡ taken_from self.old }
        ensures home { deque_home self.new ≡ deque_home self.old }
        ensures stealer { IfOk result (λ stealer. stealer_part stealer ≡ (
          number,
          ((deque_part self.old).0, 1),
        )) }
        ensures unused { IfOk result (λ stealer. IsUnusedStealer (deque_home self.old) stealer) }
    {
        let Ok(thief) = self.worker.stealer() else {
            return Err(Memory);
        };
        let pass = self.worker.another::<Cut>();
        Ok(TaskStealer {
            victim: number,
            thief,
            pass,
        })
    }
}

// Holders that have no stealer yet.
fn alone<T: Task>(alloc: Global, home: &Tag, count: usize) -> Result<Vec<Holder<T>>, Memory>
    ensures alone { IfOk result (λ made. Every (IsLoneHolder home.now.numbers) made.items) }
    ensures length { IfOk result (λ made. length made.items ≡ count) }
{
    let mut holders = Vec::new(alloc);
    for _ in 0..count {
        let deque = TaskDeque::new(alloc, home)?;
        let holder = HolderOf {
            deque,
            others: Vec::new(alloc),
        };
        let Ok(()) = holders.push(holder) else {
            return Err(Memory);
        };
    }
    Ok(holders)
}

// The number that is `step` after `own`, around `count`.
fn number_after(count: usize, own: usize, step: usize) -> usize
    requires { (own < count) × (step < count) × (count ≤ 65) }
    ensures after { result ≡ after count own step }
    ensures below { result < count }
{
    if own + step < count {
        own + step
    } else {
        own + step - count
    }
}

// Makes a stealer of the deque with a number.
fn cut<T: Task>(
    home: &Tag,
    holders: &mut Vec<Holder<T>>,
    number: usize,
) -> Result<TaskStealer<T>, Memory>
    requires ready { AreReady home.now.numbers holders.old.items [] }
    requires few { parts_lent holders.old.items ≤ 10000 }
    requires within { (number < length holders.old.items) × (number < 65) }
    ensures ready { IfOk result (λ stealer. AreReady home.now.numbers holders.new.items
        (stealer_part stealer ∷ [])) }
    ensures unused { IfOk result (λ stealer. IsUnusedStealer home.now.numbers stealer) }
    ensures part { IfOk result (λ stealer. (stealer_part stealer).1.1 ≡ 1) }
    ensures victim { IfOk result (λ stealer. stealer.victim ≡ number) }
    ensures parts { OnOk result (parts_lent holders.new.items ≡ parts_lent holders.old.items) }
    ensures length { OnOk result (length holders.new.items ≡ length holders.old.items) }
    ensures turns { OnOk result ((count own given : ℕ)
        → AreGiven count own given holders.old.items
        → AreGiven count own given holders.new.items) }
{
    let Ok(stealer) = holders[number].deque.stealer(number as u32) else {
        return Err(Memory);
    };
    Ok(stealer)
}

// Gives a holder a stealer.
fn give<T: Task>(
    home: &Tag,
    holders: &mut Vec<Holder<T>>,
    own: usize,
    stealer: TaskStealer<T>,
) -> Result<(), Memory>
    requires ready { AreReady home.now.numbers holders.old.items (stealer_part stealer ∷ []) }
    requires unused { IsUnusedStealer home.now.numbers stealer }
    requires within { own < length holders.old.items }
    ensures ready { OnOk result (AreReady home.now.numbers holders.new.items []) }
    ensures parts { OnOk result (parts_lent holders.new.items
        ≡ parts_lent holders.old.items + (stealer_part stealer).1.1) }
    ensures length { OnOk result (length holders.new.items ≡ length holders.old.items) }
    ensures turns { OnOk result ((count given : ℕ) → stealer.victim ≡ after count own (given + 1)
        → AreGiven count own given holders.old.items
        → AreGiven count own (given + 1) holders.new.items) }
{
    let Ok(()) = holders[own].others.push(stealer) else {
        return Err(Memory);
    };
    Ok(())
}

// The stealers of one holder, which begin with the next higher number.
fn fill<T: Task>(home: &Tag, holders: &mut Vec<Holder<T>>, own: usize) -> Result<(), Memory>
    requires ready { AreReady home.now.numbers holders.old.items [] }
    requires few { parts_lent holders.old.items ≤ 8000 }
    requires within { (own < length holders.old.items) × (length holders.old.items ≤ 65) }
    requires turns { AreGiven (length holders.old.items) own 0 holders.old.items }
    ensures ready { OnOk result (AreReady home.now.numbers holders.new.items []) }
    ensures parts { OnOk result (parts_lent holders.new.items
        ≤ parts_lent holders.old.items + 65) }
    ensures length { OnOk result (length holders.new.items ≡ length holders.old.items) }
    ensures turns { OnOk result (AreGiven (length holders.old.items) (own + 1) 0
        holders.new.items) }
{
    let count = holders.len();
    for step in 1..count {
        let number = number_after(count, own, step);
        let stealer = cut(home, holders, number)?;
        give(home, holders, own, stealer)?;
    }
    Ok(())
}

// All holders, with all stealers.
fn all_holders<T: Task>(alloc: Global, home: &Tag, count: usize) -> Result<Vec<Holder<T>>, Memory>
    requires few { count ≤ 65 }
    ensures length { IfOk result (λ made. length made.items ≡ count) }
    ensures whole { IfOk result (λ made. AreWhole (map holder_part made.items)) }
    ensures unused { IfOk result (λ made. Every (IsUnusedHolder home.now.numbers) made.items) }
    ensures turns { IfOk result (λ made. AreInTurn made.items) }
{
    let mut all = alone(alloc, home, count)?;
    for own in 0..count {
        fill(home, &mut all, own)?;
    }
    Ok(all)
}

/// The deques for tasks of a home, before they are dealt.
#[derive(Drop)]
pub struct Deques {
    pub(crate) alloc: Global,
    pub(crate) home: Tag,
    pub(crate) count: u32,
    pub(crate) dealt: bool,
}

/// So many deques for tasks of a home. They are made when they are dealt.
pub fn task_deques(alloc: Global, home: Tag, count: u32) -> Deques
    ensures home { tasks_home result ≡ home.numbers }
    ensures count { deque_count result ≡ count }
    ensures dealt { has_dealt result ≡ false }
{
    Deques {
        alloc,
        home,
        count,
        dealt: false,
    }
}

impl Deques {
    /// The holders. Each has a deque, and a stealer for every other holder, beginning with the next
    /// higher number. After want of memory none is handed out, and they can be dealt again.
    pub fn deal<T: Task>(&mut self) -> Result<Vec<Holder<T>>, Memory>
        requires dealt { has_dealt self.old ≡ false }
        requires few { deque_count self.old ≤ 65 }
        ensures same { AreSameDeques self.old self.new }
        ensures ok { OnOk result (has_dealt self.new ≡ true) }
        ensures err { OnErr result (has_dealt self.new ≡ false) }
        ensures length { IfOk result (λ holders. length holders.items ≡ deque_count self.old) }
        ensures whole { IfOk result (λ holders. AreWhole (map holder_part holders.items)) }
        ensures unused { IfOk result (λ holders. Every (IsUnusedHolder (tasks_home self.old))
            holders.items) }
        ensures turns { IfOk result (λ holders. AreInTurn holders.items) }
    {
        let all = all_holders(self.alloc, &self.home, self.count as usize)?;
        self.dealt = true;
        Ok(all)
    }
}
