//! What was pushed is what was taken and what is left.

ghost use Rattle.std.specs.Prelude.{◌≡◌, ◌≤◌, [], ◌∷◌, IfOk};
ghost use Rattle.task_deques.specs.Holders.{holder_part, deque_home, AreWhole};

use crate::tasks::Job;
use boxcar::tag::Tag;
use kan_terms::Memory;
use std::alloc::Global;
use std::sync::Wait;
use std::test::Fail;
use std::thread;
use std::thread::Threads;
use task_deques::{Holder, gather, task_deques};

// Pushes the numbers below `count`.
fn push_below(holder: &mut Holder<Job>, count: u64) -> bool
    requires home { deque_home holder.old.deque ≡ [] }
    ensures same { holder_part holder.new ≡ holder_part holder.old }
    ensures home { deque_home holder.new.deque ≡ [] }
{
    let mut all = true;
    for number in 0..count {
        if holder.deque.push(Job { number }).is_err() {
            all = false;
        }
    }
    all
}

// The number that is taken.
fn take_one(holder: &mut Holder<Job>) -> Option<u64>
    ensures same { holder_part holder.new ≡ holder_part holder.old }
{
    let task = holder.deque.take()?;
    Some(task.number)
}

// The number that is stolen from the first of the others.
fn steal_one<R: Wait>(rt: &R, holder: &mut Holder<Job>) -> Option<u64>
    ensures same { holder_part holder.new ≡ holder_part holder.old }
{
    if holder.others.is_empty() {
        return None;
    }
    let task = holder.steal_from(rt, 0)?;
    Some(task.number)
}

// Two holders.
fn two_holders(alloc: Global) -> Result<(Holder<Job>, Holder<Job>), Memory>
    ensures whole { IfOk result (λ two. AreWhole (holder_part two.0 ∷ holder_part two.1 ∷ [])) }
    ensures home { IfOk result (λ two. deque_home two.0.deque ≡ []) }
{
    let mut deques = task_deques(alloc, Tag::empty(), 2);
    let mut all = deques.deal()?;
    let Some(second) = all.pop() else {
        return Err(Memory);
    };
    let Some(first) = all.pop() else {
        return Err(Memory);
    };
    Ok((first, second))
}

// What is left with both.
fn left_with(alloc: Global, first: Holder<Job>, second: Holder<Job>) -> Result<Vec<Job>, Memory>
    requires whole { AreWhole (holder_part first ∷ holder_part second ∷ []) }
{
    let mut all = Vec::new(alloc);
    let Ok(()) = all.push(first) else {
        return Err(Memory);
    };
    let Ok(()) = all.push(second) else {
        return Err(Memory);
    };
    gather(alloc, all)
}

/// What a holder did in a race.
#[derive(Drop)]
pub struct Done {
    pub holder: Holder<Job>,
    pub sum: u64,
}

// Pushes the numbers below `count`, and takes one after each third.
fn push_and_take(mut holder: Holder<Job>, count: u64) -> Done
    requires home { deque_home holder.deque ≡ [] }
    ensures same { holder_part result.holder ≡ holder_part holder }
{
    let mut sum = 0u64;
    for number in 0..count {
        let _ = holder.deque.push(Job { number });
        if number % 3 == 0 {
            if let Some(task) = holder.deque.take() {
                sum = sum.wrapping_add(task.number);
            }
        }
    }
    Done { holder, sum }
}

// Tries so many times to steal.
fn steal_some<R: Wait>(rt: &R, mut holder: Holder<Job>, count: u64) -> Done
    ensures same { holder_part result.holder ≡ holder_part holder }
{
    let mut sum = 0u64;
    for _ in 0..count {
        match steal_one(rt, &mut holder) {
            Some(number) => sum = sum.wrapping_add(number),
            None => thread::yield_now(),
        }
    }
    Done { holder, sum }
}

// One pushes and takes while the other steals: the sum of what was taken and what is left.
fn race<R: Threads + Wait + Sync>(rt: &R, alloc: Global, count: u64) -> Result<u64, Memory> {
    let (first, second) = two_holders(alloc)?;
    let (one, two) = thread::join(
        rt,
        move ||
            requires { deque_home first.deque ≡ [] }
            ensures { holder_part result.holder ≡ holder_part first }
        { push_and_take(first, count) },
        move ||
            ensures { holder_part result.holder ≡ holder_part second }
        { steal_some(rt, second, count) },
    );
    let left = left_with(alloc, one.holder, two.holder)?;
    let mut sum = one.sum.wrapping_add(two.sum);
    for task in left.iter() {
        sum = sum.wrapping_add(task.number);
    }
    Ok(sum)
}

// Three are pushed, the first takes one, and the second steals one: what each got, and what is
// left.
fn three_tasks<R: Wait>(
    rt: &R,
    alloc: Global,
) -> Result<(Option<u64>, Option<u64>, Vec<Job>), Memory> {
    let (mut first, mut second) = two_holders(alloc)?;
    let _ = push_below(&mut first, 3);
    let mine = take_one(&mut first);
    let stolen = steal_one(rt, &mut second);
    let left = left_with(alloc, first, second)?;
    Ok((mine, stolen, left))
}

#[test]
fn the_one_that_is_left_is_gathered(rt: HostRuntime) -> Result<(), Fail> {
    let Ok((mine, stolen, left)) = three_tasks(&rt, rt.alloc()) else {
        return Err(Fail::from("no memory"));
    };
    assert!(rt; mine == Some(0) && stolen == Some(1));
    assert_eq!(rt; left.len(), 1);
    assert!(rt; left.iter().all(|task| task.number == 2));
    Ok(())
}

#[test]
fn each_task_is_taken_once_or_left(rt: HostRuntime) -> Result<(), Fail> {
    let Ok(sum) = race(&rt, rt.alloc(), 1000) else {
        return Err(Fail::from("no memory"));
    };
    assert_eq!(rt; sum, 499_500);
    Ok(())
}

// The first of those that each holder steals from, where so many are dealt.
fn first_victims(alloc: Global, count: u32) -> Result<Vec<u32>, Memory>
    requires few { count ≤ 65 }
{
    let mut deques = task_deques(alloc, Tag::empty(), count);
    let all: Vec<Holder<Job>> = deques.deal()?;
    let mut victims = Vec::new(alloc);
    for holder in all.iter() {
        if let Some(stealer) = holder.others.first() {
            if victims.push(stealer.victim()).is_err() {
                return Err(Memory);
            }
        }
    }
    Ok(victims)
}

#[test]
fn stealing_begins_with_the_next_number(rt: HostRuntime) -> Result<(), Fail> {
    let Ok(victims) = first_victims(rt.alloc(), 65) else {
        return Err(Fail::from("no memory"));
    };
    assert_eq!(rt; victims.len(), 65);
    assert!(rt; victims.first() == Some(&1) && victims.last() == Some(&0));
    Ok(())
}
