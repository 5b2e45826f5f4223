//! Goals that are run by running others.

ghost use Rattle.std.specs.Prelude.{◌≡◌, ◌+◌, ◌≤◌, ◌^◌, ℕ, ◌∷◌, ◌++◌, map, OnOk};
ghost use Rattle.kan_model.specs.Programs.Goals.{Goal};
ghost use Rattle.kan_model.specs.Stores.Store.{with_fresh};
ghost use Rattle.kan_model.specs.Streams.Running.{variables};
ghost use Rattle.kan_model.specs.Programs.Environments.{terms_of};
ghost use Rattle.stream_core.specs.Tasks as pending;
ghost use Rattle.stream_core.specs.CodeTasks.{task, stack};

use crate::appending::reversed;
use crate::streams::Stores;
use crate::tasks::Task;
use kan_model::{Env, Store};
use kan_terms::Memory;
use std::alloc::Global;

// Both goals: the second one is bound to the stream of the first one.
pub(crate) fn split_both<St: Store>(
    alloc: Global,
    first: u32,
    second: u32,
    env: Env,
    store: St,
    tasks: &mut Vec<Task<St>>,
) -> Result<(), Memory>
    ensures { OnOk result ((goal : ℕ → Goal) → stack (task St.meaning goal) tasks.new.items
        ≡ pending.Task.run_at (goal first) (terms_of env) (St.meaning store) ∷ pending.Task.bind_to
        (goal second) (terms_of env) ∷ stack (task St.meaning goal) tasks.old.items) }
{
    let copy = env.again(alloc)?;
    tasks.push(Task::Bind {
        goal: second,
        env: copy,
    })?;
    tasks.push(Task::Run {
        goal: first,
        env,
        store,
    })?;
    Ok(())
}

// One of two goals: the streams of both are appended.
pub(crate) fn split_either<St: Store>(
    alloc: Global,
    left: u32,
    right: u32,
    env: Env,
    store: St,
    tasks: &mut Vec<Task<St>>,
) -> Result<(), Memory>
    ensures { OnOk result ((goal : ℕ → Goal) → stack (task St.meaning goal) tasks.new.items
        ≡ pending.Task.run_at (goal right) (terms_of env) (St.meaning store) ∷ pending.Task.run_at
        (goal left) (terms_of env) (St.meaning store) ∷ pending.Task.append_two ∷ stack
        (task St.meaning goal) tasks.old.items) }
{
    let left_env = env.again(alloc)?;
    let left_store = store.again(alloc)?;
    tasks.push(Task::Append)?;
    tasks.push(Task::Run {
        goal: left,
        env: left_env,
        store: left_store,
    })?;
    tasks.push(Task::Run {
        goal: right,
        env,
        store,
    })?;
    Ok(())
}

// A goal with slots more, which stand for the next variables.
pub(crate) fn split_fresh<St: Store>(
    alloc: Global,
    count: u32,
    body: u32,
    env: Env,
    store: St,
    tasks: &mut Vec<Task<St>>,
) -> Result<(), Memory>
    requires { (St.meaning store).counter + count ≤ 2 ^ 63 }
    ensures { OnOk result ((goal : ℕ → Goal) → stack (task St.meaning goal) tasks.new.items
        ≡ pending.Task.run_at (goal body)
        (terms_of env ++ variables (St.meaning store).counter count)
        (with_fresh (St.meaning store) count) ∷ stack (task St.meaning goal) tasks.old.items) }
{
    let env = env.extend(alloc, store.counter(), count)?;
    let store = store.fresh_owned(alloc, count)?;
    tasks.push(Task::Run {
        goal: body,
        env,
        store,
    })?;
    Ok(())
}

// A goal at a store, whose stream is appended to the one under it.
fn push_run<St: Store>(
    goal: u32,
    env: Env,
    store: St,
    tasks: &mut Vec<Task<St>>,
) -> Result<(), Memory>
    ensures { OnOk result ((at : ℕ → Goal) → stack (task St.meaning at) tasks.new.items
        ≡ pending.Task.run_at (at goal) (terms_of env) (St.meaning store) ∷ pending.Task.append_two
        ∷ stack (task St.meaning at) tasks.old.items) }
{
    tasks.push(Task::Append)?;
    tasks.push(Task::Run { goal, env, store })?;
    Ok(())
}

// A goal at a store, whose stream has the empty one appended.
pub(crate) fn run_alone<St: Store>(
    goal: u32,
    env: Env,
    store: St,
    tasks: &mut Vec<Task<St>>,
) -> Result<(), Memory>
    ensures { OnOk result ((at : ℕ → Goal) → stack (task St.meaning at) tasks.new.items
        ≡ pending.Task.run_at (at goal) (terms_of env) (St.meaning store) ∷
        pending.Task.append_empty ∷ stack (task St.meaning at) tasks.old.items) }
{
    tasks.push(Task::AppendEmpty)?;
    tasks.push(Task::Run { goal, env, store })?;
    Ok(())
}

// A goal at each store, with copies of the environment.
fn run_at_copies<St: Store>(
    alloc: Global,
    goal: u32,
    env: &Env,
    heads: Stores<St>,
    tasks: &mut Vec<Task<St>>,
) -> Result<(), Memory>
    ensures { OnOk result ((at : ℕ → Goal) → stack (task St.meaning at) tasks.new.items
        ≡ pending.run_each (at goal) (terms_of env.now) (map St.meaning heads)
        (stack (task St.meaning at) tasks.old.items)) }
{
    let mut waiting = reversed(alloc, heads)?;
    while let Some(store) = waiting.pop() {
        let copy = env.again(alloc)?;
        push_run(goal, copy, store, tasks)?;
    }
    Ok(())
}

// A goal at each store, whose streams are appended.
pub(crate) fn run_at_each<St: Store>(
    alloc: Global,
    goal: u32,
    env: Env,
    mut heads: Stores<St>,
    tasks: &mut Vec<Task<St>>,
) -> Result<(), Memory>
    ensures { OnOk result ((at : ℕ → Goal) → stack (task St.meaning at) tasks.new.items
        ≡ pending.run_each (at goal) (terms_of env) (map St.meaning heads)
        (stack (task St.meaning at) tasks.old.items)) }
{
    let Some(last) = heads.pop() else {
        return Ok(());
    };
    run_at_copies(alloc, goal, &env, heads, tasks)?;
    push_run(goal, env, last, tasks)?;
    Ok(())
}
