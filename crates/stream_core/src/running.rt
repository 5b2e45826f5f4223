//! The stream of a goal, by tasks on a stack.

ghost use Rattle.std.specs.Prelude.{◌≡◌, ◌+◌, ◌≤◌, ◌<◌, ◌^◌, length, List, [], ◌∷◌, map, true};
ghost use Rattle.std.specs.Prelude.{option_map, IfSome, IfOk, OnOk};
ghost use Rattle.std.specs.List.{list_all};
ghost use Rattle.kan_model.specs.Programs.Goals as goals;
ghost use Rattle.kan_model.specs.Streams.Stream as model;
ghost use Rattle.kan_model.specs.Streams.Running.{run};
ghost use Rattle.kan_model.specs.Programs.Scope.{width, all_below, in_scope, is_small};
ghost use Rattle.kan_model.specs.Streams.Bounds.{floor};
ghost use Rattle.kan_model.specs.Programs.Environments.{terms_of};
ghost use Rattle.kan_model.specs.Programs.Closed as programs;
ghost use Rattle.stream_core.specs.CounterBounds.{TailFits, FitsAsBound};
ghost use Rattle.stream_core.specs.SolutionsFound.{FindsSolutions, GivesFew};
ghost use Rattle.stream_core.specs.Suspensions.{going_on};
ghost use Rattle.stream_core.specs.Tables.{IsTableOf, OnlyAdds, HasStream, stream_in};
ghost use Rattle.stream_core.specs.Tasks as pending;
ghost use Rattle.stream_core.specs.Tasks.{IsOf, MayRun, AreBelow, AreBelowRest, Becomes};
ghost use Rattle.kan_model.specs.Each.{Each};
ghost use Rattle.stream_core.specs.Tasks.{AreReady, bound_last, streams_after};
ghost use Rattle.stream_core.specs.CodeTasks.{task, tasks_of, streams_of};

use crate::appending::{append, append_empty};
use crate::asserting::{ends_at_once, store_at_once};
use crate::atomic_goals::atomic_stream;
use crate::compound_goals::{run_alone, run_at_each, split_both, split_either, split_fresh};
use crate::nodes::Nodes;
use crate::streams::{Stream, Thunk};
use crate::tasks::Task;
use kan_model::{Env, GoalNode, Program, Store};
use kan_terms::{ListOf, Memory};
use std::alloc::Global;

// Runs two goals. Where the first one has its stores at once, there is one at most, and the second
// goal is run at it: no stream is made for the first one, and none to stand behind the second's.
fn run_both<N: Nodes<St>, St: Store>(
    alloc: Global,
    program: &Program,
    first: u32,
    second: u32,
    env: Env,
    store: St,
    table: &N,
    tasks: &mut Vec<Task<St>>,
    values: &mut Vec<Stream<N::Id, St>>,
) -> Result<(), Memory>
    requires small { is_small (programs.meaning program.now) ≡ true }
    requires may { MayRun (programs.meaning program.now)
        (goals.Goal.both (programs.goal program.now first) (programs.goal program.now second))
        (terms_of env) (St.meaning store) }
    requires belong { Each (HasStream (N.table table.now)) values.old.items }
    ensures becomes { OnOk result (Becomes (programs.meaning program.now)
        (pending.Task.run_at (goals.Goal.both (programs.goal program.now first)
        (programs.goal program.now second)) (terms_of env) (St.meaning store) ∷
        tasks_of program.now St.meaning tasks.old.items)
        (streams_of (N.table table.now) St.meaning values.old.items)
        (tasks_of program.now St.meaning tasks.new.items)
        (streams_of (N.table table.now) St.meaning values.new.items)) }
    ensures belong { OnOk result (Each (HasStream (N.table table.now)) values.new.items) }
{
    let node = program.goal_node(first);
    if ends_at_once(node) {
        let longer = store_at_once(alloc, program, node, &env, store)?;
        match longer {
            Some(store) => run_alone(second, env, store, tasks),
            None => {
                values.push(Stream {
                    heads: ListOf::new(alloc),
                    tail: None,
                })?;
                Ok(())
            }
        }
    } else {
        split_both(alloc, first, second, env, store, tasks)
    }
}

// Runs a goal: its stream comes on the stack of streams, or the tasks that make it on the stack of
// tasks.
fn run_node<N: Nodes<St>, St: Store>(
    alloc: Global,
    program: &Program,
    goal: u32,
    env: Env,
    store: St,
    nodes: &mut N,
    tasks: &mut Vec<Task<St>>,
    values: &mut Vec<Stream<N::Id, St>>,
) -> Result<(), Memory>
    requires table { IsTableOf program.now (N.table nodes.old) }
    requires may { MayRun (programs.meaning program.now) (programs.goal program.now goal)
        (terms_of env) (St.meaning store) }
    requires belong { Each (HasStream (N.table nodes.old)) values.old.items }
    ensures becomes { OnOk result (Becomes (programs.meaning program.now)
        (pending.Task.run_at (programs.goal program.now goal) (terms_of env) (St.meaning store) ∷
        tasks_of program.now St.meaning tasks.old.items)
        (streams_of (N.table nodes.old) St.meaning values.old.items)
        (tasks_of program.now St.meaning tasks.new.items)
        (streams_of (N.table nodes.new) St.meaning values.new.items)) }
    ensures belong { OnOk result (Each (HasStream (N.table nodes.new)) values.new.items) }
    ensures adds { OnlyAdds (N.table nodes.old) (N.table nodes.new) }
{
    let node = program.goal_node(goal);
    match node {
        GoalNode::Both(first, second) => {
            run_both(
                alloc, program, first, second, env, store, nodes, tasks, values,
            )
        }
        GoalNode::Either(left, right) => split_either(alloc, left, right, env, store, tasks),
        GoalNode::Fresh(count, body) => split_fresh(alloc, count, body, env, store, tasks),
        _ => {
            let stream = atomic_stream(alloc, program, node, env, store, nodes)?;
            values.push(stream)?;
            Ok(())
        }
    }
}

// Appends the two streams on top.
fn append_top<N: Nodes<St>, St: Store>(
    alloc: Global,
    nodes: &mut N,
    values: &mut Vec<Stream<N::Id, St>>,
) -> Result<(), Memory>
    requires two { 2 ≤ length values.old.items }
    requires belong { Each (HasStream (N.table nodes.old)) values.old.items }
    ensures becomes { OnOk result ((p : goals.Program) (ts : List pending.Task) → Becomes p
        (pending.Task.append_two ∷ ts)
        (streams_of (N.table nodes.old) St.meaning values.old.items) ts
        (streams_of (N.table nodes.new) St.meaning values.new.items)) }
    ensures belong { OnOk result (Each (HasStream (N.table nodes.new)) values.new.items) }
    ensures adds { OnlyAdds (N.table nodes.old) (N.table nodes.new) }
{
    let Some(left) = values.pop() else {
        unreachable!()
    };
    let Some(right) = values.pop() else {
        unreachable!()
    };
    let stream = append(alloc, left, right, nodes)?;
    values.push(stream)?;
    Ok(())
}

// Appends the empty stream to the one on top.
fn append_empty_to_top<N: Nodes<St>, St: Store>(
    alloc: Global,
    nodes: &mut N,
    values: &mut Vec<Stream<N::Id, St>>,
) -> Result<(), Memory>
    requires one { 0 < length values.old.items }
    requires belong { Each (HasStream (N.table nodes.old)) values.old.items }
    ensures becomes { OnOk result ((p : goals.Program) (ts : List pending.Task) → Becomes p
        (pending.Task.append_empty ∷ ts)
        (streams_of (N.table nodes.old) St.meaning values.old.items) ts
        (streams_of (N.table nodes.new) St.meaning values.new.items)) }
    ensures belong { OnOk result (Each (HasStream (N.table nodes.new)) values.new.items) }
    ensures adds { OnlyAdds (N.table nodes.old) (N.table nodes.new) }
{
    let Some(left) = values.pop() else {
        unreachable!()
    };
    let stream = append_empty(alloc, left, nodes)?;
    values.push(stream)?;
    Ok(())
}

// The stream of a goal that waits for the stores of a suspension.
fn waiting<N: Nodes<St>, St: Store>(
    alloc: Global,
    program: &Program,
    goal: u32,
    env: Env,
    inner: N::Id,
    nodes: &mut N,
) -> Result<Stream<N::Id, St>, Memory>
    requires table { IsTableOf program.now (N.table nodes.old) }
    requires is { IsOf (programs.meaning program.now) (programs.goal program.now goal)
        (terms_of env) }
    requires below { list_all (all_below (floor ((N.table nodes.old).tree inner))) (terms_of env)
        ≡ true }
    requires belongs { (N.table nodes.old).belongs inner }
    ensures made { IfOk result (λ made. stream_in (N.table nodes.new) St.meaning made
        ≡ model.Stream.goes_on [] (model.Thunk.bind (programs.goal program.now goal) (terms_of env)
        ((N.table nodes.old).tree inner))) }
    ensures belong { IfOk result (HasStream (N.table nodes.new)) }
    ensures adds { OnlyAdds (N.table nodes.old) (N.table nodes.new) }
{
    let id = nodes.suspend(Thunk::Bind { goal, env, inner })?;
    Ok(Stream {
        heads: ListOf::new(alloc),
        tail: Some(id),
    })
}

// What waits behind the stores of a stream that a goal is bound to.
fn bound_tail<N: Nodes<St>, St: Store>(
    alloc: Global,
    program: &Program,
    goal: u32,
    env: &Env,
    tail: Option<N::Id>,
    nodes: &mut N,
) -> Result<Stream<N::Id, St>, Memory>
    requires table { IsTableOf program.now (N.table nodes.old) }
    requires is { IsOf (programs.meaning program.now) (programs.goal program.now goal)
        (terms_of env.now) }
    requires below { AreBelowRest (terms_of env.now)
        (going_on [] (option_map (N.table nodes.old).tree tail)) }
    requires belong { IfSome tail (N.table nodes.old).belongs }
    ensures made { IfOk result (λ made. stream_in (N.table nodes.new) St.meaning made
        ≡ bound_last (programs.goal program.now goal) (terms_of env.now)
        (going_on [] (option_map (N.table nodes.old).tree tail))) }
    ensures belong { IfOk result (HasStream (N.table nodes.new)) }
    ensures adds { OnlyAdds (N.table nodes.old) (N.table nodes.new) }
{
    match tail {
        None => Ok(Stream {
            heads: ListOf::new(alloc),
            tail: None,
        }),
        Some(inner) => {
            let env = env.again(alloc)?;
            let made = waiting(alloc, program, goal, env, inner, nodes)?;
            Ok(made)
        }
    }
}

// Binds a goal to the stream on top.
fn bind_top<N: Nodes<St>, St: Store>(
    alloc: Global,
    program: &Program,
    goal: u32,
    env: Env,
    nodes: &mut N,
    tasks: &mut Vec<Task<St>>,
    values: &mut Vec<Stream<N::Id, St>>,
) -> Result<(), Memory>
    requires table { IsTableOf program.now (N.table nodes.old) }
    requires ready { AreReady (programs.meaning program.now)
        (pending.Task.bind_to (programs.goal program.now goal) (terms_of env) ∷ tasks_of program.now
        St.meaning tasks.old.items)
        (streams_of (N.table nodes.old) St.meaning values.old.items) }
    requires belong { Each (HasStream (N.table nodes.old)) values.old.items }
    ensures becomes { OnOk result (Becomes (programs.meaning program.now)
        (pending.Task.bind_to (programs.goal program.now goal) (terms_of env) ∷ tasks_of program.now
        St.meaning tasks.old.items)
        (streams_of (N.table nodes.old) St.meaning values.old.items)
        (tasks_of program.now St.meaning tasks.new.items)
        (streams_of (N.table nodes.new) St.meaning values.new.items)) }
    ensures belong { OnOk result (Each (HasStream (N.table nodes.new)) values.new.items) }
    ensures adds { OnlyAdds (N.table nodes.old) (N.table nodes.new) }
{
    let Some(stream) = values.pop() else {
        unreachable!()
    };
    let Stream { heads, tail } = stream;
    let last = bound_tail(alloc, program, goal, &env, tail, nodes)?;
    values.push(last)?;
    run_at_each(alloc, goal, env, heads, tasks)?;
    Ok(())
}

// Does one task.
fn take_task<N: Nodes<St>, St: Store>(
    alloc: Global,
    program: &Program,
    next: Task<St>,
    nodes: &mut N,
    tasks: &mut Vec<Task<St>>,
    values: &mut Vec<Stream<N::Id, St>>,
) -> Result<(), Memory>
    requires table { IsTableOf program.now (N.table nodes.old) }
    requires ready { AreReady (programs.meaning program.now)
        (task St.meaning (programs.goal program.now) next ∷ tasks_of program.now St.meaning
        tasks.old.items)
        (streams_of (N.table nodes.old) St.meaning values.old.items) }
    requires belong { Each (HasStream (N.table nodes.old)) values.old.items }
    ensures becomes { OnOk result (Becomes (programs.meaning program.now)
        (task St.meaning (programs.goal program.now) next ∷ tasks_of program.now St.meaning
        tasks.old.items)
        (streams_of (N.table nodes.old) St.meaning values.old.items)
        (tasks_of program.now St.meaning tasks.new.items)
        (streams_of (N.table nodes.new) St.meaning values.new.items)) }
    ensures belong { OnOk result (Each (HasStream (N.table nodes.new)) values.new.items) }
    ensures adds { OnlyAdds (N.table nodes.old) (N.table nodes.new) }
{
    match next {
        Task::Run { goal, env, store } => {
            run_node(alloc, program, goal, env, store, nodes, tasks, values)
        }
        Task::Append => append_top(alloc, nodes, values),
        Task::AppendEmpty => append_empty_to_top(alloc, nodes, values),
        Task::Bind { goal, env } => bind_top(alloc, program, goal, env, nodes, tasks, values),
    }
}

// Does all tasks, and takes the one stream that they leave.
fn finish<N: Nodes<St>, St: Store>(
    alloc: Global,
    program: &Program,
    nodes: &mut N,
    mut tasks: Vec<Task<St>>,
    mut values: Vec<Stream<N::Id, St>>,
) -> Result<Stream<N::Id, St>, Memory>
    requires table { IsTableOf program.now (N.table nodes.old) }
    requires ready { AreReady (programs.meaning program.now)
        (tasks_of program.now St.meaning tasks.items)
        (streams_of (N.table nodes.old) St.meaning values.items) }
    requires one { length (streams_after (tasks_of program.now St.meaning tasks.items)
        (streams_of (N.table nodes.old) St.meaning values.items)) ≡ 1 }
    requires belong { Each (HasStream (N.table nodes.old)) values.items }
    ensures made { IfOk result (λ made. streams_after (tasks_of program.now St.meaning tasks.items)
        (streams_of (N.table nodes.old) St.meaning values.items)
        ≡ stream_in (N.table nodes.new) St.meaning made ∷ []) }
    ensures belong { IfOk result (HasStream (N.table nodes.new)) }
    ensures adds { OnlyAdds (N.table nodes.old) (N.table nodes.new) }
{
    while let Some(next) = tasks.pop() {
        take_task(alloc, program, next, nodes, &mut tasks, &mut values)?;
    }
    match values.pop() {
        Some(stream) => Ok(stream),
        None => unreachable!(),
    }
}

// A stack with nothing on it yet, and room for what most goals put there, so that it seldom moves
// while it grows.
fn empty_stack<T: Drop>(alloc: Global) -> Result<Vec<T>, Memory>
    ensures { IfOk result (λ stack. stack.items ≡ []) }
{
    let stack = Vec::with_capacity(alloc, 8)?;
    Ok(stack)
}

// The stream of a goal at a store, with an environment of its own.
pub(crate) fn run_with<N: Nodes<St>, St: Store>(
    alloc: Global,
    program: &Program,
    goal: u32,
    env: Env,
    store: St,
    nodes: &mut N,
) -> Result<Stream<N::Id, St>, Memory>
    requires table { IsTableOf program.now (N.table nodes.old) }
    requires is { IsOf (programs.meaning program.now) (programs.goal program.now goal)
        (terms_of env) }
    requires below { list_all (all_below (St.meaning store).counter) (terms_of env) ≡ true }
    requires room { (St.meaning store).counter ≤ 2 ^ 62 }
    ensures made { IfOk result (λ made. stream_in (N.table nodes.new) St.meaning made ≡ run
        (programs.goal program.now goal) (terms_of env) (St.meaning store)) }
    ensures belong { IfOk result (HasStream (N.table nodes.new)) }
    ensures adds { OnlyAdds (N.table nodes.old) (N.table nodes.new) }
{
    let mut tasks = empty_stack(alloc)?;
    tasks.push(Task::Run { goal, env, store })?;
    let values = empty_stack(alloc)?;
    let made = finish(alloc, program, nodes, tasks, values)?;
    Ok(made)
}

/// The stream of a goal at a store, with the slots standing for the environment's terms.
///
/// A solution of the store at whose values the goal has a derivation is found: a store with a
/// solution that begins with it comes within the derivation's pulls.
pub fn run_goal<N: Nodes<St>, St: Store>(
    alloc: Global,
    program: &Program,
    goal: u32,
    env: &Env,
    store: St,
    nodes: &mut N,
) -> Result<Stream<N::Id, St>, Memory>
    requires table { IsTableOf program.now (N.table nodes.old) }
    requires there { goal < length (programs.goals program.now) }
    requires slots { in_scope (length (terms_of env.now)) (programs.goal program.now goal) ≡ true }
    requires below { list_all (all_below (St.meaning store).counter) (terms_of env.now) ≡ true }
    requires room { (St.meaning store).counter ≤ 2 ^ 62 }
    ensures made { IfOk result (λ made. stream_in (N.table nodes.new) St.meaning made ≡ run
        (programs.goal program.now goal) (terms_of env.now) (St.meaning store)) }
    ensures belong { IfOk result (HasStream (N.table nodes.new)) }
    ensures fits { IfOk result (λ made. TailFits (programs.meaning program.now)
        (St.meaning store).counter
        ((St.meaning store).counter + width (programs.goal program.now goal))
        (stream_in (N.table nodes.new) St.meaning made)) }
    ensures finds { IfOk result (λ made. FindsSolutions (programs.meaning program.now)
        (programs.goal program.now goal) (terms_of env.now) (St.meaning store)
        (stream_in (N.table nodes.new) St.meaning made)) }
    ensures few { IfOk result (λ made. GivesFew (programs.meaning program.now)
        (programs.goal program.now goal) (stream_in (N.table nodes.new) St.meaning made)) }
    ensures adds { OnlyAdds (N.table nodes.old) (N.table nodes.new) }
{
    let env = env.again(alloc)?;
    let made = run_with(alloc, program, goal, env, store, nodes)?;
    Ok(made)
}

// The streams of a goal at each store of a stream, appended, with an environment of the goal's own;
// nothing is run where the stream has no stores yet.
pub(crate) fn bind_with<N: Nodes<St>, St: Store>(
    alloc: Global,
    program: &Program,
    goal: u32,
    env: Env,
    stream: Stream<N::Id, St>,
    nodes: &mut N,
) -> Result<Stream<N::Id, St>, Memory>
    requires table { IsTableOf program.now (N.table nodes.old) }
    requires is { IsOf (programs.meaning program.now) (programs.goal program.now goal)
        (terms_of env) }
    requires room { Each (AreBelow (terms_of env)) (map St.meaning stream.heads) }
    requires below { AreBelowRest (terms_of env) (stream_in (N.table nodes.old) St.meaning stream) }
    requires belong { HasStream (N.table nodes.old) stream }
    ensures made { IfOk result (λ made. stream_in (N.table nodes.new) St.meaning made
        ≡ model.bind_all (run (programs.goal program.now goal) (terms_of env))
        (programs.goal program.now goal) (terms_of env)
        (stream_in (N.table nodes.old) St.meaning stream)) }
    ensures belong { IfOk result (HasStream (N.table nodes.new)) }
    ensures adds { OnlyAdds (N.table nodes.old) (N.table nodes.new) }
{
    if stream.heads.is_empty() {
        let Stream { heads, tail } = stream;
        return match tail {
            None => Ok(Stream { heads, tail: None }),
            Some(inner) => waiting(alloc, program, goal, env, inner, nodes),
        };
    }
    let mut tasks = empty_stack(alloc)?;
    tasks.push(Task::Bind { goal, env })?;
    let mut values = empty_stack(alloc)?;
    values.push(stream)?;
    let made = finish(alloc, program, nodes, tasks, values)?;
    Ok(made)
}

/// The streams of a goal at each store of a stream, appended; the goal waits for the stores that
/// come later.
pub fn bind_all<N: Nodes<St>, St: Store>(
    alloc: Global,
    program: &Program,
    goal: u32,
    env: &Env,
    stream: Stream<N::Id, St>,
    nodes: &mut N,
) -> Result<Stream<N::Id, St>, Memory>
    requires table { IsTableOf program.now (N.table nodes.old) }
    requires is { IsOf (programs.meaning program.now) (programs.goal program.now goal)
        (terms_of env.now) }
    requires room { Each (AreBelow (terms_of env.now)) (map St.meaning stream.heads) }
    requires below { AreBelowRest (terms_of env.now)
        (stream_in (N.table nodes.old) St.meaning stream) }
    requires belong { HasStream (N.table nodes.old) stream }
    ensures made { IfOk result (λ made. stream_in (N.table nodes.new) St.meaning made
        ≡ model.bind_all (run (programs.goal program.now goal) (terms_of env.now))
        (programs.goal program.now goal) (terms_of env.now)
        (stream_in (N.table nodes.old) St.meaning stream)) }
    ensures belong { IfOk result (HasStream (N.table nodes.new)) }
    ensures fits { IfOk result (λ made. FitsAsBound (programs.meaning program.now)
        (programs.goal program.now goal) (terms_of env.now)
        (stream_in (N.table nodes.old) St.meaning stream)
        (stream_in (N.table nodes.new) St.meaning made)) }
    ensures adds { OnlyAdds (N.table nodes.old) (N.table nodes.new) }
{
    let env = env.again(alloc)?;
    let made = bind_with(alloc, program, goal, env, stream, nodes)?;
    Ok(made)
}
