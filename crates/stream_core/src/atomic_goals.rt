//! Goals that run no others.

ghost use Rattle.std.specs.Prelude.{◌≡◌, ◌+◌, ◌≤◌, ◌^◌, [], true, IfOk};
ghost use Rattle.std.specs.List.{list_all};
ghost use Rattle.kan_model.specs.Streams.Stream as model;
ghost use Rattle.kan_model.specs.Streams.Running.{run};
ghost use Rattle.kan_model.specs.Programs.Scope.{all_below, width};
ghost use Rattle.kan_model.specs.Programs.Nodes.{goal_entry};
ghost use Rattle.kan_model.specs.Programs.Environments.{terms_of};
ghost use Rattle.kan_model.specs.Programs.Closed as programs;
ghost use Rattle.kan_model.specs.Programs.Closed.{ArgumentsPlaced};
ghost use Rattle.stream_core.specs.AtomicGoals.{is_atomic};
ghost use Rattle.stream_core.specs.Tasks.{IsOf};
ghost use Rattle.stream_core.specs.Tables.{IsTableOf, OnlyAdds, HasStream, stream_in};

use crate::asserting::stores_at_once;
use crate::call_goals::{Call, call_stream};
use crate::nodes::Nodes;
use crate::streams::{Stream, Thunk};
use kan_model::{Env, GoalNode, Program, Store};
use kan_terms::{ListOf, Memory};
use std::alloc::Global;

// The stream that goes on with a goal.
fn paused<N: Nodes<St>, St: Store>(
    alloc: Global,
    program: &Program,
    goal: u32,
    env: Env,
    store: St,
    nodes: &mut N,
) -> Result<Stream<N::Id, St>, Memory>
    requires table { IsTableOf program.now (N.table nodes.old) }
    requires is { IsOf (programs.meaning program.now) (programs.goal program.now goal)
        (terms_of env) }
    requires below { list_all (all_below (St.meaning store).counter) (terms_of env) ≡ true }
    ensures made { IfOk result (λ made. stream_in (N.table nodes.new) St.meaning made
        ≡ model.Stream.goes_on [] (model.Thunk.pause (programs.goal program.now goal) (terms_of env)
        (St.meaning store))) }
    ensures belong { IfOk result (HasStream (N.table nodes.new)) }
    ensures adds { OnlyAdds (N.table nodes.old) (N.table nodes.new) }
{
    let tail = nodes.suspend(Thunk::Pause { goal, env, store })?;
    Ok(Stream {
        heads: ListOf::new(alloc),
        tail: Some(tail),
    })
}

// The stream of a goal that runs no others.
pub(crate) fn atomic_stream<N: Nodes<St>, St: Store>(
    alloc: Global,
    program: &Program,
    node: GoalNode,
    env: Env,
    store: St,
    nodes: &mut N,
) -> Result<Stream<N::Id, St>, Memory>
    requires table { IsTableOf program.now (N.table nodes.old) }
    requires atomic { is_atomic (goal_entry node) ≡ true }
    requires placed { ArgumentsPlaced program.now (goal_entry node) }
    requires is { IsOf (programs.meaning program.now)
        (programs.entry_goal program.now (goal_entry node)) (terms_of env) }
    requires below { list_all (all_below (St.meaning store).counter) (terms_of env) ≡ true }
    requires room { (St.meaning store).counter + width
        (programs.entry_goal program.now (goal_entry node)) ≤ 2 ^ 63 }
    ensures made { IfOk result (λ made. stream_in (N.table nodes.new) St.meaning made
        ≡ run (programs.entry_goal program.now (goal_entry node)) (terms_of env)
        (St.meaning store)) }
    ensures belong { IfOk result (HasStream (N.table nodes.new)) }
    ensures adds { OnlyAdds (N.table nodes.old) (N.table nodes.new) }
{
    match node {
        GoalNode::Later(goal) => paused(alloc, program, goal, env, store, nodes),
        GoalNode::Call(rel, at, count) => {
            call_stream(alloc, program, Call { rel, at, count }, &env, store, nodes)
        }
        _ => Ok(Stream {
            heads: stores_at_once(alloc, program, node, &env, store)?,
            tail: None,
        }),
    }
}
