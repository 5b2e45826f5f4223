//! Forcing suspensions that are given up, so that what they hold moves into the stream.

ghost use Rattle.std.specs.Prelude.{◌≡◌, ◌≤◌, ◌^◌, IfOk};
ghost use Rattle.kan_model.specs.Streams.Bounds.{top, floor};
ghost use Rattle.kan_model.specs.Programs.Closed as programs;
ghost use Rattle.kan_model.specs.Streams.Stream.{Thunk as Suspension};
ghost use Rattle.stream_core.specs.CounterBounds.{TailFits};
ghost use Rattle.stream_core.specs.CodeSurroundings.{StandsInnermost, MayForceInnermost};
ghost use Rattle.stream_core.specs.Tables.{IsTableOf, Grows, IsForce, stream_in};

use crate::forcing::{expand, force};
use crate::nodes::{Closed, Innermost, Nodes, Parted};
use crate::running::bind_with;
use crate::streams::Stream;
use kan_model::{Program, Store};
use kan_terms::Memory;
use std::alloc::Global;

// The force of the innermost suspension.
fn force_innermost<N: Nodes<St>, St: Store>(
    alloc: Global,
    program: &Program,
    innermost: Innermost<N::Id, St>,
    nodes: &mut N,
) -> Result<Stream<N::Id, St>, Memory>
    requires table { IsTableOf program.now (N.table nodes.old) }
    requires may { MayForceInnermost (N.table nodes.old) St.meaning innermost }
    ensures force { IfOk result (λ made. (tree : Suspension) →
        StandsInnermost (N.table nodes.old) St.meaning tree innermost →
        IsForce (N.table nodes.new) St.meaning tree made) }
    ensures grows { Grows (N.table nodes.old) (N.table nodes.new) }
{
    match innermost {
        Innermost::Last(thunk) => {
            let made = expand(alloc, program, thunk, nodes)?;
            Ok(made)
        }
        Innermost::Shared(id) => {
            let found = force(alloc, program, &id, nodes)?;
            Ok(found)
        }
    }
}

/// The force of a suspension whose id is given up: one call or pause is expanded. What the id alone
/// has is used again.
pub fn force_once<N: Nodes<St>, St: Store>(
    alloc: Global,
    program: &Program,
    id: N::Id,
    nodes: &mut N,
) -> Result<Stream<N::Id, St>, Memory>
    requires table { IsTableOf program.now (N.table nodes.old) }
    requires belongs { (N.table nodes.old).belongs id }
    requires room { top ((N.table nodes.old).tree id) ≤ 2 ^ 62 }
    ensures force { IfOk result (IsForce (N.table nodes.new) St.meaning
        ((N.table nodes.old).tree id)) }
    ensures fits { IfOk result (λ made. TailFits (programs.meaning program.now)
        (floor ((N.table nodes.old).tree id)) (top ((N.table nodes.old).tree id))
        (stream_in (N.table nodes.new) St.meaning made)) }
    ensures grows { Grows (N.table nodes.old) (N.table nodes.new) }
{
    let parted = nodes.part(id);
    let Parted {
        mut around,
        innermost,
    } = parted;
    let mut inside = force_innermost(alloc, program, innermost, nodes)?;
    loop {
        let closed = nodes.close(alloc, around, inside)?;
        match closed {
            Closed::Made(made) => return Ok(made),
            Closed::Run {
                goal,
                env,
                stream,
                around: outer,
            } => {
                inside = bind_with(alloc, program, goal, env, stream, nodes)?;
                around = outer;
            }
        }
    }
}
