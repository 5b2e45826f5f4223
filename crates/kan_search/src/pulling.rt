//! The streams of a run: the one that it begins with, and the one that a pull gives.

ghost use Rattle.std.specs.Prelude.{◌≡◌, ◌+◌, ◌≤◌, ◌^◌, [], ◌∷◌, reverse, true, IfOk, IfSome};
ghost use Rattle.kan_model.specs.Streams.Bounds.{top};
ghost use Rattle.kan_model.specs.Streams.Running as running;
ghost use Rattle.kan_model.specs.Programs.Tables.{are_closed};
ghost use Rattle.kan_model.specs.Programs.Closed as programs;
ghost use Rattle.stream_core.specs.Tables.{IsTableOf, Grows};
ghost use Rattle.kan_search.specs.Suspensions.{LeavesRoom, pulled_stream};

use kan_model::{Env, Program, Store};
use kan_terms::Memory;
use std::alloc::Global;
use stream_core::{Nodes, Stream, force_once, reversed, run_goal};

// Stores of a stream, the next one last, and how it goes on behind them.
#[derive(Drop)]
pub(crate) struct Pulled<I, St> {
    pub(crate) heads: Vec<St>,
    pub(crate) tail: Option<I>,
}

// A stream with its stores turned.
fn turned<I: Drop, St: Drop>(alloc: Global, stream: Stream<I, St>) -> Result<Pulled<I, St>, Memory>
    ensures heads { IfOk result (λ pulled. pulled.heads.items ≡ reverse stream.heads) }
    ensures tail { IfOk result (λ pulled. pulled.tail ≡ stream.tail) }
{
    let Stream { heads, tail } = stream;
    let heads = reversed(alloc, heads)?;
    Ok(Pulled { heads, tail })
}

// The stream that a run begins with.
pub(crate) fn start<N: Nodes<St>, St: Store>(
    alloc: Global,
    program: &Program,
    goal: u32,
    nodes: &mut N,
) -> Result<Pulled<N::Id, St>, Memory>
    requires closed { are_closed (programs.tables program.now) (goal ∷ []) ≡ true }
    requires table { IsTableOf program.now (N.table nodes.old) }
    ensures made { IfOk result (λ made. pulled_stream (N.table nodes.new).tree St.meaning
        made.heads.items made.tail ≡ running.start (programs.goal program.now goal)) }
    ensures belong { IfOk result (λ made. IfSome made.tail (N.table nodes.new).belongs) }
    ensures room { IfOk result (λ made. IfSome made.tail
        (λ next. LeavesRoom 0 ((N.table nodes.new).tree next))) }
    ensures grows { Grows (N.table nodes.old) (N.table nodes.new) }
{
    let env = Env::start(alloc, 0)?;
    let none = St::empty(alloc)?;
    let store = none.fresh_owned(alloc, 1)?;
    let stream = run_goal(alloc, program, goal, &env, store, nodes)?;
    let pulled = turned(alloc, stream)?;
    Ok(pulled)
}

// The stream that a pull gives.
pub(crate) fn pull<N: Nodes<St>, St: Store>(
    alloc: Global,
    program: &Program,
    id: N::Id,
    nodes: &mut N,
) -> Result<Pulled<N::Id, St>, Memory>
    requires table { IsTableOf program.now (N.table nodes.old) }
    requires belongs { (N.table nodes.old).belongs id }
    requires room { top ((N.table nodes.old).tree id) ≤ 2 ^ 62 }
    ensures made { IfOk result (λ made. pulled_stream (N.table nodes.new).tree St.meaning
        made.heads.items made.tail
        ≡ running.force (programs.meaning program.now) ((N.table nodes.old).tree id)) }
    ensures belong { IfOk result (λ made. IfSome made.tail (N.table nodes.new).belongs) }
    ensures room { IfOk result (λ made. IfSome made.tail
        (λ next. top ((N.table nodes.new).tree next)
        ≤ top ((N.table nodes.old).tree id) + 2 ^ 21)) }
    ensures grows { Grows (N.table nodes.old) (N.table nodes.new) }
{
    let stream = force_once(alloc, program, id, nodes)?;
    let pulled = turned(alloc, stream)?;
    Ok(pulled)
}
