//! Forcing suspensions.

ghost use Rattle.std.specs.Prelude.{◌≡◌, ◌≤◌, ◌^◌, true, false, slice_get, IfOk, OnOk, OnErr};
ghost use Rattle.std.specs.Prelude.{IfSome};
ghost use Rattle.kan_model.specs.Streams.Stream as model;
ghost use Rattle.kan_model.specs.Streams.Running.{enter, force as forced};
ghost use Rattle.kan_model.specs.Streams.Bounds.{top, floor};
ghost use Rattle.kan_model.specs.Programs.Environments.{terms_of};
ghost use Rattle.kan_model.specs.Programs.Closed as programs;
ghost use Rattle.stream_core.specs.CounterBounds.{TailFits};
ghost use Rattle.stream_core.specs.InnerSuspensions.{inner_of, has_inner, MayForce, IsInside};
ghost use Rattle.stream_core.specs.Tables.{IsTableOf, OnlyAdds, Grows, GrowsBy, KeepsMore};
ghost use Rattle.stream_core.specs.Tables.{KeepsWay, BothTold, HasStream, HasThunk, stream_in};
ghost use Rattle.stream_core.specs.Tables.{thunk_in, IsForce};
ghost use Rattle.stream_core.specs.CodeTasks.{stack};
ghost use Rattle.stream_core.specs.PathDown.{IsPathFrom, IsNext, EndsPath, Leads};

use crate::appending::append;
use crate::copies::thunk_again;
use crate::nodes::Nodes;
use crate::running::{bind_with, run_with};
use crate::streams::{Stream, Thunk};
use kan_model::{Env, Program, Store};
use kan_terms::{ListOf, Memory};
use std::alloc::Global;

// The stream of a call: that of the relation's body.
fn enter_call<N: Nodes<St>, St: Store>(
    alloc: Global,
    program: &Program,
    rel: u32,
    args: Env,
    store: St,
    nodes: &mut N,
) -> Result<Stream<N::Id, St>, Memory>
    requires table { IsTableOf program.now (N.table nodes.old) }
    requires may { MayForce (programs.meaning program.now)
        (model.Thunk.call rel (terms_of args) (St.meaning store)) }
    ensures made { IfOk result (λ made. stream_in (N.table nodes.new) St.meaning made
        ≡ enter (slice_get (programs.meaning program.now).relations rel) (terms_of args)
        (St.meaning store)) }
    ensures belong { IfOk result (HasStream (N.table nodes.new)) }
    ensures adds { OnlyAdds (N.table nodes.old) (N.table nodes.new) }
{
    match program.relation(rel) {
        Some(relation) => {
            let made = run_with(alloc, program, relation.body, args, store, nodes)?;
            Ok(made)
        }
        None => Ok(Stream {
            heads: ListOf::new(alloc),
            tail: None,
        }),
    }
}

// The force of a suspension that has none inside.
pub(crate) fn expand<N: Nodes<St>, St: Store>(
    alloc: Global,
    program: &Program,
    thunk: Thunk<N::Id, St>,
    nodes: &mut N,
) -> Result<Stream<N::Id, St>, Memory>
    requires table { IsTableOf program.now (N.table nodes.old) }
    requires may { MayForce (N.table nodes.old).program
        (thunk_in (N.table nodes.old) St.meaning thunk) }
    requires last { has_inner (thunk_in (N.table nodes.old) St.meaning thunk) ≡ false }
    ensures made { IfOk result (λ made. stream_in (N.table nodes.new) St.meaning made
        ≡ forced (N.table nodes.old).program (thunk_in (N.table nodes.old) St.meaning thunk)) }
    ensures belong { IfOk result (HasStream (N.table nodes.new)) }
    ensures adds { OnlyAdds (N.table nodes.old) (N.table nodes.new) }
{
    match thunk {
        Thunk::Call { rel, args, store } => {
            let made = enter_call(alloc, program, rel, args, store, nodes)?;
            Ok(made)
        }
        Thunk::Pause { goal, env, store } => {
            let made = run_with(alloc, program, goal, env, store, nodes)?;
            Ok(made)
        }
        _ => unreachable!(),
    }
}

// The force of a suspension, where that of the one inside is there.
fn go_around<N: Nodes<St>, St: Store>(
    alloc: Global,
    program: &Program,
    thunk: Thunk<N::Id, St>,
    inside: Stream<N::Id, St>,
    nodes: &mut N,
) -> Result<Stream<N::Id, St>, Memory>
    requires table { IsTableOf program.now (N.table nodes.old) }
    requires belong { HasThunk (N.table nodes.old) thunk }
    requires may { MayForce (N.table nodes.old).program
        (thunk_in (N.table nodes.old) St.meaning thunk) }
    requires around { has_inner (thunk_in (N.table nodes.old) St.meaning thunk) ≡ true }
    requires inside { IsForce (N.table nodes.old) St.meaning
        (inner_of (thunk_in (N.table nodes.old) St.meaning thunk)) inside }
    ensures made { IfOk result (λ made. stream_in (N.table nodes.new) St.meaning made
        ≡ forced (N.table nodes.old).program (thunk_in (N.table nodes.old) St.meaning thunk)) }
    ensures belong { IfOk result (HasStream (N.table nodes.new)) }
    ensures adds { OnlyAdds (N.table nodes.old) (N.table nodes.new) }
{
    match thunk {
        Thunk::Swap {
            heads,
            tail,
            inner: _,
        } => {
            let made = append(alloc, Stream { heads, tail }, inside, nodes)?;
            Ok(made)
        }
        Thunk::Bind {
            goal,
            env,
            inner: _,
        } => {
            let made = bind_with(alloc, program, goal, env, inside, nodes)?;
            Ok(made)
        }
        _ => unreachable!(),
    }
}

// The id of what is inside a suspension, and None exactly where it has none inside.
fn inner_again<N: Nodes<St>, St: Store>(nodes: &N, id: &N::Id) -> Result<Option<N::Id>, Memory>
    requires { (N.table nodes.now).belongs id.now }
    ensures { IfOk result (IsInside (N.table nodes.now) id.now) }
{
    match nodes.thunk(id) {
        Thunk::Call {
            rel: _,
            args: _,
            store: _,
        } => Ok(None),
        Thunk::Pause {
            goal: _,
            env: _,
            store: _,
        } => Ok(None),
        Thunk::Swap {
            heads: _,
            tail: _,
            inner,
        } => {
            let inner = nodes.again(inner)?;
            Ok(Some(inner))
        }
        Thunk::Bind {
            goal: _,
            env: _,
            inner,
        } => {
            let around = nodes.again(inner)?;
            Ok(Some(around))
        }
    }
}

// A path down from a suspension: the ids of those that have one inside, each inside the one before
// it, then the last one, and its stream, where that was found. Where it wasn't, the last one has
// none inside.
#[derive(Drop)]
struct Path<I, St> {
    above: Vec<I>,
    last: I,
    found: Option<Stream<I, St>>,
}

// The path down from a suspension to the first whose stream is found, or to the one that has none
// inside.
fn path_down<N: Nodes<St>, St: Store>(
    alloc: Global,
    nodes: &N,
    id: &N::Id,
) -> Result<Path<N::Id, St>, Memory>
    requires belongs { (N.table nodes.now).belongs id.now }
    requires may { MayForce (N.table nodes.now).program ((N.table nodes.now).tree id.now) }
    ensures above { IfOk result (λ path. IsPathFrom (N.table nodes.now)
        ((N.table nodes.now).tree id.now) path.above.items) }
    ensures last { IfOk result (λ path. IsNext (N.table nodes.now) ((N.table nodes.now).tree id.now)
        path.above.items path.last) }
    ensures end { IfOk result (λ path. EndsPath (N.table nodes.now) St.meaning path.last
        path.found) }
    ensures leads { IfOk result (λ path. IfSome (N.table nodes.now).told
        (λ told. Leads told.inner id.now (stack (λ at. at) path.above.items) path.last)) }
{
    let mut above = Vec::new(alloc);
    let mut last = nodes.again(id)?;
    'down: loop {
        if let Some(stream) = nodes.found(alloc, &last)? {
            return Ok(Path {
                above,
                last,
                found: Some(stream),
            });
        }
        match inner_again(nodes, &last)? {
            Some(inside) => {
                above.push(last)?;
                last = inside;
            }
            None => {
                return Ok(Path {
                    above,
                    last,
                    found: None,
                });
            }
        }
    }
}

// The force of the last id on a path: the one that was found, or else one call or pause is
// expanded, and the stream kept.
fn force_last<N: Nodes<St>, St: Store>(
    alloc: Global,
    program: &Program,
    last: &N::Id,
    found: Option<Stream<N::Id, St>>,
    nodes: &mut N,
) -> Result<Stream<N::Id, St>, Memory>
    requires table { IsTableOf program.now (N.table nodes.old) }
    requires belongs { (N.table nodes.old).belongs last.now }
    requires may { MayForce (N.table nodes.old).program ((N.table nodes.old).tree last.now) }
    requires end { EndsPath (N.table nodes.old) St.meaning last.now found }
    ensures force { IfOk result (IsForce (N.table nodes.new) St.meaning
        ((N.table nodes.old).tree last.now)) }
    ensures kept { OnOk result (GrowsBy (KeepsMore last.now) (N.table nodes.old)
        (N.table nodes.new)) }
    ensures unchanged { OnErr result (OnlyAdds (N.table nodes.old) (N.table nodes.new)) }
{
    match found {
        Some(stream) => Ok(stream),
        None => {
            let thunk = thunk_again(alloc, nodes, last)?;
            let made = expand(alloc, program, thunk, nodes)?;
            let kept = nodes.keep(alloc, last, made)?;
            Ok(kept)
        }
    }
}

// The force of an id on a path, where that of the one inside is there. It is kept.
fn force_around<N: Nodes<St>, St: Store>(
    alloc: Global,
    program: &Program,
    at: &N::Id,
    inside: Stream<N::Id, St>,
    nodes: &mut N,
) -> Result<Stream<N::Id, St>, Memory>
    requires table { IsTableOf program.now (N.table nodes.old) }
    requires belongs { (N.table nodes.old).belongs at.now }
    requires may { MayForce (N.table nodes.old).program ((N.table nodes.old).tree at.now) }
    requires around { has_inner ((N.table nodes.old).tree at.now) ≡ true }
    requires inside { IsForce (N.table nodes.old) St.meaning
        (inner_of ((N.table nodes.old).tree at.now)) inside }
    ensures force { IfOk result (IsForce (N.table nodes.new) St.meaning
        ((N.table nodes.old).tree at.now)) }
    ensures kept { OnOk result (GrowsBy (KeepsMore at.now) (N.table nodes.old)
        (N.table nodes.new)) }
    ensures unchanged { OnErr result (OnlyAdds (N.table nodes.old) (N.table nodes.new)) }
{
    let thunk = thunk_again(alloc, nodes, at)?;
    let made = go_around(alloc, program, thunk, inside, nodes)?;
    let kept = nodes.keep(alloc, at, made)?;
    Ok(kept)
}

/// The force of a suspension: one call or pause is expanded. What is found on the way down to it is
/// used, and each stream that is made on the way up is kept for its id.
pub fn force<N: Nodes<St>, St: Store>(
    alloc: Global,
    program: &Program,
    id: &N::Id,
    nodes: &mut N,
) -> Result<Stream<N::Id, St>, Memory>
    requires table { IsTableOf program.now (N.table nodes.old) }
    requires belongs { (N.table nodes.old).belongs id.now }
    requires room { top ((N.table nodes.old).tree id.now) ≤ 2 ^ 62 }
    ensures force { IfOk result (IsForce (N.table nodes.new) St.meaning
        ((N.table nodes.old).tree id.now)) }
    ensures fits { IfOk result (λ made. TailFits (programs.meaning program.now)
        (floor ((N.table nodes.old).tree id.now))
        (top ((N.table nodes.old).tree id.now)) (stream_in (N.table nodes.new) St.meaning made)) }
    ensures kept { OnOk result (BothTold (KeepsWay (N.table nodes.old).belongs id.now)
        (N.table nodes.old).told (N.table nodes.new).told) }
    ensures grows { Grows (N.table nodes.old) (N.table nodes.new) }
{
    let path = path_down(alloc, nodes, id)?;
    let Path {
        mut above,
        last,
        found,
    } = path;
    let mut stream = force_last(alloc, program, &last, found, nodes)?;
    while let Some(at) = above.pop() {
        stream = force_around(alloc, program, &at, stream, nodes)?;
    }
    Ok(stream)
}
