//! Goals that call a relation: their arguments get names, and the call waits.

ghost use Rattle.std.specs.Prelude.{◌≡◌, length, ◌+◌, ◌≤◌, ◌^◌, map, take, drop, true, slice_get};
ghost use Rattle.std.specs.Prelude.{IfOk};
ghost use Rattle.std.specs.List.{list_all};
ghost use Rattle.kan_terms.specs.Tree.{Tree};
ghost use Rattle.kan_terms.specs.Terms.{tree};
ghost use Rattle.kan_model.specs.Streams.Running.{instances, name_pairs, named_store};
ghost use Rattle.kan_model.specs.Streams.Running.{suspended_call};
ghost use Rattle.kan_model.specs.Programs.Scope.{all_below, takes};
ghost use Rattle.kan_model.specs.Programs.Environments.{terms_of};
ghost use Rattle.kan_model.specs.Programs.Closed as programs;
ghost use Rattle.stream_core.specs.CallArguments.{NamesOne, NamesFirst, IsPlaced, arguments_of};
ghost use Rattle.stream_core.specs.Tables.{IsTableOf, OnlyAdds, HasStream, stream_in};

use crate::nodes::Nodes;
use crate::streams::{Stream, Thunk};
use kan_model::{Env, Prim, Program, Store};
use kan_terms::{ListOf, Memory, Term};
use std::alloc::Global;

// A call: its relation, and the place and number of its arguments.
#[derive(Clone, Copy)]
pub(crate) struct Call {
    pub(crate) rel: u32,
    pub(crate) at: u32,
    pub(crate) count: u32,
}

// A term that is a pair is named by the next variable.
fn name_pair<St: Store>(alloc: Global, term: Term, store: St) -> Result<(Term, St), Memory>
    requires below { all_below (St.meaning store).counter (tree term) ≡ true }
    requires room { (St.meaning store).counter + 1 ≤ 2 ^ 63 }
    ensures { IfOk result (λ made. (tree made.0 ≡ Tree.leaf (St.meaning store).counter) ×
        (St.meaning made.1 ≡ named_store (St.meaning store) (tree term))) }
{
    let var = store.counter();
    let wider = store.fresh_owned(alloc, 1)?;
    match wider.assert_owned(alloc, &Prim::Same(Term::Var(var), term))? {
        Some(longer) => Ok((Term::Var(var), longer)),
        None => unreachable!(),
    }
}

// An argument, which is named where it is a pair.
fn name_one<St: Store>(alloc: Global, term: Term, store: St) -> Result<(Term, St), Memory>
    requires below { all_below (St.meaning store).counter (tree term) ≡ true }
    requires room { (St.meaning store).counter + 1 ≤ 2 ^ 63 }
    ensures { IfOk result (λ made. NamesOne (St.meaning store) (tree term) (tree made.0)
        (St.meaning made.1)) }
{
    match &term {
        Term::Pair(_) => name_pair(alloc, term, store),
        _ => Ok((term, store)),
    }
}

// How many slots more an environment has room for that arguments begin, so that it seldom moves
// when the relation's body binds its variables.
const ROOM: usize = 4;

// Arguments with the pairs named, and the store in which they have names.
fn name_all<St: Store>(
    alloc: Global,
    program: &Program,
    arguments: &[u32],
    env: &Env,
    store: St,
) -> Result<(Vec<Term>, St), Memory>
    requires below { list_all (all_below (St.meaning store).counter) (terms_of env.now) ≡ true }
    requires room { (St.meaning store).counter + length arguments.now ≤ 2 ^ 63 }
    ensures { IfOk result (λ made. NamesFirst (St.meaning store)
        (instances (terms_of env.now) (map (programs.template program.now) arguments.now))
        (map tree made.0.items) (St.meaning made.1)) }
{
    let mut values = Vec::with_capacity(alloc, arguments.len() + ROOM)?;
    let mut after = store;
    for term in arguments {
        let value = env.value(alloc, program, *term)?;
        let (value, next) = name_one(alloc, value, after)?;
        values.push(value)?;
        after = next;
    }
    Ok((values, after))
}

// A call waits, with its arguments named.
pub(crate) fn call_stream<N: Nodes<St>, St: Store>(
    alloc: Global,
    program: &Program,
    call: Call,
    env: &Env,
    store: St,
    nodes: &mut N,
) -> Result<Stream<N::Id, St>, Memory>
    requires table { IsTableOf program.now (N.table nodes.old) }
    requires placed { IsPlaced program.now call.at call.count }
    requires below { list_all (all_below (St.meaning store).counter) (terms_of env.now) ≡ true }
    requires room { (St.meaning store).counter + length
        (arguments_of program.now call.at call.count) ≤ 2 ^ 63 }
    requires there { takes (slice_get (programs.meaning program.now).relations call.rel)
        (length (arguments_of program.now call.at call.count)) ≡ true }
    ensures made { IfOk result (λ made. stream_in (N.table nodes.new) St.meaning made
        ≡ suspended_call call.rel (name_pairs (St.meaning store)
        (instances (terms_of env.now) (arguments_of program.now call.at call.count)))) }
    ensures belong { IfOk result (HasStream (N.table nodes.new)) }
    ensures adds { OnlyAdds (N.table nodes.old) (N.table nodes.new) }
{
    let arguments = program.arguments(call.at, call.count);
    let (values, store) = name_all(alloc, program, arguments, env, store)?;
    let args = Env::of(program, values);
    let tail = nodes.suspend(Thunk::Call {
        rel: call.rel,
        args,
        store,
    })?;
    Ok(Stream {
        heads: ListOf::new(alloc),
        tail: Some(tail),
    })
}
