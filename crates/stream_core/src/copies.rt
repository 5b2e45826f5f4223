//! Stores and suspensions once more, so that a table can be changed while they are used.

ghost use Rattle.std.specs.Prelude.{◌≡◌, map, option_map, IfOk, IfSome};
ghost use Rattle.stream_core.specs.Tables.{HasThunk, thunk_in};

use crate::appending::put_last;
use crate::nodes::Nodes;
use crate::streams::{Stores, Thunk};
use kan_model::Store;
use kan_terms::{ListOf, Memory};
use std::alloc::Global;

/// Stores once more, in the same order. Only want of memory refuses.
pub fn stores_again<St: Store>(alloc: Global, stores: &[St]) -> Result<Stores<St>, Memory>
    ensures { IfOk result (λ copies. map St.meaning copies ≡ map St.meaning stores.now) }
{
    let mut copies = ListOf::new(alloc);
    for store in stores {
        put_last(&mut copies, store.again(alloc)?)?;
    }
    Ok(copies)
}

// How a stream goes on, once more.
fn tail_again<N: Nodes<St>, St: Store>(
    nodes: &N,
    tail: &Option<N::Id>,
) -> Result<Option<N::Id>, Memory>
    requires { IfSome tail.now (N.table nodes.now).belongs }
    ensures belong { IfOk result (λ copy. IfSome copy (N.table nodes.now).belongs) }
    ensures stands { IfOk result (λ copy. option_map (N.table nodes.now).tree copy ≡ option_map
        (N.table nodes.now).tree tail.now) }
{
    match tail {
        None => Ok(None),
        Some(id) => {
            let copy = nodes.again(id)?;
            Ok(Some(copy))
        }
    }
}

// The suspension of an id once more.
pub(crate) fn thunk_again<N: Nodes<St>, St: Store>(
    alloc: Global,
    nodes: &N,
    id: &N::Id,
) -> Result<Thunk<N::Id, St>, Memory>
    requires { (N.table nodes.now).belongs id.now }
    ensures belong { IfOk result (HasThunk (N.table nodes.now)) }
    ensures stands { IfOk result (λ copy. thunk_in (N.table nodes.now) St.meaning copy ≡
        (N.table nodes.now).tree id.now) }
{
    match nodes.thunk(id) {
        Thunk::Call { rel, args, store } => {
            let args = args.again(alloc)?;
            let store = store.again(alloc)?;
            Ok(Thunk::Call {
                rel: *rel,
                args,
                store,
            })
        }
        Thunk::Pause { goal, env, store } => {
            let env = env.again(alloc)?;
            let store = store.again(alloc)?;
            Ok(Thunk::Pause {
                goal: *goal,
                env,
                store,
            })
        }
        Thunk::Swap { heads, tail, inner } => {
            let heads = stores_again(alloc, heads.items())?;
            let tail = tail_again(nodes, tail)?;
            let inner = nodes.again(inner)?;
            Ok(Thunk::Swap { heads, tail, inner })
        }
        Thunk::Bind { goal, env, inner } => {
            let env = env.again(alloc)?;
            let inner = nodes.again(inner)?;
            Ok(Thunk::Bind {
                goal: *goal,
                env,
                inner,
            })
        }
    }
}
