//! Appending streams.

ghost use Rattle.std.specs.Prelude.{◌≡◌, ◌++◌, ◌∷◌, [], map, reverse, IfOk, OnOk};
ghost use Rattle.kan_model.specs.Streams.Stream as model;
ghost use Rattle.stream_core.specs.CounterBounds.{FitsAsBoth};
ghost use Rattle.stream_core.specs.Tables.{OnlyAdds, HasStream, stream_in};

use crate::nodes::Nodes;
use crate::streams::{Stores, Stream, Thunk};
use kan_model::Store;
use kan_terms::{ListOf, Memory};
use std::alloc::Global;

/// Adds a store at the end of a list.
pub fn put_last<St: Drop>(stores: &mut Stores<St>, store: St) -> Result<(), Memory>
    ensures { OnOk result (stores.new ≡ stores.old ++ store ∷ []) }
{
    match stores.push(store) {
        Ok(()) => Ok(()),
        Err(_) => Err(Memory),
    }
}

/// The stores of a list, the last one first.
pub fn reversed<St: Drop>(alloc: Global, mut stores: Stores<St>) -> Result<Vec<St>, Memory>
    ensures { IfOk result (λ turned. turned.items ≡ reverse stores) }
{
    let mut turned = Vec::new(alloc);
    while let Some(store) = stores.pop() {
        turned.push(store)?;
    }
    Ok(turned)
}

// The stores of two lists, one after the other.
pub(crate) fn joined<St: Drop>(
    alloc: Global,
    mut left: Stores<St>,
    right: Stores<St>,
) -> Result<Stores<St>, Memory>
    ensures { IfOk result (λ joined. joined ≡ left ++ right) }
{
    if left.is_empty() {
        return Ok(right);
    }
    let mut waiting = reversed(alloc, right)?;
    while let Some(store) = waiting.pop() {
        put_last(&mut left, store)?;
    }
    Ok(left)
}

/// The stream of the left one's stores, which goes on as the right one, or with a suspension before
/// which the right one waits.
pub fn append<N: Nodes<St>, St: Store>(
    alloc: Global,
    left: Stream<N::Id, St>,
    right: Stream<N::Id, St>,
    nodes: &mut N,
) -> Result<Stream<N::Id, St>, Memory>
    requires left { HasStream (N.table nodes.old) left }
    requires right { HasStream (N.table nodes.old) right }
    ensures made { IfOk result (λ made. stream_in (N.table nodes.new) St.meaning made
        ≡ model.append (stream_in (N.table nodes.old) St.meaning left)
        (stream_in (N.table nodes.old) St.meaning right)) }
    ensures belong { IfOk result (HasStream (N.table nodes.new)) }
    ensures fits { IfOk result (λ made. FitsAsBoth (N.table nodes.old).program
        (stream_in (N.table nodes.old) St.meaning left)
        (stream_in (N.table nodes.old) St.meaning right)
        (stream_in (N.table nodes.new) St.meaning made)) }
    ensures adds { OnlyAdds (N.table nodes.old) (N.table nodes.new) }
{
    let Stream { heads, tail } = left;
    match tail {
        None => {
            let Stream { heads: more, tail } = right;
            let heads = joined(alloc, heads, more)?;
            Ok(Stream { heads, tail })
        }
        Some(inner) => {
            let Stream {
                heads: waiting,
                tail,
            } = right;
            let tail = nodes.suspend(Thunk::Swap {
                heads: waiting,
                tail,
                inner,
            })?;
            Ok(Stream {
                heads,
                tail: Some(tail),
            })
        }
    }
}

// The stream with the empty one behind it. Where it goes on, that one waits as any other would.
pub(crate) fn append_empty<N: Nodes<St>, St: Store>(
    alloc: Global,
    left: Stream<N::Id, St>,
    nodes: &mut N,
) -> Result<Stream<N::Id, St>, Memory>
    requires { HasStream (N.table nodes.old) left }
    ensures made { IfOk result (λ made. stream_in (N.table nodes.new) St.meaning made
        ≡ model.append (stream_in (N.table nodes.old) St.meaning left) model.empty) }
    ensures belong { IfOk result (HasStream (N.table nodes.new)) }
    ensures adds { OnlyAdds (N.table nodes.old) (N.table nodes.new) }
{
    let empty = Stream {
        heads: ListOf::new(alloc),
        tail: None,
    };
    let made = append(alloc, left, empty, nodes)?;
    Ok(made)
}
