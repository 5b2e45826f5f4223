//! The settled suspensions down a chain of tails, beside the pulls of one thread.

ghost use Rattle.std.specs.Prelude.{IfOk, IfSome};
ghost use Rattle.susp_cells.specs.Tables.{IsIn};

use kan_model::Store;
use kan_search::Search;
use kan_terms::Memory;
use std::alloc::Global;
use stream_core::Nodes;
use susp_cells::{Susp, Table};

// How many stores a suspension was settled with, and its tail, where it is settled and has one.
fn next_settled<St: Store>(
    table: &Table<'_, St>,
    at: &Susp<St>,
) -> Result<Option<(usize, Susp<St>)>, Memory>
    requires inside { IsIn table.now at.now }
    ensures inside { IfOk result (λ found. IfSome found (λ next. IsIn table.now next.1)) }
{
    match table.look(at) {
        Some((forced, _)) => match &forced.tail {
            Some(tail) => {
                let next = tail.again()?;
                Ok(Some((forced.heads.len(), next)))
            }
            None => Ok(None),
        },
        None => Ok(None),
    }
}

/// How many of a chain of tails are settled, each with as many stores as a search finds in a pull.
/// None where one has others.
pub(crate) fn compared<St: Store, N: Nodes<St> + Drop>(
    alloc: Global,
    table: &Table<'_, St>,
    first: Susp<St>,
    search: &mut Search<'_, St, N>,
    most: u32,
) -> Result<Option<u32>, Memory>
    requires inside { IsIn table.now first }
{
    let mut at = first;
    for count in 0..most {
        match next_settled(table, &at)? {
            Some((heads, next)) => {
                let batch = search.advance_alone(alloc)?;
                if batch.answers.len() != heads {
                    return Ok(None);
                }
                at = next;
            }
            None => return Ok(Some(count)),
        }
    }
    Ok(Some(most))
}
