//! Long chains of suspensions are dropped in a small stack.

ghost use Rattle.std.specs.Prelude.{◌≡◌, ◌≤◌, ◌^◌, IfOk};
ghost use Rattle.kan_model.specs.Streams.Bounds.{top};
ghost use Rattle.susp_cells.specs.Places.{label_tree};
ghost use Rattle.susp_cells.specs.Tables.{IsIn};

use crate::calls::{small_table, suspended_call};
use crate::programs::small_program;
use kan_model::Store;
use kan_plain::PlainStore;
use kan_terms::{ListOf, Memory};
use std::alloc::Global;
use std::sync::Wait;
use std::test::Fail;
use std::thread::Builder;
use stream_core::Thunk;
use susp_cells::{Susp, Table};

// So many suspensions around one.
fn chain<St: Store, R: Wait>(
    rt: &R,
    alloc: Global,
    table: &Table<'_, St>,
    inner: Susp<St>,
    count: u32,
) -> Result<Susp<St>, Memory>
    requires { IsIn table.now inner }
    ensures { IfOk result (IsIn table.now) }
{
    let mut last = inner;
    for _ in 0..count {
        last = table.suspend(
            rt,
            Thunk::Swap {
                heads: ListOf::new(alloc),
                tail: None,
                inner: last,
            },
        )?;
    }
    Ok(last)
}

// Makes a table with a long chain, and drops it. The index of the last suspension is given.
fn dropped_chain<R: Wait>(rt: &R, alloc: Global, count: u32) -> Result<u64, Memory> {
    let program = small_program(alloc)?;
    let table: Table<'_, PlainStore> = small_table(alloc, &program)?;
    let inner = suspended_call(rt, alloc, &program, &table)?;
    let last = chain(rt, alloc, &table, inner, count)?;
    Ok(last.index())
}

#[test]
fn a_long_chain_is_dropped(rt: HostRuntime) -> Result<(), Fail> {
    let small = Builder::new()
        .stack_size(256 * 1024)
        .spawn(&rt, move || dropped_chain(&rt, rt.alloc(), 100_000).ok())?;
    assert_eq!(rt; small.join(&rt), Some(100_000));
    Ok(())
}
