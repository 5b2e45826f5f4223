//! A thousand races of two threads.

ghost use Rattle.std.specs.Prelude.{◌≡◌, IfOk};
ghost use Rattle.kan_model.specs.Programs.Closed as programs;
ghost use Rattle.susp_cells.specs.Places.{label_tree};
ghost use Rattle.susp_cells.specs.Tables.{program_of, IsIn};
ghost use Rattle.susp_cells_tests.specs.Small.{small, small_call, small_tables};

use crate::calls::{forced_call, small_table, suspended_call};
use crate::programs::small_program;
use crate::racing::{Offer, race};
use kan_model::{Program, Store};
use kan_plain::PlainStore;
use kan_terms::Memory;
use std::alloc::Global;
use std::sync::Wait;
use std::test::Fail;
use std::thread::Threads;
use susp_cells::{Susp, Table};

// The force of a suspension of the small program's call, as a value for it.
fn offer_for<St: Store>(
    alloc: Global,
    table: &Table<'_, St>,
    susp: &Susp<St>,
) -> Result<Offer<St>, Memory>
    requires small { program_of table.now ≡ small }
    requires inside { IsIn table.now susp.now }
    requires call { label_tree susp.now ≡ small_call }
    ensures { IfOk result (λ made. (made.susp ≡ susp.now)
        × (made.forced.value.of ≡ susp.now)) }
{
    let forced = forced_call(alloc, table, susp)?;
    let susp = susp.again()?;
    Ok(Offer { susp, forced })
}

// Whether both threads that settle a suspension know a value, and whether it is found afterwards.
fn raced<St: Store + Send + Sync, R: Threads + Sync>(
    rt: &R,
    alloc: Global,
    table: &Table<'_, St>,
    susp: &Susp<St>,
) -> Result<(bool, bool), Memory>
    requires small { program_of table.now ≡ small }
    requires inside { IsIn table.now susp.now }
    requires call { label_tree susp.now ≡ small_call }
{
    let one = offer_for(alloc, table, susp)?;
    let two = offer_for(alloc, table, susp)?;
    let both = race(rt, table, one, two).is_some();
    Ok((both, table.look(susp).is_some()))
}

// One race on a table of its own.
fn one_race<R: Threads + Wait + Sync>(
    rt: &R,
    alloc: Global,
    program: &Program,
) -> Result<(bool, bool), Memory>
    requires { programs.tables program.now ≡ small_tables }
{
    let table: Table<'_, PlainStore> = small_table(alloc, program)?;
    let susp = suspended_call(rt, alloc, program, &table)?;
    let ends = raced(rt, alloc, &table, &susp)?;
    Ok(ends)
}

#[test]
fn two_threads_settle_one(rt: HostRuntime) -> Result<(), Fail> {
    let alloc = rt.alloc();
    let program = small_program(alloc)?;
    let mut shared = false;
    for _ in 0..1000 {
        let (both, found) = one_race(&rt, alloc, &program)?;
        assert!(rt; found);
        if both {
            shared = true;
        }
    }
    assert!(rt; shared);
    Ok(())
}
