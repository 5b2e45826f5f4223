//! Suspensions of the small program's call, and their forces.

ghost use Rattle.std.specs.Prelude.{◌≡◌, ◌≤◌, ◌^◌, IfOk};
ghost use Rattle.kan_model.specs.Programs.Closed as programs;
ghost use Rattle.susp_cells.specs.Places.{label_tree};
ghost use Rattle.susp_cells.specs.Tables.{program_of, IsIn};
ghost use Rattle.susp_cells_tests.specs.Small.{small, small_call, small_tables};

use kan_model::{Env, Program, Store};
use kan_terms::{ListOf, Memory};
use std::alloc::Global;
use std::sync::Wait;
use stream_core::{Thunk, put_last};
use susp_cells::{Forced, Susp, Table};

/// The empty table for the small program.
pub(crate) fn small_table<'a, St: Store>(
    alloc: Global,
    program: &'a Program,
) -> Result<Table<'a, St>, Memory>
    requires { programs.tables program.now ≡ small_tables }
    ensures { IfOk result (λ made. program_of made ≡ small) }
{
    Table::new(alloc, program)
}

/// The suspension of its call.
pub(crate) fn suspended_call<St: Store, R: Wait>(
    rt: &R,
    alloc: Global,
    program: &Program,
    table: &Table<'_, St>,
) -> Result<Susp<St>, Memory>
    requires { program_of table.now ≡ small }
    ensures inside { IfOk result (IsIn table.now) }
    ensures call { IfOk result (λ made. label_tree made ≡ small_call) }
{
    let store = St::empty(alloc)?;
    let args = Env::of(program, Vec::new(alloc));
    let made = table.suspend(
        rt,
        Thunk::Call {
            rel: 0,
            args,
            store,
        },
    )?;
    Ok(made)
}

/// The force of such a suspension, made anew.
pub(crate) fn forced_call<St: Store>(
    alloc: Global,
    table: &Table<'_, St>,
    susp: &Susp<St>,
) -> Result<Box<Forced<St>>, Memory>
    requires small { program_of table.now ≡ small }
    requires inside { IsIn table.now susp.now }
    requires call { label_tree susp.now ≡ small_call }
    ensures { IfOk result (λ made. made.value.of ≡ susp.now) }
{
    let of = susp.again()?;
    let mut heads = ListOf::new(alloc);
    put_last(&mut heads, St::empty(alloc)?)?;
    match Box::new(
        alloc,
        Forced {
            of,
            heads,
            tail: None,
        },
    ) {
        Ok(made) => Ok(made),
        Err(_) => Err(Memory),
    }
}
