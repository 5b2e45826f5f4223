//! A suspension is settled once, and then found.

ghost use Rattle.std.specs.Prelude.{◌≡◌};
ghost use Rattle.susp_cells.specs.Places.{label_tree};
ghost use Rattle.susp_cells.specs.Tables.{program_of, IsIn};
ghost use Rattle.susp_cells_tests.specs.Small.{small, small_call};

use crate::calls::{forced_call, small_table, suspended_call};
use crate::programs::small_program;
use kan_model::Store;
use kan_plain::PlainStore;
use kan_terms::Memory;
use std::alloc::Global;
use std::test::Fail;
use susp_cells::laws::known_agree;
use susp_cells::{Forced, Settled, Susp, Table};

// Whether a value settles a suspension, and another one doesn't, and what is found is the first.
fn settles<St: Store>(
    table: &Table<'_, St>,
    susp: &Susp<St>,
    first: Box<Forced<St>>,
    second: Box<Forced<St>>,
) -> bool
    requires inside { IsIn table.now susp.now }
    requires first { first.value.of ≡ susp.now }
    requires second { second.value.of ≡ susp.now }
{
    let Settled::Mine(mine) = table.settle(susp, first) else {
        return false;
    };
    let Settled::Theirs(theirs, back) = table.settle(susp, second) else {
        return false;
    };
    known_agree(table, &mine, &theirs);
    let Some((found, known)) = table.look(susp) else {
        return false;
    };
    known_agree(table, &mine, &known);
    back.heads.len() == 1 && found.heads.len() == 1 && known.index() == susp.index()
}

// Whether nothing is found before a suspension is settled, and all goes well then.
fn settles_once<St: Store>(
    alloc: Global,
    table: &Table<'_, St>,
    susp: &Susp<St>,
) -> Result<bool, Memory>
    requires small { program_of table.now ≡ small }
    requires inside { IsIn table.now susp.now }
    requires call { label_tree susp.now ≡ small_call }
{
    let first = forced_call(alloc, table, susp)?;
    let second = forced_call(alloc, table, susp)?;
    let before = table.look(susp).is_none();
    Ok(settles(table, susp, first, second) && before)
}

#[test]
fn settle_once(rt: HostRuntime) -> Result<(), Fail> {
    let alloc = rt.alloc();
    let program = small_program(alloc)?;
    let table: Table<'_, PlainStore> = small_table(alloc, &program)?;
    let susp = suspended_call(&rt, alloc, &program, &table)?;
    assert!(rt; susp.low());
    assert!(rt; settles_once(alloc, &table, &susp)?);
    Ok(())
}
