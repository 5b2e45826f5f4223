//! Laws of what is known. Each function has its law for its contract, and changes nothing.

ghost use Rattle.std.specs.Prelude.{◌≡◌};
ghost use Rattle.susp_cells.specs.Places.{label_tree};
ghost use Rattle.susp_cells.specs.Tables.{home_of, known_index, known_value, IsIn, IsKnownIn};

use crate::forced::Known;
use crate::suspensions::Susp;
use crate::tables::Table;
use kan_model::Store;

/// A suspension whose label is among the table's is of the table: it is one of the table's program,
/// and fits it.
pub fn susp_is_inside<St: Store>(table: &Table<'_, St>, susp: &Susp<St>)
    requires { susp.now.home ≡ home_of table.now }
    ensures { IsIn table.now susp.now }
{
    let token = susp.token();
    match table.labels.get_seen(token.index(), token) {
        Some(_) => {}
        None => unreachable!(),
    }
}

/// Two suspensions of one index are one.
pub fn susps_agree<St: Store>(table: &Table<'_, St>, first: &Susp<St>, second: &Susp<St>)
    requires first { IsIn table.now first.now }
    requires second { IsIn table.now second.now }
    requires index { first.now.token.index ≡ second.now.token.index }
    ensures { label_tree first.now ≡ label_tree second.now }
{
    table.labels.agrees(first.token(), second.token());
}

/// Two who know one suspension know one value.
pub fn known_agree<St: Store>(table: &Table<'_, St>, first: &Known<St>, second: &Known<St>)
    requires first { IsKnownIn table.now first.now }
    requires second { IsKnownIn table.now second.now }
    requires index { known_index first.now ≡ known_index second.now }
    ensures { known_value first.now ≡ known_value second.now }
{
    table.labels.agrees(&first.label, &second.label);
    table.cells.all.agrees(&first.cell, &second.cell);
    table
        .cells
        .all
        .value(&first.cell)
        .agrees(&first.seen, &second.seen);
}
