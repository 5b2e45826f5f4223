//! Tasks: the suspensions of a shared table that are offered to be forced.

ghost use Rattle.std.specs.Prelude.{◌≡◌, false};
ghost use Rattle.susp_cells.specs.Tables.{home_of};
ghost use Rattle.task_deques.specs.Deals.{tasks_home, deque_count, has_dealt};

use boxcar::tag::{Names, Tag};
use kan_model::Store;
use std::alloc::Global;
use susp_cells::{Susp, Table};
use task_deques::{Deques, Task, task_deques};

/// A suspension that is offered to whoever has time to force it.
#[derive(Drop)]
pub struct Offered<St: Store> {
    /// The suspension.
    pub susp: Susp<St>,
}

unsafe impl<St: Store + Send + Sync> Send for Offered<St> {}

unsafe impl<St: Store + Send + Sync> Sync for Offered<St> {}

// Its home is its table, which the names of the labels' buckets tell.
impl<St: Store> Task for Offered<St> {
    ghost home = { λ task. task.susp.home };
}

// How a table's names are read off it.
struct Home;

impl<'a, St: Store> Names<Table<'a, St>> for Home {
    ghost numbers = { λ table. home_of table };
}

/// So many deques for tasks of a table. They are made when they are dealt.
pub fn crew_deques<St: Store>(alloc: Global, table: &Table<'_, St>, count: u32) -> Deques
    ensures home { tasks_home result ≡ home_of table.now }
    ensures count { deque_count result ≡ count }
    ensures dealt { has_dealt result ≡ false }
{
    let home = Tag::of::<Table<'_, St>, Home>(table);
    task_deques(alloc, home, count)
}
