//! A worker in a thread of its own, until it passed a gate so often.

ghost use Rattle.std.specs.Prelude.{◌≡◌, true, false};
ghost use Rattle.pull_budget.specs.Seats.{view, IsSeatOf};
ghost use Rattle.stream_core.specs.Tables.{IsTableOf};
ghost use Rattle.task_deques.specs.Holders.{holder_part, IsHolderOf};
ghost use Rattle.susp_cells.specs.Tables.{home_of, table_of};

use crew::{Offered, Tally, work};
use kan_model::{Program, Store};
use pull_budget::{Budget, BudgetSeat};
use std::alloc::Global;
use std::sync::Wait;
use std::sync::atomic::{AtomicU64, Ordering};
use std::thread;
use std::thread::Threads;
use susp_cells::{Gate, Table};
use task_deques::Holder;

// So often it is looked whether the gate was passed.
const PATIENCE: u32 = 20_000_000;

/// A gate that counts how often it is passed.
#[derive(Drop)]
pub struct Passes {
    pub count: AtomicU64,
}

impl Gate for Passes {
    fn pass(&self, _who: u32) {
        self.count.fetch_add(1, Ordering::SeqCst);
    }
}

/// What a worker gives back.
#[derive(Drop)]
pub struct Worked<H> {
    pub seat: BudgetSeat,
    pub holder: H,
    pub tally: Tally,
}

unsafe impl<H: Send> Send for Worked<H> {}

// Waits until a gate was passed so often.
fn wait_for(gate: &Passes, passes: u64) {
    for _ in 0..PATIENCE {
        if gate.count.load(Ordering::SeqCst) >= passes {
            return;
        }
        thread::yield_now();
    }
}

// Tells the worker to stop once a gate was passed so often.
fn stop_after(budget: &Budget, mut seat: BudgetSeat, gate: &Passes, passes: u64) -> BudgetSeat
    requires seat { IsSeatOf budget.now seat × ((view seat).puller ≡ true) }
    ensures seat { IsSeatOf budget.now result × ((view result).puller ≡ true) }
{
    wait_for(gate, passes);
    budget.stop(&mut seat);
    seat
}

// A worker with what it owns.
fn work_on<St: Store, R: Wait>(
    rt: &R,
    alloc: Global,
    program: &Program,
    table: &Table<'_, St>,
    budget: &Budget,
    mut seat: BudgetSeat,
    mut holder: Holder<Offered<St>>,
    gate: &Passes,
) -> Worked<Holder<Offered<St>>>
    requires table { IsTableOf program.now (table_of table.now) }
    requires seat { IsSeatOf budget.now seat }
    requires hired { ((view seat).puller ≡ false) × ((view seat).set ≡ false) }
    requires home { IsHolderOf (home_of table.now) holder }
    ensures seat { IsSeatOf budget.now result.seat × ((view result.seat).puller ≡ false) }
    ensures part { holder_part result.holder ≡ holder_part holder }
{
    let tally = work(
        rt,
        alloc,
        program,
        table,
        budget,
        &mut seat,
        &mut holder,
        gate,
        1,
    );
    Worked {
        seat,
        holder,
        tally,
    }
}

/// A worker in a thread, which is told to stop once a gate was passed so often.
pub fn beside<St: Store + Send + Sync, R: Threads + Wait + Sync>(
    rt: &R,
    alloc: Global,
    program: &Program,
    table: &Table<'_, St>,
    budget: &Budget,
    seat: BudgetSeat,
    other: BudgetSeat,
    holder: Holder<Offered<St>>,
    gate: &Passes,
    passes: u64,
) -> (BudgetSeat, Worked<Holder<Offered<St>>>)
    requires table { IsTableOf program.now (table_of table.now) }
    requires seat { IsSeatOf budget.now seat × ((view seat).puller ≡ true) }
    requires other { IsSeatOf budget.now other }
    requires hired { ((view other).puller ≡ false) × ((view other).set ≡ false) }
    requires home { IsHolderOf (home_of table.now) holder }
    ensures seat { IsSeatOf budget.now result.0 × ((view result.0).puller ≡ true) }
    ensures other { IsSeatOf budget.now result.1.seat × ((view result.1.seat).puller ≡ false) }
    ensures part { holder_part result.1.holder ≡ holder_part holder }
{
    thread::join(
        rt,
        move ||
            requires { IsSeatOf budget.now seat × ((view seat).puller ≡ true) }
            ensures { IsSeatOf budget.entry.now result × ((view result).puller ≡ true) }
        { stop_after(budget, seat, gate, passes) },
        move ||
            requires { IsTableOf program.now (table_of table.now) × IsSeatOf budget.now other
                × ((view other).puller ≡ false) × ((view other).set ≡ false)
                × IsHolderOf (home_of table.now) holder }
            ensures { IsSeatOf budget.entry.now result.seat
                × ((view result.seat).puller ≡ false)
                × (holder_part result.holder ≡ holder_part holder) }
        { work_on(rt, alloc, program, table, budget, other, holder, gate) },
    )
}
