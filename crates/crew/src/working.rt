//! Workers.

ghost use Rattle.std.specs.Prelude.{◌≡◌, ◌+◌, ◌<◌, ◌≤◌, ◌^◌, true, false, cond, option_map};
ghost use Rattle.std.specs.Prelude.{IfOk, IfSome, IsTrue};
ghost use Rattle.kan_model.specs.Streams.Bounds.{top};
ghost use Rattle.kan_model.specs.Streams.Running.{force as forced};
ghost use Rattle.stream_core.specs.Tables.{IsTableOf};
ghost use Rattle.pull_budget.specs.Seats.{view, IsSeatOf};
ghost use Rattle.task_deques.specs.Holders.{IsHolderOf};
ghost use Rattle.susp_cells.specs.Places.{label_tree};
ghost use Rattle.susp_cells.specs.Tables.{home_of, program_of, table_of, IsIn};
ghost use Rattle.crew.specs.Asking.{HasAsked, AsksOn};
ghost use Rattle.crew.specs.Offers.{tail_of, Offers};
ghost use Rattle.crew.specs.Working.{offered_behind, IsHandled, HasServed, ServesOn};

use crate::asking::ask;
use crate::offering::offer;
use crate::taking::next_task;
use crate::tasks::Offered;
use kan_model::{Program, Store};
use kan_terms::Memory;
use pull_budget::{Budget, BudgetSeat, Ticket};
use std::alloc::Global;
use std::sync::Wait;
use std::thread;
use stream_core::{Stream, force};
use susp_cells::laws::susp_is_inside;
use susp_cells::{Gate, SharedNodes, Susp, Table};
use task_deques::Holder;

/// What a worker did.
#[derive(Debug, Drop)]
pub struct Tally {
    /// How many tickets it took, each for one task that it forced.
    pub taken: u64,
    /// How many tasks it dropped.
    pub dropped: u64,
}

impl Tally {
    // Whether one more task can be counted.
    fn has_room(&self) -> bool
        ensures { IsTrue result → self.now.taken + self.now.dropped + 1 < 2 ^ 64 }
    {
        self.dropped < u64::MAX - self.taken
    }

    // Counts one more task, which was forced or dropped.
    fn count(&mut self, forced: bool)
        requires few { self.old.taken + self.old.dropped + 1 < 2 ^ 64 }
        ensures taken { self.new.taken ≡ self.old.taken + cond forced 1 0 }
        ensures dropped { self.new.dropped ≡ self.old.dropped + cond forced 0 1 }
    {
        if forced {
            self.taken += 1;
        } else {
            self.dropped += 1;
        }
    }
}

// Where a worker stands: what it is given for good.
#[derive(Drop)]
struct Post<'a, St: Store, G: Gate, R: Wait> {
    rt: &'a R,
    alloc: Global,
    program: &'a Program,
    table: &'a Table<'a, St>,
    budget: &'a Budget,
    gate: &'a G,
    who: u32,
}

// Whether a suspension is to be forced: it isn't found to be settled, and may be forced.
fn is_unsettled<St: Store>(table: &Table<'_, St>, susp: &Susp<St>) -> bool
    requires { IsIn table.now susp.now }
    ensures { IsTrue result → top (label_tree susp.now) ≤ 2 ^ 62 }
{
    susp.low() && table.look(susp).is_none()
}

impl<'a, St: Store, G: Gate, R: Wait> Post<'a, St, G, R> {
    // Spends a ticket on the force of a suspension, and gives its tail, where it has one.
    fn spend(&self, ticket: Ticket, susp: &Susp<St>) -> Result<Option<Susp<St>>, Memory>
        requires table { IsTableOf self.now.program.now (table_of self.now.table.now) }
        requires inside { IsIn self.now.table.now susp.now }
        requires room { top (label_tree susp.now) ≤ 2 ^ 62 }
        ensures inside { IfOk result (λ tail. IfSome tail (IsIn self.now.table.now)) }
        ensures tail { IfOk result (λ tail. option_map label_tree tail ≡ tail_of
            (forced (program_of self.now.table.now) (label_tree susp.now))) }
    {
        let _ = ticket;
        let mut nodes = SharedNodes::new(self.rt, self.table, self.gate, self.who);
        let stream = force(self.alloc, self.program, susp, &mut nodes)?;
        let Stream { heads: _, tail } = stream;
        Ok(tail)
    }

    // Spends a ticket on a suspension, and offers what is behind it. Where memory is wanting,
    // nothing is offered.
    #[tactic(auto, using(crate::proofs::OfferLaws::no_offer, crate::proofs::OfferLaws::behind_offered))]
    fn begin(&self, ticket: Ticket, susp: &Susp<St>, holder: &mut Holder<Offered<St>>)
        requires table { IsTableOf self.now.program.now (table_of self.now.table.now) }
        requires inside { IsIn self.now.table.now susp.now }
        requires room { top (label_tree susp.now) ≤ 2 ^ 62 }
        requires home { IsHolderOf (home_of self.now.table.now) holder.old }
        ensures home { IsHolderOf (home_of self.now.table.now) holder.new }
        ensures offers { Offers holder.old holder.new
            (offered_behind (program_of self.now.table.now) (label_tree susp.now)) }
    {
        if let Ok(Some(tail)) = self.spend(ticket, susp) {
            offer(self.table, holder, &tail);
        }
    }

    // Serves a task: whether a ticket was spent on it. Otherwise it is dropped, and nothing is
    // done.
    #[tactic(auto, using(crate::proofs::AskingLaws::none_asked))]
    fn serve(
        &self,
        task: Offered<St>,
        seat: &mut BudgetSeat,
        holder: &mut Holder<Offered<St>>,
    ) -> bool
        requires table { IsTableOf self.now.program.now (table_of self.now.table.now) }
        requires task { task.susp.home ≡ home_of self.now.table.now }
        requires seat { IsSeatOf self.now.budget.now seat.old }
        requires home { IsHolderOf (home_of self.now.table.now) holder.old }
        ensures seat { IsSeatOf self.now.budget.now seat.new }
        ensures asked { HasAsked (view seat.old) (view seat.new) (cond result 1 0) }
        ensures home { IsHolderOf (home_of self.now.table.now) holder.new }
        ensures handled { IsHandled (program_of self.now.table.now) task holder.old holder.new
            result }
    {
        let Offered { susp } = task;
        susp_is_inside(self.table, &susp);
        if !is_unsettled(self.table, &susp) {
            return false;
        }
        match ask(self.rt, self.budget, seat) {
            Some(ticket) => {
                self.begin(ticket, &susp, holder);
                true
            }
            None => false,
        }
    }

    // Takes a task, where there is one and it can be counted, and serves it.
    #[tactic(auto, using(crate::proofs::AskingLaws::asked_on, crate::proofs::WorkLaws::served_on, crate::proofs::WorkLaws::none_taken))]
    fn turn(&self, seat: &mut BudgetSeat, holder: &mut Holder<Offered<St>>, tally: &mut Tally)
        requires table { IsTableOf self.now.program.now (table_of self.now.table.now) }
        requires seat { IsSeatOf self.now.budget.now seat.old }
        requires home { IsHolderOf (home_of self.now.table.now) holder.old }
        ensures seat { IsSeatOf self.now.budget.now seat.new }
        ensures asked { AsksOn (view seat.old) (view seat.new) tally.old.taken tally.new.taken }
        ensures home { IsHolderOf (home_of self.now.table.now) holder.new }
        ensures served { ServesOn (program_of self.now.table.now) holder.old holder.new
            tally.old.taken tally.old.dropped tally.new.taken tally.new.dropped }
    {
        if !tally.has_room() {
            return;
        }
        match next_task(self.rt, holder) {
            Some(task) => tally.count(self.serve(task, seat, holder)),
            None => thread::yield_now(),
        }
    }
}

/// One worker, until it is told to stop: it takes a task from its own deque, and else from the
/// first of the others, in turn, that has one. It drops what is found to be settled and what may
/// not be forced. Any other task it forces, once it has a ticket for it, with its own number at the
/// gate, and offers what is behind it. Where memory is wanting, it drops the task.
#[tactic(auto, using(crate::proofs::AskingLaws::none_asked, crate::proofs::AskingLaws::asked_stop, crate::proofs::AskingLaws::stop_loads, crate::proofs::WorkLaws::none_served))]
pub fn work<St: Store, G: Gate, R: Wait>(
    rt: &R,
    alloc: Global,
    program: &Program,
    table: &Table<'_, St>,
    budget: &Budget,
    seat: &mut BudgetSeat,
    holder: &mut Holder<Offered<St>>,
    gate: &G,
    who: u32,
) -> Tally
    requires table { IsTableOf program.now (table_of table.now) }
    requires seat { IsSeatOf budget.now seat.old }
    requires hired { ((view seat.old).puller ≡ false) × ((view seat.old).set ≡ false) }
    requires home { IsHolderOf (home_of table.now) holder.old }
    ensures seat { IsSeatOf budget.now seat.new }
    ensures asked { HasAsked (view seat.old) (view seat.new) result.taken }
    ensures stopped { (view seat.new).set ≡ true }
    ensures loads { (view seat.old).loads < (view seat.new).loads }
    ensures home { IsHolderOf (home_of table.now) holder.new }
    ensures served { HasServed (program_of table.now) holder.old holder.new result.taken
        result.dropped }
{
    let post = Post {
        rt,
        alloc,
        program,
        table,
        budget,
        gate,
        who,
    };
    let mut tally = Tally {
        taken: 0,
        dropped: 0,
    };
    for _ in rt.forever() {
        if budget.stopped(seat) {
            return tally;
        }
        post.turn(seat, holder, &mut tally);
    }
    unreachable!()
}
