//! Making a budget, its seats, pulling, stopping, and the end.

ghost use Rattle.std.specs.Prelude.{◌≡◌, ◌+◌, ◌<◌, ◌≤◌, ◌^◌, true, false, IfOk};
ghost use Rattle.pull_budget.specs.Views.{fresh, hired_view, after_pull, after_stop, after_asking};
ghost use Rattle.pull_budget.specs.Seats.{view, ahead_of, IsSeatOf};

use crate::budget::{Budget, BudgetSeat, Spent};
use crate::steps::{AddPull, Hire, LoadStop, SetBound, SetStop};
use atomic_table::Table;
use kan_terms::Memory;
use std::alloc::Global;

impl Budget {
    /// A budget in which tickets may run ahead of the pulls by `ahead`, and the seat that pulls.
    pub fn new(alloc: Global, ahead: u32) -> Result<(Budget, BudgetSeat), Memory>
        ensures seat { IfOk result (λ made. IsSeatOf made.0 made.1) }
        ensures view { IfOk result (λ made. view made.1 ≡ fresh true ahead 0) }
        ensures ahead { IfOk result (λ made. ahead_of made.0 ≡ ahead) }
    {
        let Ok((table, mut seat)) = Table::of_words(alloc, &[0, 0, 0, 0], &()) else {
            return Err(Memory);
        };
        table
            .shared
            .store::<SetBound>(&mut seat, 3, u64::from(ahead));
        Ok((Budget { table, ahead }, BudgetSeat { seat }))
    }

    /// Another seat, which doesn't pull. It has seen what this one saw, and done nothing.
    pub fn split(&self, seat: &mut BudgetSeat) -> BudgetSeat
        requires seat { IsSeatOf self.now seat.old }
        ensures old { IsSeatOf self.now seat.new × (view seat.new ≡ view seat.old) }
        ensures new { IsSeatOf self.now result × (view result ≡ hired_view (view seat.old)) }
    {
        BudgetSeat {
            seat: self.table.shared.split_seat::<Hire>(&mut seat.seat),
        }
    }

    /// Takes a seat back. What it did is forgotten.
    pub fn join(&self, seat: &mut BudgetSeat, other: BudgetSeat)
        requires seat { IsSeatOf self.now seat.old }
        requires other { IsSeatOf self.now other }
        requires hired { (view other).puller ≡ false }
        ensures seat { IsSeatOf self.now seat.new × (view seat.new ≡ view seat.old) }
    {
        self.table
            .shared
            .join_seat::<Hire>(&mut seat.seat, other.seat);
    }

    /// Counts one pull.
    pub fn pulled(&self, seat: &mut BudgetSeat)
        requires seat { IsSeatOf self.now seat.old }
        requires puller { (view seat.old).puller ≡ true }
        requires few { (view seat.old).made < 2 ^ 62 }
        ensures seat { IsSeatOf self.now seat.new }
        ensures view { view seat.new ≡ after_pull (view seat.old) }
    {
        self.table.shared.fetch_add::<AddPull>(&mut seat.seat, 0, 1);
    }

    /// Tells all seats to stop.
    pub fn stop(&self, seat: &mut BudgetSeat)
        requires seat { IsSeatOf self.now seat.old }
        requires puller { (view seat.old).puller ≡ true }
        ensures seat { IsSeatOf self.now seat.new }
        ensures view { view seat.new ≡ after_stop (view seat.old) }
    {
        self.table.shared.store::<SetStop>(&mut seat.seat, 2, 1);
    }

    /// Whether seats are told to stop: exactly what the word was read as.
    pub fn stopped(&self, seat: &mut BudgetSeat) -> bool
        requires seat { IsSeatOf self.now seat.old }
        ensures seat { IsSeatOf self.now seat.new }
        ensures view { view seat.new ≡ after_asking (view seat.old) result }
    {
        self.table.shared.load::<LoadStop>(&mut seat.seat, 2) != 0
    }

    /// Ends a budget, and shows its bound: no more was begun than the pulls and what may run ahead.
    pub fn end(self, seat: BudgetSeat) -> Spent
        requires seat { IsSeatOf self seat }
        requires puller { (view seat).puller ≡ true }
        ensures bound { result.begun ≤ result.pulls + ahead_of self }
        ensures pulls { result.pulls ≡ (view seat).made }
        ensures seen { (view seat).seen ≤ result.pulls }
        ensures read { (view seat).read ≤ result.begun }
    {
        let Budget { table, ahead: _ } = self;
        let BudgetSeat { seat } = seat;
        let closed = table.close_with(seat);
        let pulls = closed.word(0);
        let begun = closed.word(1);
        closed.free();
        Spent { pulls, begun }
    }
}
