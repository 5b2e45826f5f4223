//! Asking for a ticket: two loads, and one exchange at most.

ghost use Rattle.std.specs.Prelude.{◌≡◌, ◌+◌, ◌<◌, ◌≤◌, ◌^◌, MatchResult};
ghost use Rattle.pull_budget.specs.Views.{after_seeing, after_reading, after_try};
ghost use Rattle.pull_budget.specs.Tickets.{IsWon, IsDenied};
ghost use Rattle.pull_budget.specs.Seats.{view, IsSeatOf};

use crate::budget::{Budget, BudgetSeat, Denied, Ticket};
use crate::steps::{LoadBegun, LoadPulls, RaiseBegun};

impl Budget {
    // The pulls.
    fn load_pulls(&self, seat: &mut BudgetSeat) -> u64
        requires seat { IsSeatOf self.now seat.old }
        ensures seat { IsSeatOf self.now seat.new }
        ensures view { view seat.new ≡ after_seeing (view seat.old) result }
        ensures low { result ≤ 2 ^ 62 }
    {
        self.table.shared.load::<LoadPulls>(&mut seat.seat, 0)
    }

    // How many were begun.
    fn load_begun(&self, seat: &mut BudgetSeat) -> u64
        requires seat { IsSeatOf self.now seat.old }
        ensures seat { IsSeatOf self.now seat.new }
        ensures view { view seat.new ≡ after_reading (view seat.old) result }
    {
        self.table.shared.load::<LoadBegun>(&mut seat.seat, 1)
    }

    // Tries to begin one more than the seat read, and answers what it found.
    fn raise_begun(&self, seat: &mut BudgetSeat, read: u64) -> u64
        requires seat { IsSeatOf self.now seat.old }
        requires read { read ≡ (view seat.old).read }
        requires room { read < (view seat.old).seen + (view seat.old).ahead }
        requires fits { read + 1 < 2 ^ 64 }
        ensures seat { IsSeatOf self.now seat.new }
        ensures view { view seat.new ≡ after_try (view seat.old) result }
    {
        self.table
            .shared
            .compare_exchange::<RaiseBegun>(&mut seat.seat, 1, read, read + 1)
    }

    /// Asks for the right to begin one more. Both words were loaded once, in this order: pulls, and
    /// then begun.
    pub fn ticket(&self, seat: &mut BudgetSeat) -> Result<Ticket, Denied>
        requires seat { IsSeatOf self.now seat.old }
        ensures seat { IsSeatOf self.now seat.new }
        ensures ticket { MatchResult result (λ _. IsWon (view seat.old) (view seat.new))
            (IsDenied (view seat.old) (view seat.new)) }
    {
        let ahead = u64::from(self.ahead);
        let seen = self.load_pulls(seat);
        let begun = self.load_begun(seat);
        if begun >= seen + ahead {
            return Err(Denied::Full(begun, seen));
        }
        let found = self.raise_begun(seat, begun);
        if found == begun {
            Ok(Ticket { won: () })
        } else {
            Err(Denied::Lost(found))
        }
    }
}
