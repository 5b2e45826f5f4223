//! Asking for tickets.

ghost use Rattle.std.specs.Prelude.{◌≡◌, true, IfSome, IfNone};
ghost use Rattle.pull_budget.specs.Seats.{view, IsSeatOf};
ghost use Rattle.crew.specs.Asking.{HasAsked};

use pull_budget::{Budget, BudgetSeat, Ticket};
use std::sync::Wait;
use std::thread;

/// Asks until there is a ticket, or until a denial after which the stop word is read as set.
pub(crate) fn ask<R: Wait>(rt: &R, budget: &Budget, seat: &mut BudgetSeat) -> Option<Ticket>
    requires seat { IsSeatOf budget.now seat.old }
    ensures seat { IsSeatOf budget.now seat.new }
    ensures won { IfSome result (λ _. HasAsked (view seat.old) (view seat.new) 1) }
    ensures none { IfNone result (HasAsked (view seat.old) (view seat.new) 0) }
    ensures stopped { IfNone result ((view seat.new).set ≡ true) }
{
    for _ in rt.forever() {
        match budget.ticket(seat) {
            Ok(ticket) => return Some(ticket),
            Err(_) => {
                if budget.stopped(seat) {
                    return None;
                }
                thread::yield_now();
            }
        }
    }
    unreachable!()
}
