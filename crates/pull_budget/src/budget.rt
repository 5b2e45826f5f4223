//! A budget, its seats, and what it answers.

ghost use Rattle.std.specs.Prelude.{◌≡◌, []};

use crate::rule::{Spending, View};
use atomic_table::{Seat, Table};
use std::alloc::Global;

/// The words pulls, begun, stop and bound. One thread pulls; others ask for tickets.
#[derive(Drop)]
pub struct Budget {
    pub(crate) table: Table<(), View, (), Spending, Global>,
    pub(crate) ahead: u32,
    ghost four: { table.shared.table_id.words ≡ 4 },
    ghost bare: { table.shared.table_id.slots ≡ 0 },
}

/// What a thread steps on a budget with. It is used with the budget that made it.
#[derive(Drop)]
pub struct BudgetSeat {
    pub(crate) seat: Seat<(), View>,
    ghost bare: { seat.me.1 ≡ [] },
}

/// The right to begin one force. Nothing but a budget makes one.
#[derive(Drop)]
pub struct Ticket {
    pub(crate) won: (),
}

/// Why there is no ticket.
#[derive(Drop)]
pub enum Denied {
    /// As many were begun, the first number, as the pulls that were seen, the second, let begin.
    Full(u64, u64),
    /// Another seat's exchange came between. So many had begun by then.
    Lost(u64),
}

/// What the words held at the end.
#[derive(Debug, Drop)]
pub struct Spent {
    pub pulls: u64,
    pub begun: u64,
}
