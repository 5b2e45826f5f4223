//! How far workers may run ahead of the one that pulls: four words that threads share, and the
//! rule over them.
#![tactic(auto)]

mod budget;
mod calls;
mod rule;
mod steps;
mod tickets;

pub use budget::{Budget, BudgetSeat, Denied, Spent, Ticket};
pub use rule::View;
