//! Solving equations by replacing variables, in the plainest way.
#![tactic(auto)]

mod orders;
mod solving;

pub use orders::{LeftFirst, Order};
pub use solving::{Replaced, apply, copied_answer, found, solve};
