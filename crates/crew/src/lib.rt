//! Workers: each takes tasks from deques, and forces them, as far as a budget lets it.
#![tactic(auto)]

mod asking;
mod offering;
mod taking;
mod tasks;
mod working;

pub use offering::offer;
pub use tasks::{Offered, crew_deques};
pub use working::{Tally, work};
