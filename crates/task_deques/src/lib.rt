//! Deques of tasks, one for each holder, with stealers for all others: each task is taken once.
#![tactic(auto)]

mod dealing;
mod gathering;
mod holders;
mod shares;
mod taking;

pub use dealing::{Deques, task_deques};
pub use gathering::gather;
pub use holders::{Holder, HolderOf, TaskDeque, TaskStealer};
pub use shares::{Share, Task};
