//! The search of a run: its answers in batches, with its pulls and its end.
#![tactic(auto)]

mod batch;
mod limit;
mod pulling;
mod searching;

pub use batch::{Batch, Ended};
pub use searching::Search;
