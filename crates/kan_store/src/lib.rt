//! The solved store: bindings, types, absences and disequalities that are kept in step with what
//! was asserted.
#![tactic(auto)]

mod history;
mod moving;
mod solved;
mod store;

pub use store::SolvedStore;
