//! The plain store: the slow reference beside which every other store is tried.
#![tactic(auto)]

mod keeping;
mod looking;
mod plain;

pub use plain::PlainStore;
