//! The model of miniKanren: programs, stores, streams, runs and answers, as definitions, and the
//! trait of stores.
#![tactic(auto)]

mod closing;
mod draft;
mod environment;
pub mod laws;
mod letters;
mod nodes;
mod prims;
mod program;
mod stores;
mod values;

pub use draft::Draft;
pub use environment::Env;
pub use letters::{Letter, build, first_letter, occurs_in, same_terms, spell};
pub use nodes::{GoalNode, Query, Relation, TermNode};
pub use prims::{Asserted as Prim, Kind, copied};
pub use program::{CloseRefused, Program};
pub use stores::Store;
