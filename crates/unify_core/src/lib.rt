//! Unification over triangular bindings, in which nothing is ever replaced.
#![tactic(auto)]

pub mod laws;
mod occurring;
mod unifying;
mod walking;

pub use occurring::occurs;
pub use unifying::{Unified, unify, unify_owned, would_add, would_add_all};
pub use walking::walk;
