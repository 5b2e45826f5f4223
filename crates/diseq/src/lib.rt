//! Disequalities over triangular bindings: each is kept as the bindings that would make it false,
//! and is looked at again only where the variable of the first of them may have changed.
#![tactic(auto)]

mod chains;
mod diseqs;
pub mod laws;
mod watching;

pub use diseqs::Diseqs;
