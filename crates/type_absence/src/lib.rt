//! The types of variables, and the symbols that stand nowhere in them, under bindings.
#![tactic(auto)]

mod absence;
pub mod laws;
mod tags;
mod typing;

pub use absence::Absences;
pub use typing::Kinds;
