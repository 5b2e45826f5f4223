//! Terms, the table of names, and bindings of variables.
#![tactic(auto)]

mod binding;
mod list;
mod lists;
mod marks;
mod names;
mod terms;
mod waiting;

pub use binding::Bindings;
pub use list::ListOf;
pub use lists::{Grounds, PairLists, Tags, TermPairs};
pub use marks::{Ground, Mark};
pub use names::Names;
pub use terms::{Memory, PairParts, Term, TermPair, greater_of};
pub use waiting::wait_for_parts;
