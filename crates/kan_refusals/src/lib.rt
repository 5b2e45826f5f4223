//! The reasons for which a text is refused, and the line that says so.
#![tactic(auto)]

mod refusals;

pub use refusals::{Refusal, error_line};
