//! Words, strings and terms of printed answers read back.
//!
//! Each reader says what it gives where the bytes begin with what it reads; of other bytes it says
//! nothing, so its caller prints what was read and compares.
#![tactic(auto)]

mod shapes;
mod strings;
mod terms;
mod words;

pub use shapes::{front_length, read_word};
pub use strings::behind;
pub use terms::read_term;
pub use words::name_number;
