//! The grammar of texts, as definitions: words, data, forms, programs and faults, with the laws
//! that tie them together.
#![tactic(auto)]

mod dialect;
mod digits;
pub mod reading_laws;

pub use dialect::Dialect;
pub use digits::all_digits;
