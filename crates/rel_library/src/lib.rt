//! The relation library and the generated loads, as texts.
#![tactic(auto)]

pub mod laws;
mod library;
mod load;

pub use library::library_text;
pub use load::make_load;
