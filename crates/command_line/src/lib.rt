//! The words after the program's name, read into options.
#![tactic(auto)]

mod command;
mod fault;
mod given;
mod name;
mod options;
mod values;
mod words;

pub use fault::WordsFault;
pub use name::Name;
pub use options::{Options, read_words};
pub use words::process_words;
