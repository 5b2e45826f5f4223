//! The reader of data and their printing.
#![tactic(auto)]

mod bytes;
mod data;
mod enclosing;
mod frame;
pub mod laws;
mod lexer;
mod printer;
mod reader;
mod strings;
mod token;
mod word;

pub use bytes::{is_word_byte, word_length};
pub use data::{Data, Datum, DatumKind, Prefix, ReadError, last_datum};
pub use printer::print;
pub use reader::read;
pub use strings::print_string;
pub use word::{is_dot, is_reserved, looks_like_number};
