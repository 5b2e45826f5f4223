//! Data as they are read.

ghost use Rattle.std.specs.Prelude.{◌≡◌};
ghost use Rattle.std.specs.Option.{option_copied};
ghost use Rattle.sexpr.specs.Reads.{memory_wanted};

use kan_refusals::Refusal;
use kan_terms::Memory;
use sqlite_items::{Boxed, Items};
use std::alloc::{AllocError, AllocFailed};

/// Data in a row.
pub type Data = Items<Datum>;

/// What may stand before a datum.
#[derive(Clone, Copy, Debug, PartialEq, Eq)]
pub enum Prefix {
    /// The mark of a constant.
    Quote,
    /// The mark of a template.
    Quasiquote,
    /// The mark of a term in a template.
    Unquote,
}

/// A datum and the offset at which it begins.
#[cycle(datum)]
#[derive(Drop)]
pub struct Datum {
    /// The offset of its first token.
    pub at: u32,
    /// What it is.
    pub kind: DatumKind,
}

/// What a datum is.
#[cycle(datum)]
#[derive(Drop)]
pub enum DatumKind {
    /// A symbol, by its number in the table of names.
    Symbol(u32),
    /// A string, by its number in the table of names.
    Text(u32),
    /// A whole number.
    Number(i128),
    /// A truth value.
    Truth(bool),
    /// A list: its elements, and the datum after its dot.
    List(Items<Datum>, Option<Boxed<Datum>>),
    /// A datum after a prefix.
    Prefixed(Prefix, Boxed<Datum>),
}

/// Why a text has no data.
#[derive(Clone, Copy, Debug, PartialEq, Eq)]
pub enum ReadError {
    /// The text is refused: the offset, and the refusal.
    Fault(u32, Refusal),
    /// Want of memory.
    Memory,
}

/// The datum after a dot, lent.
pub fn last_datum(last: &Option<Boxed<Datum>>) -> Option<&Datum>
    ensures { option_copied result ≡ last.now }
{
    match last {
        Some(datum) => Some(datum.get()),
        None => None,
    }
}

impl From<AllocError> for ReadError {
    ghost from_gives = { λ _ e. e ≡ memory_wanted };

    fn from(_refused: AllocError) -> ReadError {
        ReadError::Memory
    }
}

impl<T: Drop> From<AllocFailed<T>> for ReadError {
    ghost from_gives = { λ _ e. e ≡ memory_wanted };

    fn from(_refused: AllocFailed<T>) -> ReadError {
        ReadError::Memory
    }
}

impl From<Memory> for ReadError {
    ghost from_gives = { λ _ e. e ≡ memory_wanted };

    fn from(_refused: Memory) -> ReadError {
        ReadError::Memory
    }
}
