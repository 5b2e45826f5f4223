//! Terms over names, as shapes.

use kan_terms::ListOf;

/// One node of a term over names.
#[derive(Clone, Copy, Debug, PartialEq, Eq)]
pub enum Shape {
    /// A pair, whose two parts follow.
    Pair,
    /// A name.
    Name(u64),
    /// A symbol, by its number in the table of names.
    Sym(u32),
    /// A string, by its number in the table of strings.
    Str(u32),
    /// A whole number.
    Num(i128),
    /// A truth value.
    Truth(bool),
    /// The empty list.
    Nil,
}

/// The shapes of a term, each pair before its parts.
pub type Shapes = ListOf<Shape>;

/// A name, and what it must not be where all the other pairs of its disequality are met.
#[derive(Drop)]
pub struct NamePair {
    /// The name.
    pub name: u64,
    /// What makes the pair true.
    pub term: Shapes,
}

/// The pairs of a disequality: one of them at least isn't true.
pub type NamePairs = ListOf<NamePair>;
