//! The lists that crates of the engine share.

use crate::list::ListOf;
use crate::marks::Ground;
use crate::terms::TermPair;

/// The tags that stand nowhere in a term, by their numbers in the table of names.
pub type Tags = ListOf<u32>;

/// Pairs of terms, the left side in `first`.
pub type TermPairs = ListOf<TermPair>;

/// Lists of pairs of terms.
pub type PairLists = ListOf<TermPairs>;

/// Ground terms.
pub type Grounds = ListOf<Ground>;
