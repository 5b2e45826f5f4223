//! Where goals suspend.

/// Which goals suspend before they are run: a call always does.
#[derive(Clone, Copy, Debug, PartialEq, Eq)]
pub enum Dialect {
    /// The book's: no other goal.
    Book,
    /// Each `fresh` and each `conde` too, also the `fresh` that a run over a list of names stands
    /// for.
    All,
}
