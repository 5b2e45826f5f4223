//! Pairs that only clauses read.

ghost use Rattle.std.specs.Prelude.{◌≡◌, ℕ, List, []};
ghost use base.Fml.{ftrue};
ghost use Rattle.kan_terms.specs.Tree.{Tm};
ghost use Rattle.kan_subst.specs.Pairs.{pairs_code};

use std::marker::{Model, PhantomData};

/// How pairs are read off a value.
pub trait Tells<X> {
    ghost pairs: { X → List (ℕ × Tm) };
}

/// The pairs of bindings, the newest first. It has no bytes and owns nothing, so only a clause ties
/// `pairs`.
pub struct History {
    marker: PhantomData<()>,
    pub ghost pairs: { List (ℕ × Tm) } by { pairs_code },
}

impl Model for History {
    ghost also_owns = { λ _. ftrue };
}

impl History {
    /// The pairs that are read off a value.
    pub fn of<X, M: Tells<X>>(x: &X) -> History
        ensures { result.pairs ≡ M.pairs x.now }
    {
        let _ = x;
        History {
            marker: PhantomData,
        }
    }
}

// No pairs.
struct Nothing;

impl Tells<()> for Nothing {
    ghost pairs = { λ _. [] };
}

// The pairs of another history.
struct Same;

impl Tells<History> for Same {
    ghost pairs = { λ history. history.pairs };
}

impl History {
    /// No pairs.
    pub fn empty() -> History
        ensures { result.pairs ≡ [] }
    {
        History::of::<(), Nothing>(&())
    }

    /// The same pairs once more.
    pub fn again(&self) -> History
        ensures { result.pairs ≡ self.now.pairs }
    {
        History::of::<History, Same>(self)
    }
}

impl Drop for History {
    fn drop(self) {
        let Self { marker: _ } = self;
    }
}

unsafe impl Send for History {}

unsafe impl Sync for History {}
