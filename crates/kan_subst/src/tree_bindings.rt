//! Bindings in a persistent tree, which is changed in place where nobody else holds it.

ghost use Rattle.std.specs.Prelude.{◌≡◌, ◌∷◌};
ghost use Rattle.kan_terms.specs.Terms.{tree};

use crate::history::{History, Tells};
use kan_terms::{Bindings, Memory, Term, greater_of};
use kan_tree::VarTree;
use std::alloc::Global;
use std::marker::Model;

/// Bindings in a persistent tree.
#[derive(Drop)]
pub struct TreeBindings {
    terms: VarTree<Term>,
    // The greatest variable on either side.
    greatest: Option<u64>,
    history: History,
}

impl Model for TreeBindings {
    ghost use Rattle.std.specs.Prelude.{◌≡◌, ℕ, List};
    ghost use Rattle.kan_terms.specs.Bound.{bound_to};
    ghost use Rattle.kan_terms.specs.Greatest.{greatest_bound};
    ghost use Rattle.kan_terms.specs.Terms.{tree};
    ghost use Rattle.kan_terms.specs.Tree.{Tm};
    ghost use Rattle.kan_tree.specs.UnderKeys.{under_key};
    ghost use Rattle.kan_subst.specs.Pairs.{pairs_code};

    ghost Value = { List (ℕ × Tm) };

    ghost coded = { pairs_code };

    ghost view = { λ bindings. bindings.history.pairs };

    ghost invariant = { λ bindings. ((x : ℕ) → under_key tree bindings.terms x ≡
        bound_to x bindings.history.pairs)
        × (bindings.greatest ≡ greatest_bound bindings.history.pairs) };
}

// The newest binding with the history of the older ones.
#[derive(Drop)]
struct Newest {
    var: u64,
    term: Term,
    older: History,
}

// The newest pair in front of the older ones.
struct InFront;

impl Tells<Newest> for InFront {
    ghost pairs = { λ newest. (newest.var, tree newest.term) ∷ newest.older.pairs };
}

impl Bindings for TreeBindings {
    ghost pairs = { λ bindings. bindings };

    fn empty(alloc: Global) -> Result<TreeBindings, Memory> {
        Ok(TreeBindings {
            terms: VarTree::empty(alloc),
            greatest: None,
            history: History::empty(),
        })
    }

    fn get(&self, var: u64) -> Option<&Term> {
        self.terms.get(var)
    }

    fn bind(&self, var: u64, term: &Term) -> Result<TreeBindings, Memory> {
        self.again()?.bind_owned(var, term)
    }

    fn bind_owned(self, var: u64, term: &Term) -> Result<TreeBindings, Memory> {
        let TreeBindings {
            terms,
            greatest,
            history,
        } = self;
        let newest = Newest {
            var,
            term: term.again()?,
            older: history,
        };
        let history = History::of::<Newest, InFront>(&newest);
        let greatest = greater_of(greater_of(Some(var), term.greatest_variable()), greatest);
        let mut terms = terms;
        terms.put(var, newest.term)?;
        Ok(TreeBindings {
            terms,
            greatest,
            history,
        })
    }

    fn greatest_variable(&self) -> Option<u64> {
        self.greatest
    }

    fn again(&self) -> Result<TreeBindings, Memory> {
        Ok(TreeBindings {
            terms: self.terms.again()?,
            greatest: self.greatest,
            history: self.history.again(),
        })
    }
}
