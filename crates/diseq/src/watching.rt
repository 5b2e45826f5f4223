//! The disequalities that variables watch, and looking again at them where a variable may have
//! changed.

ghost use Rattle.std.specs.Prelude.{◌≡◌, ◌↔◌, ◌&&◌, ◌∷◌, [], ℕ, map, IfOk, IsTrue, OnOk};
ghost use Rattle.kan_model.specs.Stores.Prims.{equation as pair_equation};
ghost use Rattle.kan_terms.specs.Terms.{sides, tree};
ghost use Rattle.kan_terms.specs.Tree.{Tree};
ghost use Rattle.unify_core.specs.Cycles.{HasNoCycle};
ghost use Rattle.diseq.specs.Chains.{forms};
ghost use Rattle.diseq.specs.Looking.{IsGiven, IsPut, IsTaken, LooksAt, Settles, SettlesAll};
ghost use Rattle.diseq.specs.Looking.{is_settled, may_be_same};
ghost use Rattle.diseq.specs.Meaning.{watchers};
ghost use Rattle.diseq.specs.Watching.{is_watched_by};

use crate::chains::Chain;
use kan_terms::{Bindings, Memory, Term, TermPair, TermPairs};
use kan_tree::{Again, VarTree};
use std::alloc::Global;
use unify_core::would_add_all;

/// Whether unification has nothing to add, so that the sides are the same already.
pub fn adds_nothing(added: &TermPairs) -> bool
    ensures { IsTrue result ↔ (added.now ≡ []) }
{
    added.is_empty()
}

// The variable of the first pair, which watches the disequality.
fn watcher(pairs: &[TermPair]) -> Option<u64>
    ensures { (x : ℕ) → is_watched_by x (map pair_equation pairs.now) ≡ may_be_same x result }
{
    match pairs.first() {
        Some(pair) => match &pair.first {
            Term::Var(var) => Some(*var),
            _ => None,
        },
        None => None,
    }
}

/// The disequalities that each variable watches. A variable that was bound may keep those that it
/// had, which nobody asks for any more.
#[derive(Drop)]
pub struct Watched {
    chains: VarTree<Chain>,
}

impl Watched {
    /// No variable watches.
    pub fn empty(alloc: Global) -> Watched
        ensures { (x : ℕ) → watchers result x ≡ [] }
    {
        Watched {
            chains: VarTree::empty(alloc),
        }
    }

    /// The same once more.
    pub fn again(&self) -> Result<Watched, Memory>
        ensures { IfOk result (λ copy. (x : ℕ) → watchers copy x ≡ watchers self.now x) }
    {
        Ok(Watched {
            chains: self.chains.again()?,
        })
    }

    // The disequalities that a variable watches.
    fn watched_by(&self, var: u64) -> Result<Chain, Memory>
        ensures { IfOk result (λ chain. forms chain ≡ watchers self.now var) }
    {
        match self.chains.get(var) {
            Some(chain) => chain.again(),
            None => Ok(Chain::Empty),
        }
    }

    // Takes all that it watches from a variable.
    fn take_from(&mut self, var: u64) -> Result<Chain, Memory>
        ensures all { IfOk result (λ chain. forms chain ≡ watchers self.old var) }
        ensures taken { OnOk result (IsTaken (watchers self.old) var (watchers self.new)) }
    {
        let chain = self.watched_by(var)?;
        if chain.is_empty() {
            return Ok(chain);
        }
        self.chains.put(var, Chain::Empty)?;
        Ok(chain)
    }

    // Gives a disequality to a variable.
    fn give(&mut self, alloc: Global, var: u64, pairs: TermPairs) -> Result<(), Memory>
        ensures { OnOk result
            (IsPut (watchers self.old) var (map pair_equation pairs) (watchers self.new)) }
    {
        let chain = self.watched_by(var)?.with(alloc, pairs)?;
        self.chains.put(var, chain)
    }

    /// Gives a disequality to the variable that watches it.
    pub fn watch(&mut self, alloc: Global, pairs: TermPairs) -> Result<(), Memory>
        ensures { OnOk result
            (IsGiven (watchers self.old) (map pair_equation pairs) (watchers self.new)) }
    {
        match watcher(pairs.items()) {
            Some(var) => self.give(alloc, var, pairs),
            None => Ok(()),
        }
    }

    // Solves a disequality anew; false where its sides are the same.
    fn solve_anew<B: Bindings>(
        &mut self,
        alloc: Global,
        pairs: &[TermPair],
        bindings: &B,
    ) -> Result<bool, Memory>
        requires { HasNoCycle (B.pairs bindings.now) }
        ensures { IfOk result (λ differs. LooksAt (B.pairs bindings.now)
            (map pair_equation pairs.now ∷ []) (watchers self.old) (watchers self.new) differs) }
    {
        match would_add_all(alloc, pairs, bindings)? {
            None => Ok(true),
            Some(added) => {
                if adds_nothing(&added) {
                    return Ok(false);
                }
                self.watch(alloc, added)?;
                Ok(true)
            }
        }
    }

    // Solves all disequalities of a chain anew; false where the sides of one are the same.
    fn solve_all<B: Bindings>(
        &mut self,
        alloc: Global,
        chain: &Chain,
        bindings: &B,
    ) -> Result<bool, Memory>
        requires { HasNoCycle (B.pairs bindings.now) }
        ensures { IfOk result (λ differ. LooksAt (B.pairs bindings.now) (forms chain.now)
            (watchers self.old) (watchers self.new) differ) }
    {
        let mut reached = chain;
        while let Chain::Link(link) = reached {
            let differs = self.solve_anew(alloc, link.pairs.items(), bindings)?;
            if !differs {
                return Ok(false);
            }
            reached = &link.older;
        }
        Ok(true)
    }

    // Looks again at all that a variable watches, which is bound by now: so nobody will ask for
    // these any more.
    fn settle_bound<B: Bindings>(
        &mut self,
        alloc: Global,
        var: u64,
        bindings: &B,
    ) -> Result<bool, Memory>
        requires { HasNoCycle (B.pairs bindings.now) }
        ensures { IfOk result (λ differ. Settles (B.pairs bindings.now)
            (is_settled (B.pairs bindings.now) (Tree.leaf var)) (watchers self.old)
            (watchers self.new) differ) }
    {
        let once_watched = self.watched_by(var)?;
        self.solve_all(alloc, &once_watched, bindings)
    }

    // Looks again at all that a variable watches, which may watch them further.
    fn settle_free<B: Bindings>(
        &mut self,
        alloc: Global,
        var: u64,
        bindings: &B,
    ) -> Result<bool, Memory>
        requires { HasNoCycle (B.pairs bindings.now) }
        ensures { IfOk result (λ differ. Settles (B.pairs bindings.now)
            (is_settled (B.pairs bindings.now) (Tree.leaf var)) (watchers self.old)
            (watchers self.new) differ) }
    {
        let chain = self.take_from(var)?;
        self.solve_all(alloc, &chain, bindings)
    }

    // Looks again at all that the left side of an added pair watches.
    fn settle_left<B: Bindings>(
        &mut self,
        alloc: Global,
        term: &Term,
        bindings: &B,
    ) -> Result<bool, Memory>
        requires { HasNoCycle (B.pairs bindings.now) }
        ensures { IfOk result (λ differ. Settles (B.pairs bindings.now)
            (is_settled (B.pairs bindings.now) (tree term.now)) (watchers self.old)
            (watchers self.new) differ) }
    {
        match term {
            Term::Var(var) => self.settle_bound(alloc, *var, bindings),
            _ => Ok(true),
        }
    }

    // Looks again at all that the right side of an added pair watches.
    fn settle_right<B: Bindings>(
        &mut self,
        alloc: Global,
        term: &Term,
        bindings: &B,
    ) -> Result<bool, Memory>
        requires { HasNoCycle (B.pairs bindings.now) }
        ensures { IfOk result (λ differ. Settles (B.pairs bindings.now)
            (is_settled (B.pairs bindings.now) (tree term.now)) (watchers self.old)
            (watchers self.new) differ) }
    {
        match term {
            Term::Var(var) => self.settle_free(alloc, *var, bindings),
            _ => Ok(true),
        }
    }

    // Looks again at all that a side of an added pair watches.
    fn settle_pair<B: Bindings>(
        &mut self,
        alloc: Global,
        pair: &TermPair,
        bindings: &B,
    ) -> Result<bool, Memory>
        requires { HasNoCycle (B.pairs bindings.now) }
        ensures { IfOk result (λ differ. Settles (B.pairs bindings.now) (λ es.
            is_settled (B.pairs bindings.now) (tree pair.now.first) es &&
            is_settled (B.pairs bindings.now) (tree pair.now.rest) es) (watchers self.old)
            (watchers self.new) differ) }
    {
        let left = self.settle_left(alloc, &pair.first, bindings)?;
        if !left {
            return Ok(false);
        }
        Ok(self.settle_right(alloc, &pair.rest, bindings)?)
    }

    /// Looks again at all disequalities that a side of an added pair watches; false where the sides
    /// of one of them are the same.
    pub fn settle<B: Bindings>(
        &mut self,
        alloc: Global,
        added: &[TermPair],
        bindings: &B,
    ) -> Result<bool, Memory>
        requires { HasNoCycle (B.pairs bindings.now) }
        ensures { IfOk result (λ differ. SettlesAll (B.pairs bindings.now) (map sides added.now)
            (watchers self.old) (watchers self.new) differ) }
    {
        for pair in added {
            let differ = self.settle_pair(alloc, pair, bindings)?;
            if !differ {
                return Ok(false);
            }
        }
        Ok(true)
    }
}
