//! Disequalities, solved and watched.

ghost use Rattle.std.specs.Prelude.{◌≡◌, ◌↔◌, ◌++◌, ◌∷◌, [], ℕ, map, reverse, IfOk, IfSome, IsTrue};
ghost use Rattle.std.specs.Prelude.{None, true};
ghost use Rattle.std.specs.List.{list_any};
ghost use Rattle.kan_model.specs.Stores.Prims.{equation as pair_equation};
ghost use Rattle.kan_terms.specs.Terms.{sides, tree};
ghost use Rattle.unify_core.specs.Cycles.{HasNoCycle};
ghost use Rattle.unify_core.specs.Solutions.{AddedTo, equation};
ghost use Rattle.unify_core.specs.Walking.{Pairs};
ghost use Rattle.diseq.specs.Adding.{Adds};
ghost use Rattle.diseq.specs.Disequalities.{is_identical};
ghost use Rattle.diseq.specs.Kept.{AreWatched};
ghost use Rattle.diseq.specs.Looking.{IsGiven};
ghost use Rattle.diseq.specs.Meaning.{asserted_in, watching_in};

use crate::chains::Chain;
use crate::watching::{Watched, adds_nothing};
use kan_terms::{Bindings, Memory, Term, TermPair, TermPairs};
use kan_tree::Again;
use std::alloc::Global;
use unify_core::would_add;

// Pairs once more.
fn copied(alloc: Global, pairs: &[TermPair]) -> Result<TermPairs, Memory>
    ensures { IfOk result (λ copies. map pair_equation copies ≡ map pair_equation pairs.now) }
{
    let mut copies = TermPairs::new(alloc);
    for pair in pairs {
        let copy = TermPair {
            first: pair.first.again()?,
            rest: pair.rest.again()?,
        };
        if copies.push(copy).is_err() {
            return Err(Memory);
        }
    }
    Ok(copies)
}

/// Disequalities in the order of assertion, each as the bindings that would have made it false
/// then. Beside them stand those that would make it false now, which the variable of the first of
/// them watches.
#[derive(Drop)]
pub struct Diseqs {
    asserted: Chain,
    watched: Watched,
}

impl Diseqs {
    /// No disequality.
    pub fn empty(alloc: Global) -> Diseqs
        ensures asserted { asserted_in result ≡ [] }
        ensures watching { (x : ℕ) → watching_in result x ≡ [] }
    {
        Diseqs {
            asserted: Chain::Empty,
            watched: Watched::empty(alloc),
        }
    }

    /// The same disequalities once more, in the same time for all.
    pub fn again(&self) -> Result<Diseqs, Memory>
        ensures asserted { IfOk result (λ copy. asserted_in copy ≡ asserted_in self.now) }
        ensures watching { IfOk result
            (λ copy. (x : ℕ) → watching_in copy x ≡ watching_in self.now x) }
    {
        Ok(Diseqs {
            asserted: self.asserted.again()?,
            watched: self.watched.again()?,
        })
    }

    /// Whether no disequality was ever added. It takes no memory.
    pub fn is_untouched(&self) -> bool
        ensures { IsTrue result → asserted_in self.now ≡ [] }
    {
        self.asserted.is_empty()
    }

    /// All disequalities as they were when they were asserted, the newest first.
    pub fn newest_first(&self, alloc: Global) -> Result<Vec<&TermPairs>, Memory>
        ensures { IfOk result (λ lent. map (λ pairs. map pair_equation pairs.now) lent.items ≡
            reverse (asserted_in self.now)) }
    {
        self.asserted.newest_first(alloc)
    }

    // One more at the end.
    fn with(self, alloc: Global, pairs: TermPairs) -> Result<Diseqs, Memory>
        ensures asserted { IfOk result
            (λ made. asserted_in made ≡ asserted_in self ++ map pair_equation pairs ∷ []) }
        ensures given { IfOk result (λ made.
            IsGiven (watching_in self) (map pair_equation pairs) (watching_in made)) }
    {
        let Diseqs { asserted, watched } = self;
        let mut watched = watched;
        watched.watch(alloc, copied(alloc, pairs.items())?)?;
        let asserted = asserted.with(alloc, pairs)?;
        Ok(Diseqs { asserted, watched })
    }

    /// The disequalities with one more, that the two sides differ, unless it holds already; None
    /// where the sides are the same. They change in place where nobody else holds them.
    #[tactic(auto, using(crate::proofs::AddLaws::adds_always, crate::proofs::AddLaws::adds_one))]
    pub fn add<B: Bindings>(
        self,
        alloc: Global,
        left: &Term,
        right: &Term,
        bindings: &B,
    ) -> Result<Option<Diseqs>, Memory>
        requires { HasNoCycle (B.pairs bindings.now) }
        ensures none { IfOk result (λ found. (found ≡ None) ↔ (is_identical (B.pairs bindings.now)
            (equation (tree left.now) (tree right.now) ∷ []) ≡ true)) }
        ensures added { IfOk result (λ found. IfSome found (λ made. Adds (B.pairs bindings.now)
            (equation (tree left.now) (tree right.now) ∷ []) self made)) }
    {
        match would_add(alloc, left, right, bindings)? {
            None => Ok(Some(self)),
            Some(added) => {
                if adds_nothing(&added) {
                    return Ok(None);
                }
                Ok(Some(self.with(alloc, added)?))
            }
        }
    }

    /// The disequalities, where pairs were just added to the bindings; None where one is false by
    /// now. Only what a side of an added pair watches is looked at again.
    pub fn recheck<B: Bindings>(
        self,
        alloc: Global,
        added: &TermPairs,
        bindings: &B,
    ) -> Result<Option<Diseqs>, Memory>
        requires no_cycle { HasNoCycle (B.pairs bindings.now) }
        requires older { (older : Pairs) ×
            AddedTo older (map sides added.now) (B.pairs bindings.now) ×
            AreWatched older (asserted_in self) (watching_in self) }
        ensures none { IfOk result (λ found. (found ≡ None) ↔
            (list_any (is_identical (B.pairs bindings.now)) (asserted_in self) ≡ true)) }
        ensures asserted { IfOk result (λ found. IfSome found
            (λ made. asserted_in made ≡ asserted_in self)) }
        ensures watched { IfOk result (λ found. IfSome found
            (λ made. AreWatched (B.pairs bindings.now) (asserted_in made) (watching_in made))) }
    {
        let Diseqs { asserted, watched } = self;
        let mut watched = watched;
        if !watched.settle(alloc, added.items(), bindings)? {
            return Ok(None);
        }
        Ok(Some(Diseqs { asserted, watched }))
    }
}
