//! The trait of stores.

ghost use Rattle.std.specs.Prelude.{◌≡◌, ◌+◌, ◌^◌, ◌≤◌, true, map, IfOk, option_map};
ghost use Rattle.kan_terms.specs.Terms.{tree};
ghost use Rattle.kan_model.specs.Stores.Store as facts;
ghost use Rattle.kan_model.specs.Stores.Kept.{is_kept};
ghost use Rattle.kan_model.specs.Programs.Scope.{is_counted, sides_below};
ghost use Rattle.kan_model.specs.Stores.Prims.{equation, prim as primitive};
ghost use Rattle.kan_model.specs.Stores.Calls.{Gives, WalksTo, IsFree, kind_at, AreTags};
ghost use Rattle.kan_model.specs.Stores.Calls.{AreDifferences, replacement_of, differences};

use crate::prims::{Asserted, Kind};
use kan_terms::{Memory, PairLists, Tags, Term};
use std::alloc::Global;

/// Constraints that were asserted one after the other, with a counter above all variables.
///
/// A store never changes: each call gives a new one. Every store is kept, so its constraints have a
/// solution.
pub trait Store: Sized + Drop {
    // The primitives that were asserted, in their order, and the counter.
    ghost meaning: { Self → facts.Store };

    /// The store without primitives and variables.
    fn empty(alloc: Global) -> Result<Self, Memory>
        ensures { IfOk result (λ made. meaning made ≡ facts.bare 0) };

    /// The number above all variables.
    fn counter(&self) -> u64
        ensures { result ≡ (meaning self.now).counter };

    /// The store with more variables, those from its counter on.
    fn fresh(&self, alloc: Global, count: u32) -> Result<Self, Memory>
        requires { (meaning self.now).counter + count ≤ 2 ^ 63 }
        ensures { IfOk result (λ made. meaning made ≡ facts.with_fresh (meaning self.now) count) };

    /// What `fresh` gives, made of this store itself.
    fn fresh_owned(self, alloc: Global, count: u32) -> Result<Self, Memory>
        requires { (meaning self).counter + count ≤ 2 ^ 63 }
        ensures { IfOk result (λ made. meaning made ≡ facts.with_fresh (meaning self) count) };

    /// The store with one more primitive, and None exactly where that isn't kept.
    fn assert(&self, alloc: Global, prim: &Asserted) -> Result<Option<Self>, Memory>
        requires below { sides_below (meaning self.now).counter (primitive prim.now) ≡ true }
        ensures { IfOk result
            (λ made. Gives (facts.with_prim (meaning self.now) (primitive prim.now))
            (option_map meaning made)) };

    /// What `assert` gives, made of this store itself: in place where nobody else holds it.
    fn assert_owned(self, alloc: Global, prim: &Asserted) -> Result<Option<Self>, Memory>
        requires below { sides_below (meaning self).counter (primitive prim.now) ≡ true }
        ensures { IfOk result
            (λ made. Gives (facts.with_prim (meaning self) (primitive prim.now))
            (option_map meaning made)) };

    /// An equal store.
    fn again(&self, alloc: Global) -> Result<Self, Memory>
        ensures { IfOk result (λ made. meaning made ≡ meaning self.now) };

    /// What a variable stands for, as far as its first pair; all else is given back. It takes no
    /// memory.
    fn walk<'a>(&'a self, term: &'a Term) -> &'a Term
        ensures { WalksTo (replacement_of (meaning self.now)) (tree term.now) (tree result.now) };

    /// The type of a variable that stands for itself. It takes no memory.
    fn kind(&self, var: u64) -> Option<Kind>
        requires { IsFree (meaning self.now) var }
        ensures { result ≡ kind_at (meaning self.now) var };

    /// The tags that must not stand in a variable that stands for itself.
    fn tags(&self, alloc: Global, var: u64) -> Result<Tags, Memory>
        requires { IsFree (meaning self.now) var }
        ensures { IfOk result (AreTags (meaning self.now) var) };

    /// For each disequality whose sides may still become equal, pairs that are all equal exactly
    /// where its sides are, in the order of assertion.
    fn differences(&self, alloc: Global) -> Result<PairLists, Memory>
        ensures { IfOk result
            (λ lists. AreDifferences (meaning self.now) (differences (meaning self.now).prims)
            (map (map equation) lists)) };

    // Every store is kept.
    ghost kept: { (store : Self) → is_kept (meaning store) ≡ true };

    // The counter lies above all variables of the primitives.
    ghost counted: { (store : Self) → is_counted (meaning store) ≡ true };

    // The counter is at most 2^63.
    ghost bounded: { (store : Self) → (meaning store).counter ≤ 2 ^ 63 };
}
