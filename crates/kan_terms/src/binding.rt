//! Bindings of variables to terms.

ghost use Rattle.std.specs.Prelude.{◌≡◌, ℕ, List, [], ◌∷◌, None, IfOk};
ghost use Rattle.std.specs.Option.{option_map};
ghost use Rattle.kan_terms.specs.Bound.{bound_to};
ghost use Rattle.kan_terms.specs.Greatest.{greatest_bound};
ghost use Rattle.kan_terms.specs.Terms.{tree};
ghost use Rattle.kan_terms.specs.Tree.{Tm};

use crate::terms::{Memory, Term};
use std::alloc::Global;

/// Terms that variables are bound to. A binding is never changed or taken back: `bind` makes new
/// bindings beside the old ones, which stay as they were.
pub trait Bindings: Sized + Drop {
    // The pairs of a variable and the term that it is bound to, the newest first.
    ghost pairs: { Self → List (ℕ × Tm) };

    /// No variable is bound.
    fn empty(alloc: Global) -> Result<Self, Memory>
        ensures { IfOk result (λ made. pairs made ≡ []) };

    /// The term that a variable is bound to. It takes no memory.
    fn get(&self, var: u64) -> Option<&Term>
        ensures { option_map (λ term. tree term.now) result ≡ bound_to var (pairs self.now) };

    /// These bindings with one more, of a variable that isn't bound.
    fn bind(&self, var: u64, term: &Term) -> Result<Self, Memory>
        requires { bound_to var (pairs self.now) ≡ None }
        ensures { IfOk result (λ made. pairs made ≡ (var, tree term.now) ∷ pairs self.now) };

    /// What `bind` gives, made of these bindings themselves: in place where nobody else holds them.
    fn bind_owned(self, var: u64, term: &Term) -> Result<Self, Memory>
        requires { bound_to var (pairs self) ≡ None }
        ensures { IfOk result (λ made. pairs made ≡ (var, tree term.now) ∷ pairs self) };

    /// The greatest variable that stands in the bindings, on either side. It takes no memory.
    fn greatest_variable(&self) -> Option<u64>
        ensures { result ≡ greatest_bound (pairs self.now) };

    /// The same bindings once more.
    fn again(&self) -> Result<Self, Memory>
        ensures { IfOk result (λ copy. pairs copy ≡ pairs self.now) };
}
