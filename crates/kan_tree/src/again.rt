//! Values that can be had once more.

ghost use Rattle.std.specs.Prelude.{◌≡◌, IfOk};
ghost use Rattle.std.specs.Arc.{arc_value};
ghost use Rattle.kan_terms.specs.Terms.{tree};
ghost use Rattle.kan_terms.specs.Tree.{Tm};

use kan_terms::{Memory, Term};
use std::sync::Arc;

/// Values that can be had once more.
pub trait Again: Sized + Drop {
    // What a value means.
    ghost Meaning: { Type 0 };

    ghost meaning: { Self → Meaning };

    /// The value once more.
    fn again(&self) -> Result<Self, Memory>
        ensures { IfOk result (λ copy. meaning copy ≡ meaning self.now) };
}

impl<X: Drop> Again for Arc<X> {
    ghost Meaning = { X };

    ghost meaning = { λ shared. arc_value shared };

    fn again(&self) -> Result<Arc<X>, Memory> {
        Ok(Arc::try_clone(self)?)
    }
}

impl Again for Term {
    ghost Meaning = { Tm };

    ghost meaning = { tree };

    fn again(&self) -> Result<Term, Memory> {
        Term::again(self)
    }
}
