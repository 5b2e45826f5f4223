//! The primitives that stores are made of.

ghost use Rattle.std.specs.Prelude.{◌≡◌, map, IfOk};
ghost use Rattle.kan_model.specs.Stores.Prims.{prim as primitive};

use kan_terms::{Memory, Term};
use std::alloc::Global;

/// A primitive over terms.
#[derive(Drop)]
pub enum Asserted {
    /// The two terms are equal.
    Same(Term, Term),
    /// The two terms are different.
    Differ(Term, Term),
    /// The term is a symbol.
    Symbol(Term),
    /// The term is a number.
    Number(Term),
    /// The term is a string.
    Text(Term),
    /// The symbol of this number stands nowhere in the term.
    Absent(u32, Term),
}

/// A type that a variable may have.
#[derive(Clone, Copy, Debug, PartialEq, Eq)]
pub enum Kind {
    /// The variable stands for a symbol.
    Symbol,
    /// The variable stands for a number.
    Number,
    /// The variable stands for a string.
    Text,
}

impl Asserted {
    /// The primitive once more, over the same terms.
    pub fn again(&self) -> Result<Asserted, Memory>
        ensures { IfOk result (λ copy. primitive copy ≡ primitive self.now) }
    {
        Ok(match self {
            Asserted::Same(left, right) => Asserted::Same(left.again()?, right.again()?),
            Asserted::Differ(left, right) => Asserted::Differ(left.again()?, right.again()?),
            Asserted::Symbol(term) => Asserted::Symbol(term.again()?),
            Asserted::Number(term) => Asserted::Number(term.again()?),
            Asserted::Text(term) => Asserted::Text(term.again()?),
            Asserted::Absent(tag, term) => Asserted::Absent(*tag, term.again()?),
        })
    }
}

/// Primitives once more, in the same order.
pub fn copied(alloc: Global, prims: &[Asserted]) -> Result<Vec<Asserted>, Memory>
    ensures { IfOk result (λ copies. map primitive copies.items ≡ map primitive prims.now) }
{
    let mut copies = Vec::new(alloc);
    for prim in prims {
        copies.push(prim.again()?)?;
    }
    Ok(copies)
}
