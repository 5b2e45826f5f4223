//! What the tests are made of.

ghost use Rattle.std.specs.Prelude.{IfOk};
ghost use Rattle.unify_core.specs.Cycles.{HasNoCycle};

use kan_terms::{Bindings, Memory, Term, TermPair};
use std::alloc::Global;

/// No bindings.
pub(crate) fn none_bound<B: Bindings>(alloc: Global) -> Result<B, Memory>
    ensures { IfOk result (λ made. HasNoCycle (B.pairs made)) }
{
    let made = B::empty(alloc)?;
    Ok(made)
}

/// A pair whose first part is a number.
pub(crate) fn after_number(alloc: Global, number: i128, rest: Term) -> Result<Term, Memory> {
    let number = Term::number(alloc, number)?;
    Term::pair(alloc, number, rest)
}

/// The list of the numbers from 0 on, with an end.
pub(crate) fn numbers(alloc: Global, count: u64, end: Term) -> Result<Term, Memory> {
    let mut list = end;
    for at in 0..count {
        list = after_number(alloc, i128::from(count - 1 - at), list)?;
    }
    Ok(list)
}

/// Pairs that stand in each other's first parts, around a term.
pub(crate) fn high_in_firsts(alloc: Global, height: u64, inner: Term) -> Result<Term, Memory> {
    let mut term = inner;
    for _ in 0..height {
        term = Term::pair(alloc, term, Term::Nil)?;
    }
    Ok(term)
}

/// Whether a term is there and is the number.
pub(crate) fn is_number(term: Option<&Term>, number: i128) -> bool {
    match term {
        Some(found) => found.is_number(number),
        None => false,
    }
}

/// Whether a pair is there, of a variable and a number.
pub(crate) fn binds(pair: Option<&TermPair>, var: u64, number: i128) -> bool {
    let Some(pair) = pair else {
        return false;
    };
    matches!(&pair.first, Term::Var(found) if *found == var) && is_number(Some(&pair.rest), number)
}
