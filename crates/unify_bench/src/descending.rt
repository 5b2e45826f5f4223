//! Unification down a list, and of two lists.

ghost use Rattle.std.specs.Prelude.{◌≡◌, ◌≤◌, IfOk};
ghost use Rattle.unify_core.specs.Cycles.{HasNoCycle};

use kan_terms::{Bindings, Memory, Term};
use std::alloc::Global;
use unify_core::unify_owned;

// No bindings.
fn none_bound<B: Bindings>(alloc: Global) -> Result<B, Memory>
    ensures { IfOk result (λ made. HasNoCycle (B.pairs made)) }
{
    let made = B::empty(alloc)?;
    Ok(made)
}

// Makes two terms the same. Where they can't be, no bindings are left.
fn unified<B: Bindings>(alloc: Global, left: &Term, right: &Term, bindings: B) -> Result<B, Memory>
    requires { HasNoCycle (B.pairs bindings) }
    ensures { IfOk result (λ made. HasNoCycle (B.pairs made)) }
{
    match unify_owned(alloc, left, right, bindings)? {
        Some(made) => Ok(made.bindings),
        None => none_bound(alloc),
    }
}

// The list of the numbers from 0 on.
fn numbers(alloc: Global, count: u64) -> Result<Term, Memory> {
    let mut list = Term::Nil;
    for at in 0..count {
        let number = Term::number(alloc, i128::from(count - 1 - at))?;
        list = Term::pair(alloc, number, list)?;
    }
    Ok(list)
}

// The list of the variables from 1 on.
fn variables(alloc: Global, count: u64) -> Result<Term, Memory> {
    let mut list = Term::Nil;
    for at in 0..count {
        list = Term::pair(alloc, Term::Var(count - at), list)?;
    }
    Ok(list)
}

// Takes the list of variable 0 apart, so many times, each time by two new variables: one for the
// element, and the next one for the rest.
fn descend<B: Bindings>(alloc: Global, list: &Term, steps: u64, first: u64) -> Result<B, Memory>
    requires { (steps ≤ 1000000) × (first ≤ 1000001) }
    ensures { IfOk result (λ made. HasNoCycle (B.pairs made)) }
{
    let none = none_bound(alloc)?;
    let mut rest = Term::Var(0);
    let mut bindings = unified(alloc, &rest, list, none)?;
    for step in 0..steps {
        let element = Term::Var(first + 2 * step);
        let behind = Term::Var(first + 2 * step + 1);
        let pair = Term::pair(alloc, element, behind)?;
        bindings = unified(alloc, &pair, &rest, bindings)?;
        rest = Term::Var(first + 2 * step + 1);
    }
    Ok(bindings)
}

// Goes down a list by new variables, and says whether its end was reached.
fn reached<B: Bindings>(alloc: Global, list: &Term, steps: u64, first: u64) -> Result<u64, Memory>
    requires { (steps ≤ 1000000) × (first ≤ 1000001) }
{
    let bindings = descend::<B>(alloc, list, steps, first)?;
    let end = bindings.get((first + 2 * steps).saturating_sub(1));
    Ok(u64::from(matches!(end, Some(Term::Nil))))
}

/// So many steps down a list of numbers. It says whether the end was reached.
pub(crate) fn descend_numbers<B: Bindings>(alloc: Global, steps: u64) -> Result<u64, Memory>
    requires { steps ≤ 1000000 }
{
    let list = numbers(alloc, steps)?;
    reached::<B>(alloc, &list, steps, 1)
}

/// So many steps down a list of variables. It says whether the end was reached.
pub(crate) fn descend_variables<B: Bindings>(alloc: Global, steps: u64) -> Result<u64, Memory>
    requires { steps ≤ 1000000 }
{
    let list = variables(alloc, steps)?;
    reached::<B>(alloc, &list, steps, steps + 1)
}

/// Makes two lists of so many numbers the same, and says whether they can be.
pub(crate) fn compare_numbers<B: Bindings>(alloc: Global, count: u64) -> Result<u64, Memory> {
    let left = numbers(alloc, count)?;
    let right = numbers(alloc, count)?;
    let none = none_bound::<B>(alloc)?;
    let found = unify_owned(alloc, &left, &right, none)?;
    Ok(u64::from(found.is_some()))
}
