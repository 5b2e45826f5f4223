//! Tests of the looks for a variable in a term that unification makes, and of those that it skips.

ghost use Rattle.std.specs.Prelude.{IfOk, IfSome};
ghost use Rattle.unify_core.specs.Cycles.{HasNoCycle};

use crate::cases::{after_number, none_bound, numbers};
use kan_subst::{ListBindings, TreeBindings};
use kan_terms::{Bindings, Memory, Term};
use std::alloc::Global;
use std::test::Fail;
use unify_core::unify;

// Bindings in which two terms are the same besides, if they can be.
fn with_same<B: Bindings>(
    alloc: Global,
    left: &Term,
    right: &Term,
    bindings: &B,
) -> Result<Option<B>, Memory>
    requires { HasNoCycle (B.pairs bindings.now) }
    ensures { IfOk result (λ found. IfSome found (λ made. HasNoCycle (B.pairs made))) }
{
    match unify(alloc, left, right, bindings)? {
        Some(made) => Ok(Some(made.bindings)),
        None => Ok(None),
    }
}

// Whether two terms have a unifier where nothing is bound.
fn unify_alone<B: Bindings>(alloc: Global, left: &Term, right: &Term) -> Result<bool, Memory> {
    let bindings = none_bound::<B>(alloc)?;
    Ok(unify(alloc, left, right, &bindings)?.is_some())
}

// Whether two terms have a unifier after two others were made the same.
fn unify_after<B: Bindings>(
    alloc: Global,
    before: (&Term, &Term),
    left: &Term,
    right: &Term,
) -> Result<bool, Memory> {
    let bindings = none_bound::<B>(alloc)?;
    let Some(bound) = with_same(alloc, before.0, before.1, &bindings)? else {
        return Ok(false);
    };
    Ok(unify(alloc, left, right, &bound)?.is_some())
}

// Whether a variable is looked for in a pair, however the variable is met.
fn looks_inside<B: Bindings>(alloc: Global) -> Result<bool, Memory> {
    let x = Term::Var(7);
    let y = Term::Var(3);
    let around_x = after_number(alloc, 1, Term::Var(7))?;
    let around_y = after_number(alloc, 1, Term::Var(3))?;
    let new = unify_alone::<B>(alloc, &x, &around_x)?;
    let turned = unify_alone::<B>(alloc, &around_x, &x)?;
    let old = unify_after::<B>(alloc, (&y, &x), &x, &around_x)?;
    let through_other = unify_after::<B>(alloc, (&x, &y), &x, &around_y)?;
    let apart = unify_alone::<B>(alloc, &x, &around_y)?;
    Ok(!new && !turned && !old && !through_other && apart)
}

// Whether (a . b) and ((b . c) . a), all new, have no unifier.
fn looks_along_the_way<B: Bindings>(alloc: Global) -> Result<bool, Memory> {
    let left = Term::pair(alloc, Term::Var(0), Term::Var(1))?;
    let inner = Term::pair(alloc, Term::Var(1), Term::Var(2))?;
    let right = Term::pair(alloc, inner, Term::Var(0))?;
    Ok(!unify_alone::<B>(alloc, &left, &right)?)
}

// Whether a new variable is bound to an old term, while an old one that stands in it isn't.
fn meets_old_terms<B: Bindings>(alloc: Global) -> Result<bool, Memory> {
    let y = Term::Var(3);
    let around_z = after_number(alloc, 1, Term::Var(5))?;
    let new = unify_after::<B>(alloc, (&y, &around_z), &Term::Var(9), &y)?;
    let inside = unify_after::<B>(alloc, (&y, &around_z), &Term::Var(5), &y)?;
    Ok(new && !inside)
}

// Whether a new variable is looked for in an old term whose variable was bound in this call to a
// term around the new one.
fn meets_what_was_lent<B: Bindings>(alloc: Global) -> Result<bool, Memory> {
    let y = Term::Var(3);
    let around_z = after_number(alloc, 1, Term::Var(5))?;
    let left = Term::pair(alloc, Term::Var(5), Term::Var(9))?;
    let around_x = after_number(alloc, 2, Term::Var(9))?;
    let right = Term::pair(alloc, around_x, Term::Var(3))?;
    let cyclic = unify_after::<B>(alloc, (&y, &around_z), &left, &right)?;
    let around_other = after_number(alloc, 2, Term::Var(8))?;
    let other = Term::pair(alloc, around_other, Term::Var(3))?;
    let finite = unify_after::<B>(alloc, (&y, &around_z), &left, &other)?;
    Ok(!cyclic && finite)
}

// Whether parts without variables are passed over, and the others aren't.
fn passes_over_numbers<B: Bindings>(alloc: Global) -> Result<bool, Memory> {
    let list = numbers(alloc, 100, Term::Nil)?;
    let inside = Term::pair(alloc, list.again()?, Term::Var(0))?;
    let before = Term::pair(alloc, Term::Var(0), list.again()?)?;
    let none = unify_alone::<B>(alloc, &Term::Var(0), &list)?;
    let behind = unify_alone::<B>(alloc, &Term::Var(0), &inside)?;
    let in_front = unify_alone::<B>(alloc, &Term::Var(0), &before)?;
    Ok(none && !behind && !in_front)
}

#[test]
fn variables_are_looked_for(rt: HostRuntime) -> Result<(), Fail> {
    assert!(rt; looks_inside::<ListBindings>(rt.alloc())?);
    assert!(rt; looks_inside::<TreeBindings>(rt.alloc())?);
    Ok(())
}

#[test]
fn new_bindings_are_gone_through(rt: HostRuntime) -> Result<(), Fail> {
    assert!(rt; looks_along_the_way::<ListBindings>(rt.alloc())?);
    assert!(rt; looks_along_the_way::<TreeBindings>(rt.alloc())?);
    Ok(())
}

#[test]
fn new_variables_meet_old_terms(rt: HostRuntime) -> Result<(), Fail> {
    assert!(rt; meets_old_terms::<ListBindings>(rt.alloc())?);
    assert!(rt; meets_old_terms::<TreeBindings>(rt.alloc())?);
    assert!(rt; meets_what_was_lent::<ListBindings>(rt.alloc())?);
    assert!(rt; meets_what_was_lent::<TreeBindings>(rt.alloc())?);
    Ok(())
}

#[test]
fn numbers_are_passed_over(rt: HostRuntime) -> Result<(), Fail> {
    assert!(rt; passes_over_numbers::<ListBindings>(rt.alloc())?);
    assert!(rt; passes_over_numbers::<TreeBindings>(rt.alloc())?);
    Ok(())
}
