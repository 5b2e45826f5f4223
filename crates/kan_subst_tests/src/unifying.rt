//! Tests of unification over both bodies of the trait.

ghost use Rattle.std.specs.Prelude.{◌<◌, IfOk, IfSome};
ghost use Rattle.unify_core.specs.Cycles.{HasNoCycle};

use crate::cases::{after_number, binds, high_in_firsts, is_number, none_bound, numbers};
use kan_subst::{ListBindings, TreeBindings};
use kan_terms::{Bindings, Memory, Term};
use std::alloc::Global;
use std::test::Fail;
use unify_core::{occurs, unify, walk};

// Whether what is added is listed in its order.
fn adds_in_order<B: Bindings>(alloc: Global) -> Result<bool, Memory> {
    let left = Term::pair(alloc, Term::Var(0), Term::Num(1))?;
    let right = Term::pair(alloc, Term::Num(2), Term::Var(1))?;
    let bindings = none_bound::<B>(alloc)?;
    let Some(made) = unify(alloc, &left, &right, &bindings)? else {
        return Ok(false);
    };
    Ok(
        made.added.len() == 2
            && binds(made.added.get(0), 0, 2)
            && binds(made.added.get(1), 1, 1)
            && is_number(made.bindings.get(0), 2)
            && is_number(made.bindings.get(1), 1)
            && bindings.get(0).is_none(),
    )
}

// Whether the left variable is bound to the right one.
fn binds_left_variable<B: Bindings>(alloc: Global) -> Result<bool, Memory> {
    let bindings = none_bound::<B>(alloc)?;
    let Some(made) = unify(alloc, &Term::Var(4), &Term::Var(9), &bindings)? else {
        return Ok(false);
    };
    Ok(matches!(made.bindings.get(4), Some(Term::Var(9))) && made.bindings.get(9).is_none())
}

// Whether only equal atoms have a unifier.
fn tells_atoms_apart<B: Bindings>(alloc: Global) -> Result<bool, Memory> {
    let bindings = none_bound::<B>(alloc)?;
    let atoms = [
        Term::Sym(1),
        Term::Sym(2),
        Term::Num(1),
        Term::Truth(true),
        Term::Truth(false),
        Term::Nil,
    ];
    for (at, left) in atoms.iter().enumerate() {
        for (other, right) in atoms.iter().enumerate() {
            let found = unify(alloc, left, right, &bindings)?;
            if found.is_some() != (at == other) {
                return Ok(false);
            }
        }
    }
    Ok(true)
}

// Whether numbers of more than 64 bits are told apart by their values.
fn compares_large_numbers<B: Bindings>(alloc: Global) -> Result<bool, Memory> {
    let bindings = none_bound::<B>(alloc)?;
    let greatest = Term::number(alloc, i128::MAX)?;
    let again = Term::number(alloc, i128::MAX)?;
    let least = Term::number(alloc, i128::MIN)?;
    let same = unify(alloc, &greatest, &again, &bindings)?;
    let apart = unify(alloc, &greatest, &least, &bindings)?;
    let from_small = unify(alloc, &Term::Num(-1), &greatest, &bindings)?;
    Ok(same.is_some() && apart.is_none() && from_small.is_none())
}

// Whether equal lists add nothing, and a longer one has no unifier with them.
fn compares_lists<B: Bindings>(alloc: Global, count: u64) -> Result<bool, Memory>
    requires { count < 1000000 }
{
    let left = numbers(alloc, count, Term::Nil)?;
    let right = numbers(alloc, count, Term::Nil)?;
    let longer = numbers(alloc, count + 1, Term::Nil)?;
    let bindings = none_bound::<B>(alloc)?;
    let Some(made) = unify(alloc, &left, &right, &bindings)? else {
        return Ok(false);
    };
    Ok(made.added.is_empty() && unify(alloc, &left, &longer, &bindings)?.is_none())
}

// Whether two terms around a variable and a number have the one unifier.
fn goes_through<B: Bindings>(alloc: Global, left: &Term, right: &Term) -> Result<bool, Memory> {
    let bindings = none_bound::<B>(alloc)?;
    if !occurs(alloc, 0, left, &bindings)? || occurs(alloc, 0, right, &bindings)? {
        return Ok(false);
    }
    let Some(made) = unify(alloc, left, right, &bindings)? else {
        return Ok(false);
    };
    Ok(
        made.added.len() == 1
            && binds(made.added.get(0), 0, 7)
            && unify(alloc, &Term::Var(0), left, &bindings)?.is_none(),
    )
}

// A list of numbers that stands in the bindings pair by pair: each variable is bound to a pair
// whose rest is the next variable.
fn bind_list<B: Bindings>(alloc: Global, count: u64) -> Result<Option<B>, Memory>
    requires { count < 1000000 }
    ensures { IfOk result (λ found. IfSome found (λ made. HasNoCycle (B.pairs made))) }
{
    let mut bindings = none_bound::<B>(alloc)?;
    for at in 0..count {
        let cell = after_number(alloc, i128::from(at), Term::Var(at + 1))?;
        let Some(made) = unify(alloc, &Term::Var(at), &cell, &bindings)? else {
            return Ok(None);
        };
        bindings = made.bindings;
    }
    Ok(Some(bindings))
}

// Whether a list in the bindings is followed to its end.
fn follows_list<B: Bindings>(alloc: Global, count: u64) -> Result<bool, Memory>
    requires { count < 1000000 }
{
    let Some(bindings) = bind_list::<B>(alloc, count)? else {
        return Ok(false);
    };
    let list = numbers(alloc, count, Term::Nil)?;
    if !matches!(walk(&Term::Var(0), &bindings), Term::Pair(_)) {
        return Ok(false);
    }
    if !occurs(alloc, count, &Term::Var(0), &bindings)? {
        return Ok(false);
    }
    if unify(alloc, &Term::Var(count), &Term::Var(0), &bindings)?.is_some() {
        return Ok(false);
    }
    let Some(made) = unify(alloc, &Term::Var(0), &list, &bindings)? else {
        return Ok(false);
    };
    Ok(made.added.len() == 1 && matches!(made.bindings.get(count), Some(Term::Nil)))
}

#[test]
fn adds_are_in_order(rt: HostRuntime) -> Result<(), Fail> {
    assert!(rt; adds_in_order::<ListBindings>(rt.alloc())?);
    assert!(rt; adds_in_order::<TreeBindings>(rt.alloc())?);
    Ok(())
}

#[test]
fn left_variables_are_bound(rt: HostRuntime) -> Result<(), Fail> {
    assert!(rt; binds_left_variable::<ListBindings>(rt.alloc())?);
    assert!(rt; binds_left_variable::<TreeBindings>(rt.alloc())?);
    Ok(())
}

#[test]
fn atoms_are_told_apart(rt: HostRuntime) -> Result<(), Fail> {
    assert!(rt; tells_atoms_apart::<ListBindings>(rt.alloc())?);
    assert!(rt; tells_atoms_apart::<TreeBindings>(rt.alloc())?);
    Ok(())
}

#[test]
fn large_numbers_are_compared(rt: HostRuntime) -> Result<(), Fail> {
    assert!(rt; compares_large_numbers::<ListBindings>(rt.alloc())?);
    assert!(rt; compares_large_numbers::<TreeBindings>(rt.alloc())?);
    Ok(())
}

#[test]
fn lists_are_compared(rt: HostRuntime) -> Result<(), Fail> {
    assert!(rt; compares_lists::<ListBindings>(rt.alloc(), 2000)?);
    assert!(rt; compares_lists::<TreeBindings>(rt.alloc(), 2000)?);
    Ok(())
}

#[test]
fn high_terms_are_gone_through(rt: HostRuntime) -> Result<(), Fail> {
    let alloc = rt.alloc();
    let left = numbers(alloc, 2048, Term::Var(0))?;
    let right = numbers(alloc, 2048, Term::Num(7))?;
    assert!(rt; goes_through::<ListBindings>(alloc, &left, &right)?);
    assert!(rt; goes_through::<TreeBindings>(alloc, &left, &right)?);
    let left = high_in_firsts(alloc, 2048, Term::Var(0))?;
    let right = high_in_firsts(alloc, 2048, Term::Num(7))?;
    assert!(rt; goes_through::<ListBindings>(alloc, &left, &right)?);
    assert!(rt; goes_through::<TreeBindings>(alloc, &left, &right)?);
    Ok(())
}

#[test]
fn bound_lists_are_followed(rt: HostRuntime) -> Result<(), Fail> {
    assert!(rt; follows_list::<ListBindings>(rt.alloc(), 2000)?);
    assert!(rt; follows_list::<TreeBindings>(rt.alloc(), 2000)?);
    Ok(())
}
