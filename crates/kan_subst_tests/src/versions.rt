//! Tests of the versions of bindings.

ghost use Rattle.std.specs.Prelude.{◌<◌, ◌^◌};

use crate::cases::is_number;
use kan_subst::{ListBindings, TreeBindings};
use kan_terms::{Bindings, Memory, Term};
use std::alloc::Global;
use std::test::Fail;

// A variable bound to its own number in a copy of bindings, unless it is bound.
fn bind_own<B: Bindings>(alloc: Global, bindings: &B, var: u64) -> Result<B, Memory> {
    if bindings.get(var).is_some() {
        return bindings.again();
    }
    let number = Term::number(alloc, i128::from(var))?;
    bindings.bind(var, &number)
}

// The same by value.
fn bind_own_in_place<B: Bindings>(alloc: Global, bindings: B, var: u64) -> Result<B, Memory> {
    if bindings.get(var).is_some() {
        return Ok(bindings);
    }
    let number = Term::number(alloc, i128::from(var))?;
    bindings.bind_owned(var, &number)
}

// All versions of bindings, to which the variables below a count were added one after the other.
fn versions_to<B: Bindings>(alloc: Global, count: u64) -> Result<Vec<B>, Memory> {
    let mut versions = Vec::new(alloc);
    let mut last = B::empty(alloc)?;
    for var in 0..count {
        let next = bind_own(alloc, &last, var)?;
        versions.push(last)?;
        last = next;
    }
    versions.push(last)?;
    Ok(versions)
}

// Whether each version has exactly the variables below its number, as far as its first, its last
// and its next one show.
fn are_versions<B: Bindings>(versions: &[B]) -> bool {
    let mut number: u64 = 0;
    for version in versions {
        if number > 0 {
            let last = number - 1;
            if !is_number(version.get(0), 0) || !is_number(version.get(last), i128::from(last)) {
                return false;
            }
        }
        if version.get(number).is_some() {
            return false;
        }
        number = number.saturating_add(1);
    }
    true
}

// Whether the variables below a count, bound in falling order, all have their numbers.
fn falling_order_serves<B: Bindings>(alloc: Global, count: u64) -> Result<bool, Memory> {
    let mut bindings = B::empty(alloc)?;
    for at in 0..count {
        bindings = bind_own_in_place(alloc, bindings, count - 1 - at)?;
    }
    let copy = bindings.again()?;
    for var in 0..count {
        if !is_number(copy.get(var), i128::from(var)) {
            return Ok(false);
        }
    }
    Ok(copy.get(count).is_none() && copy.greatest_variable() == Some(count.saturating_sub(1)))
}

// Whether variables near a number are told apart, also from those with the same low digits.
fn tells_near<B: Bindings>(alloc: Global, number: u64) -> Result<bool, Memory>
    requires positive { 0 < number }
    requires fits { number < 2 ^ 63 }
{
    let vars = [number - 1, 0, number, 15, number + 1, 16];
    let mut bindings = B::empty(alloc)?;
    for var in vars {
        if bindings.get(var).is_some() {
            return Ok(false);
        }
        bindings = bind_own_in_place(alloc, bindings, var)?;
    }
    for var in vars {
        if !is_number(bindings.get(var), i128::from(var)) {
            return Ok(false);
        }
    }
    Ok(bindings.get(number + 16).is_none() && bindings.get(1).is_none())
}

// Whether a version keeps what it has while a newer one is changed in place.
fn older_stays<B: Bindings>(alloc: Global) -> Result<bool, Memory> {
    let older = bind_own(alloc, &B::empty(alloc)?, 3)?;
    let mut newer = older.again()?;
    for var in 0..100 {
        newer = bind_own_in_place(alloc, newer, var)?;
    }
    Ok(older.get(4).is_none() && is_number(older.get(3), 3) && is_number(newer.get(4), 4))
}

#[test]
fn all_versions(rt: HostRuntime) -> Result<(), Fail> {
    let versions = versions_to::<TreeBindings>(rt.alloc(), 65_536)?;
    assert_eq!(rt; versions.len(), 65_537);
    assert!(rt; are_versions(&versions));
    Ok(())
}

#[test]
fn binds_in_falling_order(rt: HostRuntime) -> Result<(), Fail> {
    assert!(rt; falling_order_serves::<ListBindings>(rt.alloc(), 100)?);
    assert!(rt; falling_order_serves::<TreeBindings>(rt.alloc(), 100)?);
    Ok(())
}

#[test]
fn binds_great_variables(rt: HostRuntime) -> Result<(), Fail> {
    assert!(rt; tells_near::<ListBindings>(rt.alloc(), 1 << 62)?);
    assert!(rt; tells_near::<TreeBindings>(rt.alloc(), 1 << 62)?);
    Ok(())
}

#[test]
fn keeps_older_versions(rt: HostRuntime) -> Result<(), Fail> {
    assert!(rt; older_stays::<ListBindings>(rt.alloc())?);
    assert!(rt; older_stays::<TreeBindings>(rt.alloc())?);
    Ok(())
}
