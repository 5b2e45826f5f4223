//! Binding variables one after the other.

use kan_terms::{Bindings, Memory, Term};
use std::alloc::Global;

// A variable bound to its number in a copy of bindings, unless it is bound.
fn bind_number<B: Bindings>(alloc: Global, bindings: &B, var: u64) -> Result<B, Memory> {
    if bindings.get(var).is_some() {
        return bindings.again();
    }
    let number = Term::number(alloc, i128::from(var))?;
    bindings.bind(var, &number)
}

/// Binds so many variables, keeps all versions, and says how many there are.
pub(crate) fn keep_versions<B: Bindings>(alloc: Global, count: u64) -> Result<u64, Memory> {
    let mut versions = Vec::new(alloc);
    let mut last = B::empty(alloc)?;
    for var in 0..count {
        let next = bind_number(alloc, &last, var)?;
        versions.push(last)?;
        last = next;
    }
    Ok(versions.len() as u64)
}
