//! The names that have a type.

ghost use Rattle.std.specs.Prelude.{◌≡◌, ◌++◌, IfOk, OnOk};
ghost use Rattle.std.specs.List.{All};
ghost use Rattle.kan_model.specs.Answers.Answer.{names_where};
ghost use Rattle.kan_model.specs.Stores.Kept.{has_type};
ghost use Rattle.kan_model.specs.Stores.Calls.{replacement_of, IsFree};
ghost use Rattle.reify.specs.Typing.{kind_test, here};

use crate::naming::Naming;
use kan_model::{Kind, Store};
use kan_terms::Memory;
use std::alloc::Global;

/// Whether a type is the one that was found.
pub(crate) fn is_kind(kind: Kind, found: Option<Kind>) -> bool
    ensures { result ≡ kind_test kind found }
{
    match kind {
        Kind::Symbol => matches!(found, Some(Kind::Symbol)),
        Kind::Number => matches!(found, Some(Kind::Number)),
        Kind::Text => matches!(found, Some(Kind::Text)),
    }
}

// Whether a variable has a type.
fn has<St: Store>(store: &St, kind: Kind, var: u64) -> bool
    requires { IsFree (St.meaning store.now) var }
    ensures { result
        ≡ has_type kind (replacement_of (St.meaning store.now)) (St.meaning store.now).prims var }
{
    is_kind(kind, store.kind(var))
}

/// Adds the name at an index, where the test holds.
pub(crate) fn add_where(names: &mut Vec<u64>, at: usize, holds: bool) -> Result<(), Memory>
    ensures { OnOk result (names.new.items ≡ names.old.items ++ here holds at) }
{
    if holds {
        names.push(at as u64)?;
    }
    Ok(())
}

/// The names of the variables that have a type.
pub(crate) fn names_of<St: Store>(
    alloc: Global,
    store: &St,
    kind: Kind,
    naming: &Naming,
) -> Result<Vec<u64>, Memory>
    requires free { All (IsFree (St.meaning store.now)) naming.now }
    ensures { IfOk result (λ names. names.items
        ≡ names_where
        (has_type kind (replacement_of (St.meaning store.now)) (St.meaning store.now).prims) 0
        naming.now) }
{
    let mut names = Vec::new(alloc);
    for (at, var) in naming.variables().iter().enumerate() {
        let holds = has(store, kind, *var);
        add_where(&mut names, at, holds)?;
    }
    Ok(names)
}
