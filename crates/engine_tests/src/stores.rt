//! The calls of stores, each made with ample memory.

ghost use Rattle.std.specs.Prelude.{◌≡◌, true, IfOk};
ghost use Rattle.kan_model.specs.Stores.Store.{bare};
ghost use Rattle.kan_model.specs.Stores.Prims.{prim as primitive};
ghost use Rattle.kan_model.specs.Programs.Scope.{sides_below};
ghost use Rattle.kan_model.specs.Stores.Calls.{is_equation};

use kan_model::{Prim, Store};
use kan_plain::PlainStore;
use kan_terms::{Memory, Term};
use std::alloc::Global;
use std::process::Abort;
use std::test::Fail;

// A store with three variables.
fn three_variables<S: Store>(alloc: Global) -> Result<S, Memory>
    ensures { IfOk result (λ made. S.meaning made ≡ bare 3) }
{
    let none = S::empty(alloc)?;
    let made = none.fresh(alloc, 3)?;
    Ok(made)
}

// The store with three variables and two equal terms, where there is one.
fn equal<S: Store>(alloc: Global, prim: &Prim) -> Result<Option<S>, Memory>
    requires below { sides_below 3 (primitive prim.now) ≡ true }
    requires equation { is_equation (primitive prim.now) ≡ true }
{
    let store = three_variables::<S>(alloc)?;
    let made = store.assert(alloc, prim)?;
    Ok(made)
}

// Demands what a store with three variables says where nothing was asserted.
fn expect_nothing_known<S: Store>(rt: &(impl Abort + Alloc<A = Global>)) -> Result<(), Fail> {
    let alloc = rt.alloc();
    let store = three_variables::<S>(alloc)?;
    assert_eq!(rt; store.counter(), 3);
    assert!(rt; matches!(store.walk(&Term::Var(2)), Term::Var(2)));
    assert!(rt; store.kind(2).is_none());
    assert_eq!(rt; store.tags(alloc, 2)?.len(), 0);
    assert_eq!(rt; store.differences(alloc)?.len(), 0);
    assert_eq!(rt; store.again(alloc)?.counter(), 3);
    Ok(())
}

#[test]
fn says_nothing_of_nothing(rt: HostRuntime) -> Result<(), Fail> {
    expect_nothing_known::<PlainStore>(&rt)
}

#[test]
fn keeps_an_equation_and_no_cyclic_term(rt: HostRuntime) -> Result<(), Fail> {
    let alloc = rt.alloc();
    let pair = Term::pair(alloc, Term::Num(1), Term::Var(1))?;
    let prim = Prim::Same(Term::Var(0), pair);
    let store = equal::<PlainStore>(alloc, &prim)?.ok_or("not kept")?;
    assert!(rt; matches!(store.walk(&Term::Var(0)), Term::Pair(_)));
    assert!(rt; matches!(store.walk(&Term::Var(1)), Term::Var(1)));
    let pair = Term::pair(alloc, Term::Num(1), Term::Var(0))?;
    let prim = Prim::Same(Term::Var(0), pair);
    assert!(rt; equal::<PlainStore>(alloc, &prim)?.is_none());
    Ok(())
}
