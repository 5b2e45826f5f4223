//! Which stores are kept, worked out by hand.

ghost use Rattle.std.specs.Prelude.{◌≡◌, true};
ghost use Rattle.kan_model.specs.Stores.Prims.{prim as primitive};
ghost use Rattle.kan_model.specs.Programs.Scope.{sides_below};

use crate::sketches::{Atom, Sketch, Step, nested_prim, step_prim};
use kan_model::{Prim, Store};
use kan_plain::PlainStore;
use kan_store::SolvedStore;
use kan_subst::{ListBindings, TreeBindings};
use std::alloc::Global;
use std::process::Abort;
use std::test::Fail;

/// The first variable.
pub(crate) const X: Sketch = Sketch::Of(Atom::X);

/// The second one.
pub(crate) const Y: Sketch = Sketch::Of(Atom::Y);

/// The third one.
pub(crate) const Z: Sketch = Sketch::Of(Atom::Z);

/// The fourth one.
pub(crate) const W: Sketch = Sketch::Of(Atom::W);

/// A symbol that is kept out of terms.
pub(crate) const A: Sketch = Sketch::Of(Atom::Sym(5));

/// Another symbol.
pub(crate) const B: Sketch = Sketch::Of(Atom::Sym(6));

// A number.
const ONE: Sketch = Sketch::Of(Atom::Num(1));

// Another number.
const TWO: Sketch = Sketch::Of(Atom::Num(2));

// A string.
const WORD: Sketch = Sketch::Of(Atom::Str(0));

// The store with one primitive more, where there is one.
fn with_step<S: Store>(alloc: Global, store: S, prim: &Prim) -> Result<Option<S>, Fail>
    requires below { sides_below 4 (primitive prim.now) ≡ true }
{
    if store.counter() != 4 {
        return Err(Fail::from("another counter"));
    }
    let made = store.assert_owned(alloc, prim)?;
    Ok(made)
}

/// The store with four variables and these primitives, where there is one.
pub(crate) fn with_steps<S: Store>(alloc: Global, steps: &[Step]) -> Result<Option<S>, Fail> {
    let mut store = S::empty(alloc)?.fresh_owned(alloc, 4)?;
    for step in steps {
        let prim = step_prim(alloc, *step)?;
        match with_step(alloc, store, &prim)? {
            Some(longer) => store = longer,
            None => return Ok(None),
        }
    }
    Ok(Some(store))
}

// Demands of one store that it is there, or isn't.
fn expect_kept<S: Store>(
    rt: &(impl Abort + Alloc<A = Global>),
    steps: &[Step],
    kept: bool,
) -> Result<(), Fail> {
    let made = with_steps::<S>(rt.alloc(), steps)?;
    assert_eq!(rt; made.is_some(), kept);
    Ok(())
}

/// Demands of each store with these primitives that it is there, or isn't.
pub(crate) fn expect(
    rt: &(impl Abort + Alloc<A = Global>),
    steps: &[Step],
    kept: bool,
) -> Result<(), Fail> {
    expect_kept::<PlainStore>(rt, steps, kept)?;
    expect_kept::<SolvedStore<ListBindings>>(rt, steps, kept)?;
    expect_kept::<SolvedStore<TreeBindings>>(rt, steps, kept)
}

#[test]
fn types_meet_through_equations(rt: HostRuntime) -> Result<(), Fail> {
    let typed = [Step::Symbol(X), Step::Same(X, Y)];
    expect(&rt, &typed, true)?;
    let twice = [Step::Symbol(X), Step::Same(X, Y), Step::Number(Y)];
    expect(&rt, &twice, false)?;
    let first = [Step::Symbol(X), Step::Number(Y), Step::Same(X, Y)];
    expect(&rt, &first, false)?;
    let turned = [Step::Symbol(X), Step::Number(Y), Step::Same(Y, X)];
    expect(&rt, &turned, false)?;
    let strings = [Step::Text(X), Step::Symbol(Y), Step::Same(Y, X)];
    expect(&rt, &strings, false)
}

#[test]
fn types_meet_terms(rt: HostRuntime) -> Result<(), Fail> {
    expect(&rt, &[Step::Symbol(WORD)], false)?;
    expect(&rt, &[Step::Text(WORD)], true)?;
    expect(&rt, &[Step::Text(A)], false)?;
    expect(&rt, &[Step::Number(ONE)], true)?;
    let string = [Step::Same(X, WORD), Step::Symbol(X)];
    expect(&rt, &string, false)?;
    let later = [Step::Symbol(X), Step::Same(X, WORD)];
    expect(&rt, &later, false)?;
    let pair = [
        Step::Same(X, Sketch::Pair(Atom::Y, Atom::Z)),
        Step::Number(X),
    ];
    expect(&rt, &pair, false)
}

#[test]
fn a_symbol_is_kept_out(rt: HostRuntime) -> Result<(), Fail> {
    let pair = Sketch::Pair(Atom::Y, Atom::Z);
    let inside = [Step::Absent(5, X), Step::Same(X, pair), Step::Same(Z, A)];
    expect(&rt, &inside, false)?;
    let other = [Step::Absent(5, X), Step::Same(X, pair), Step::Same(Z, B)];
    expect(&rt, &other, true)?;
    let twice = [Step::Absent(5, X), Step::Absent(5, X), Step::Same(X, A)];
    expect(&rt, &twice, false)?;
    expect(&rt, &[Step::Absent(5, A)], false)?;
    expect(&rt, &[Step::Absent(5, B)], true)
}

// Three pairs, one in the other: the rest of each is the next variable in turn.
const DEEP: [Step; 4] = [
    Step::Absent(5, X),
    Step::Same(X, Sketch::Pair(Atom::Nil, Atom::Y)),
    Step::Same(Y, Sketch::Pair(Atom::Nil, Atom::Z)),
    Step::Same(Z, Sketch::Pair(Atom::Nil, Atom::W)),
];

#[test]
fn a_symbol_is_kept_out_of_what_is_deep(rt: HostRuntime) -> Result<(), Fail> {
    let [none, first, second, third] = DEEP;
    let inside = [none, first, second, third, Step::Same(W, A)];
    expect(&rt, &inside, false)?;
    let outside = [none, first, second, third, Step::Same(W, B)];
    expect(&rt, &outside, true)?;
    let late = [first, second, third, Step::Same(W, A), none];
    expect(&rt, &late, false)
}

// Whether a symbol that is kept out of the first variable keeps ten pairs out that end in an atom.
fn keeps_out<S: Store>(alloc: Global, last: Atom) -> Result<bool, Fail> {
    let store = with_steps::<S>(alloc, &[Step::Absent(5, X)])?.ok_or("not kept")?;
    let prim = nested_prim(alloc, last)?;
    let made = with_step(alloc, store, &prim)?;
    Ok(made.is_none())
}

#[test]
fn a_symbol_is_kept_out_below_ten_pairs(rt: HostRuntime) -> Result<(), Fail> {
    let plain = keeps_out::<PlainStore>(rt.alloc(), Atom::Sym(5))?;
    let listed = keeps_out::<SolvedStore<ListBindings>>(rt.alloc(), Atom::Sym(5))?;
    let treed = keeps_out::<SolvedStore<TreeBindings>>(rt.alloc(), Atom::Sym(5))?;
    assert!(rt; plain && listed && treed);
    let plain = keeps_out::<PlainStore>(rt.alloc(), Atom::Sym(6))?;
    let listed = keeps_out::<SolvedStore<ListBindings>>(rt.alloc(), Atom::Sym(6))?;
    let treed = keeps_out::<SolvedStore<TreeBindings>>(rt.alloc(), Atom::Sym(6))?;
    assert!(rt; !(plain || listed || treed));
    Ok(())
}

#[test]
fn terms_stay_different(rt: HostRuntime) -> Result<(), Fail> {
    expect(&rt, &[Step::Differ(X, X)], false)?;
    let same = [Step::Differ(X, Y), Step::Same(X, Z), Step::Same(Y, Z)];
    expect(&rt, &same, false)?;
    let other_side = [Step::Differ(X, A), Step::Same(Y, X), Step::Same(Y, A)];
    expect(&rt, &other_side, false)?;
    let left = Sketch::Pair(Atom::X, Atom::Y);
    let right = Sketch::Pair(Atom::Num(1), Atom::Z);
    let half = [Step::Differ(left, right), Step::Same(X, ONE)];
    expect(&rt, &half, true)?;
    let whole = [
        Step::Differ(left, right),
        Step::Same(X, ONE),
        Step::Same(Z, Y),
    ];
    expect(&rt, &whole, false)
}

#[test]
fn what_became_different_stays_so(rt: HostRuntime) -> Result<(), Fail> {
    let left = Sketch::Pair(Atom::X, Atom::Y);
    let right = Sketch::Pair(Atom::Num(1), Atom::Num(2));
    let done = [
        Step::Differ(left, right),
        Step::Same(X, TWO),
        Step::Same(Y, TWO),
    ];
    expect(&rt, &done, true)
}

#[test]
fn three_terms_watch_one_variable(rt: HostRuntime) -> Result<(), Fail> {
    let watched = [
        Step::Differ(X, A),
        Step::Differ(X, B),
        Step::Differ(X, ONE),
        Step::Same(X, TWO),
    ];
    expect(&rt, &watched, true)?;
    let [first, second, third, _] = watched;
    expect(&rt, &[first, second, third, Step::Same(X, A)], false)?;
    expect(&rt, &[first, second, third, Step::Same(X, B)], false)?;
    expect(&rt, &[first, second, third, Step::Same(X, ONE)], false)
}
