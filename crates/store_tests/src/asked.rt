//! What stores answer of their variables, worked out by hand.

ghost use Rattle.std.specs.Prelude.{◌≡◌, true};
ghost use Rattle.kan_model.specs.Stores.Calls.{IsFree};

use crate::kept::{A, B, X, Y, Z, expect, with_steps};
use crate::sketches::{Atom, Sketch, Step};
use kan_model::{Kind, Store};
use kan_plain::PlainStore;
use kan_store::SolvedStore;
use kan_subst::{ListBindings, TreeBindings};
use kan_terms::{Tags, Term};
use std::alloc::Global;
use std::process::Abort;
use std::test::Fail;

// Whether a variable stands for itself.
fn is_unbound<S: Store>(store: &S, var: u64) -> bool
    ensures { result ≡ true → IsFree (S.meaning store.now) var }
{
    let term = Term::Var(var);
    match store.walk(&term) {
        Term::Var(found) => *found == var,
        _ => false,
    }
}

// The tags that must not stand in a variable, which is demanded to stand for itself.
fn tags_of<S: Store>(alloc: Global, store: &S, var: u64) -> Result<Tags, Fail> {
    if !is_unbound(store, var) {
        return Err(Fail::from("no open variable"));
    }
    let tags = store.tags(alloc, var)?;
    Ok(tags)
}

// The type of a variable, which is demanded to stand for itself.
fn kind_of<S: Store>(store: &S, var: u64) -> Result<Option<Kind>, Fail> {
    if is_unbound(store, var) {
        Ok(store.kind(var))
    } else {
        Err(Fail::from("no open variable"))
    }
}

// Demands the tags of a variable in one store.
fn expect_tags_of<S: Store>(
    rt: &(impl Abort + Alloc<A = Global>),
    steps: &[Step],
    var: u64,
    wanted: &[u32],
) -> Result<(), Fail> {
    let store = with_steps::<S>(rt.alloc(), steps)?.ok_or("not kept")?;
    let tags = tags_of(rt.alloc(), &store, var)?;
    assert!(rt; tags.items() == wanted);
    Ok(())
}

// Demands them in each store.
fn expect_tags(
    rt: &(impl Abort + Alloc<A = Global>),
    steps: &[Step],
    var: u64,
    wanted: &[u32],
) -> Result<(), Fail> {
    expect_tags_of::<PlainStore>(rt, steps, var, wanted)?;
    expect_tags_of::<SolvedStore<ListBindings>>(rt, steps, var, wanted)?;
    expect_tags_of::<SolvedStore<TreeBindings>>(rt, steps, var, wanted)
}

#[test]
fn tags_go_through_pairs(rt: HostRuntime) -> Result<(), Fail> {
    let pair = Sketch::Pair(Atom::Y, Atom::Z);
    let inside = [Step::Absent(5, X), Step::Same(X, pair), Step::Same(Z, B)];
    expect_tags(&rt, &inside, 1, &[5])?;
    expect_tags(&rt, &[Step::Absent(5, X)], 1, &[])?;
    let two = [Step::Absent(5, X), Step::Absent(6, X)];
    expect_tags(&rt, &two, 0, &[5, 6])
}

// Demands the type of a variable in one store.
fn expect_kind_of<S: Store>(
    rt: &(impl Abort + Alloc<A = Global>),
    steps: &[Step],
    var: u64,
    wanted: Option<Kind>,
) -> Result<(), Fail> {
    let store = with_steps::<S>(rt.alloc(), steps)?.ok_or("not kept")?;
    let kind = kind_of(&store, var)?;
    assert!(rt; kind == wanted);
    Ok(())
}

// Demands it in each store.
fn expect_kind(
    rt: &(impl Abort + Alloc<A = Global>),
    steps: &[Step],
    var: u64,
    wanted: Option<Kind>,
) -> Result<(), Fail> {
    expect_kind_of::<PlainStore>(rt, steps, var, wanted)?;
    expect_kind_of::<SolvedStore<ListBindings>>(rt, steps, var, wanted)?;
    expect_kind_of::<SolvedStore<TreeBindings>>(rt, steps, var, wanted)
}

#[test]
fn types_go_through_equations(rt: HostRuntime) -> Result<(), Fail> {
    let left = [Step::Symbol(X), Step::Same(X, Y)];
    expect_kind(&rt, &left, 1, Some(Kind::Symbol))?;
    let right = [Step::Number(Y), Step::Same(X, Y)];
    expect_kind(&rt, &right, 1, Some(Kind::Number))?;
    let string = [Step::Same(X, Y), Step::Text(X)];
    expect_kind(&rt, &string, 1, Some(Kind::Text))?;
    expect_kind(&rt, &string, 2, None)
}

// How many disequalities a store still has.
fn expect_left_of<S: Store>(
    rt: &(impl Abort + Alloc<A = Global>),
    steps: &[Step],
    wanted: usize,
) -> Result<(), Fail> {
    let store = with_steps::<S>(rt.alloc(), steps)?.ok_or("not kept")?;
    let left = store.differences(rt.alloc())?;
    assert_eq!(rt; left.len(), wanted);
    Ok(())
}

#[test]
fn disequalities_are_left(rt: HostRuntime) -> Result<(), Fail> {
    let open = [Step::Differ(X, Y), Step::Differ(Y, Z)];
    expect_left_of::<SolvedStore<ListBindings>>(&rt, &open, 2)?;
    expect_left_of::<SolvedStore<TreeBindings>>(&rt, &open, 2)?;
    let done = [Step::Differ(X, Y), Step::Same(X, A), Step::Same(Y, B)];
    expect_left_of::<SolvedStore<ListBindings>>(&rt, &done, 0)?;
    expect_left_of::<SolvedStore<TreeBindings>>(&rt, &done, 0)
}

// Whether a store's only disequality is that the variable 1 isn't 2.
fn is_last_pair_left<S: Store>(alloc: Global, steps: &[Step]) -> Result<bool, Fail> {
    let store = with_steps::<S>(alloc, steps)?.ok_or("not kept")?;
    let left = store.differences(alloc)?;
    let pairs = left.get(0).ok_or("none left")?;
    let pair = pairs.get(0).ok_or("no pair")?;
    let is_last = matches!((&pair.first, &pair.rest), (Term::Var(1), Term::Num(2)));
    Ok(left.len() == 1 && pairs.len() == 1 && is_last)
}

#[test]
fn a_pair_that_became_equal_is_left_out(rt: HostRuntime) -> Result<(), Fail> {
    let left = Sketch::Pair(Atom::X, Atom::Y);
    let right = Sketch::Pair(Atom::Num(1), Atom::Num(2));
    let one = Sketch::Of(Atom::Num(1));
    let steps = [Step::Differ(left, right), Step::Same(X, one)];
    let listed = is_last_pair_left::<SolvedStore<ListBindings>>(rt.alloc(), &steps)?;
    let treed = is_last_pair_left::<SolvedStore<TreeBindings>>(rt.alloc(), &steps)?;
    assert!(rt; listed && treed);
    let two = Sketch::Of(Atom::Num(2));
    let [first, second] = steps;
    expect(&rt, &[first, second, Step::Same(Y, two)], false)?;
    let three = [first, Step::Same(X, Sketch::Of(Atom::Num(3)))];
    expect_left_of::<SolvedStore<ListBindings>>(&rt, &three, 0)?;
    expect_left_of::<SolvedStore<TreeBindings>>(&rt, &three, 0)
}
