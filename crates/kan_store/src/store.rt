//! The solved store: constraints that are solved as they come.

ghost use Rattle.std.specs.Prelude.{◌≡◌, ◌^◌, ◌≤◌, ◌+◌, ◌++◌, ◌∷◌, [], true, map, reverse, IfOk};
ghost use Rattle.std.specs.Prelude.{IsTrue, OnOk};
ghost use Rattle.std.specs.Option.{option_to_list};
ghost use Rattle.std.specs.Arc.{arc_value};
ghost use Rattle.kan_model.specs.Programs.Scope.{is_counted};
ghost use Rattle.kan_model.specs.Stores.Kept.{is_kept};
ghost use Rattle.kan_model.specs.Stores.Prims.{equation};
ghost use Rattle.unify_core.specs.Cycles.{HasNoCycle};
ghost use Rattle.diseq.specs.Kept.{AreWatched};
ghost use Rattle.kan_model.specs.Stores.Prims.{prim as primitive};
ghost use Rattle.kan_model.specs.Stores.Store.{with_prim};
ghost use Rattle.type_absence.specs.Types.{made_if};
ghost use Rattle.kan_store.specs.Parts.{Adding, AreInStep, KnownToMake, Resolved, SameParts};
ghost use Rattle.kan_store.specs.Meaning.{lent_pairs, parts_of, store_of};

use crate::history::{History, Tells};
use crate::solved::{Solved, add, copied, unsolved};
use kan_model::{Kind, Prim as Asserted, Store};
use kan_terms::{Bindings, ListOf, Memory, PairLists, Tags, Term, TermPairs};
use std::alloc::Global;
use std::sync::Arc;
use unify_core::{walk, would_add_all};

/// What a store holds. Of what was asserted only the solved parts take memory.
#[derive(Drop)]
pub struct Held<B> {
    solved: Solved<B>,
    counter: u64,
    history: History,
}

/// A store that keeps its constraints solved, behind one pointer. An equal store is one more count
/// of the pointer, and what nobody else holds is changed in place.
#[derive(Drop)]
pub struct SolvedStore<B: Bindings> {
    held: Arc<Held<B>>,
    ghost kept: { IsTrue (is_kept (store_of (arc_value held))) },
    ghost counted: { IsTrue (is_counted (store_of (arc_value held))) },
    ghost bounded: { (arc_value held).counter ≤ 2 ^ 63 },
    ghost in_step: { ∥ AreInStep (parts_of B.pairs (arc_value held).solved)
        (store_of (arc_value held)) ∥₁ },
}

// The primitives of a store with a primitive more.
#[derive(Drop)]
struct Longer<'a> {
    older: &'a History,
    prim: &'a Asserted,
}

// A primitive behind the older ones.
struct Behind;

impl<'a> Tells<Longer<'a>> for Behind {
    ghost prims = { λ longer. longer.older.now.prims ++ primitive longer.prim.now ∷ [] };
}

// What is held once more, with another counter. The trees are shared.
fn copied_with<B: Bindings>(held: &Held<B>, counter: u64) -> Result<Held<B>, Memory>
    ensures same { IfOk result
        (λ copy. SameParts (parts_of B.pairs held.now.solved) (parts_of B.pairs copy.solved)) }
    ensures prims { IfOk result (λ copy. copy.history.prims ≡ held.now.history.prims) }
    ensures counter { IfOk result (λ copy. copy.counter ≡ counter) }
{
    Ok(Held {
        solved: copied(&held.solved)?,
        counter,
        history: held.history.again(),
    })
}

// Adds a primitive to what is held; false where it can't be kept with those before.
fn add_held<B: Bindings>(alloc: Global, held: &mut Held<B>, prim: &Asserted) -> Result<bool, Memory>
    requires no_cycle { HasNoCycle (parts_of B.pairs held.old.solved).bound }
    requires watched { AreWatched (parts_of B.pairs held.old.solved).bound
        (parts_of B.pairs held.old.solved).lists.asserted
        (parts_of B.pairs held.old.solved).lists.watching }
    ensures parts { IfOk result (λ fits. Adding (parts_of B.pairs held.old.solved)
        (primitive prim.now) (made_if fits (parts_of B.pairs held.new.solved))) }
    ensures store { OnOk result (store_of held.new ≡
        with_prim (store_of held.old) (primitive prim.now)) }
{
    held.history = History::of::<Longer, Behind>(&Longer {
        older: &held.history,
        prim,
    });
    add(alloc, &mut held.solved, prim)
}

// Adds a primitive to what is behind a pointer, in place where nobody else has the pointer; false
// where it can't be kept with those before.
fn add_behind<B: Bindings>(
    alloc: Global,
    held: &mut Arc<Held<B>>,
    prim: &Asserted,
) -> Result<bool, Memory>
    requires { ∥ AreInStep (parts_of B.pairs (arc_value held.old).solved)
        (store_of (arc_value held.old)) ∥₁ }
    ensures made { IfOk result (λ fits.
        KnownToMake (with_prim (store_of (arc_value held.old)) (primitive prim.now))
        (made_if fits (parts_of B.pairs (arc_value held.new).solved))) }
    ensures store { OnOk result (store_of (arc_value held.new) ≡
        with_prim (store_of (arc_value held.old)) (primitive prim.now)) }
{
    match Arc::get_mut(held) {
        Some(own) => add_held(alloc, own, prim),
        None => {
            let mut copy = copied_with(&**held, held.counter)?;
            let fits = add_held(alloc, &mut copy, prim)?;
            *held = Arc::new(alloc, copy)?;
            Ok(fits)
        }
    }
}

// Sets the counter of what is behind a pointer, in place where nobody else has the pointer.
fn count_behind<B: Bindings>(
    alloc: Global,
    held: &mut Arc<Held<B>>,
    counter: u64,
) -> Result<(), Memory>
    ensures same { OnOk result (SameParts (parts_of B.pairs (arc_value held.old).solved)
        (parts_of B.pairs (arc_value held.new).solved)) }
    ensures prims { OnOk result
        ((arc_value held.new).history.prims ≡ (arc_value held.old).history.prims) }
    ensures counter { OnOk result ((arc_value held.new).counter ≡ counter) }
{
    match Arc::get_mut(held) {
        Some(own) => own.counter = counter,
        None => *held = Arc::new(alloc, copied_with(&**held, counter)?)?,
    }
    Ok(())
}

// Adds what was found, if anything was, at the end of a list.
fn keep_found(left: &mut PairLists, found: Option<TermPairs>) -> Result<(), Memory>
    ensures { OnOk result (left.new ≡ left.old ++ option_to_list found) }
{
    match found {
        None => Ok(()),
        Some(pairs) => match left.push(pairs) {
            Ok(()) => Ok(()),
            Err(_) => Err(Memory),
        },
    }
}

// Of disequalities, the last of which comes first, those whose sides may still become equal, each
// solved anew.
fn may_still_fail<B: Bindings>(
    alloc: Global,
    waiting: &mut Vec<&TermPairs>,
    bindings: &B,
) -> Result<PairLists, Memory>
    requires { HasNoCycle (B.pairs bindings.now) }
    ensures { IfOk result (λ left. Resolved (B.pairs bindings.now)
        (reverse (lent_pairs waiting.old.items)) (map (map equation) left)) }
{
    let mut left = ListOf::new(alloc);
    while let Some(pairs) = waiting.pop() {
        let found = would_add_all(alloc, pairs.items(), bindings)?;
        keep_found(&mut left, found)?;
    }
    Ok(left)
}

impl<B: Bindings> SolvedStore<B> {
    // The store that holds this.
    fn of(alloc: Global, held: Held<B>) -> Result<SolvedStore<B>, Memory>
        requires kept { is_kept (store_of held) ≡ true }
        requires counted { is_counted (store_of held) ≡ true }
        requires bounded { held.counter ≤ 2 ^ 63 }
        requires in_step { ∥ AreInStep (parts_of B.pairs held.solved) (store_of held) ∥₁ }
        ensures { IfOk result (λ made. store_of (arc_value made.held) ≡ store_of held) }
    {
        Ok(SolvedStore {
            held: Arc::new(alloc, held)?,
        })
    }
}

impl<B: Bindings> Store for SolvedStore<B> {
    ghost use Rattle.kan_store.specs.SolvedStores.{store_in};

    ghost meaning = { λ store. store_in store };

    ghost kept = { λ store. store.kept };

    ghost counted = { λ store. store.counted };

    ghost bounded = { λ store. store.bounded };

    fn empty(alloc: Global) -> Result<SolvedStore<B>, Memory> {
        SolvedStore::of(
            alloc,
            Held {
                solved: unsolved(alloc)?,
                counter: 0,
                history: History::empty(),
            },
        )
    }

    fn counter(&self) -> u64 {
        self.held.counter
    }

    fn fresh(&self, alloc: Global, count: u32) -> Result<SolvedStore<B>, Memory> {
        let counter = self.held.counter + u64::from(count);
        SolvedStore::of(alloc, copied_with(&*self.held, counter)?)
    }

    fn fresh_owned(self, alloc: Global, count: u32) -> Result<SolvedStore<B>, Memory> {
        let SolvedStore { held } = self;
        let mut held = held;
        let counter = held.counter + u64::from(count);
        count_behind(alloc, &mut held, counter)?;
        Ok(SolvedStore { held })
    }

    fn assert(&self, alloc: Global, prim: &Asserted) -> Result<Option<SolvedStore<B>>, Memory> {
        self.again(alloc)?.assert_owned(alloc, prim)
    }

    fn assert_owned(
        self,
        alloc: Global,
        prim: &Asserted,
    ) -> Result<Option<SolvedStore<B>>, Memory> {
        let SolvedStore { held } = self;
        let mut held = held;
        if !add_behind(alloc, &mut held, prim)? {
            return Ok(None);
        }
        Ok(Some(SolvedStore { held }))
    }

    fn again(&self, _alloc: Global) -> Result<SolvedStore<B>, Memory> {
        Ok(SolvedStore {
            held: Arc::try_clone(&self.held)?,
        })
    }

    fn walk<'a>(&'a self, term: &'a Term) -> &'a Term {
        walk(term, &self.held.solved.bindings)
    }

    fn kind(&self, var: u64) -> Option<Kind> {
        self.held.solved.kinds.of(var)
    }

    fn tags(&self, alloc: Global, var: u64) -> Result<Tags, Memory> {
        self.held.solved.absences.of(alloc, var)
    }

    fn differences(&self, alloc: Global) -> Result<PairLists, Memory> {
        let mut newest_first = self.held.solved.diseqs.newest_first(alloc)?;
        may_still_fail(alloc, &mut newest_first, &self.held.solved.bindings)
    }
}
