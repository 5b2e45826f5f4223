//! The plain store: the list of primitives as they were asserted, solved anew at each step.

ghost use Rattle.std.specs.Prelude.{◌≡◌, ◌^◌, ◌≤◌, ◌++◌, ◌∷◌, [], true, map, IfOk, OnOk, IsTrue};
ghost use Rattle.std.specs.Prelude.{option_map};
ghost use Rattle.kan_model.specs.Stores.Solve as spec;
ghost use Rattle.kan_model.specs.Stores.Kept.{is_kept};
ghost use Rattle.kan_model.specs.Programs.Scope.{is_counted};
ghost use Rattle.kan_model.specs.Stores.Calls.{is_answer, Gives};
ghost use Rattle.kan_model.specs.Stores.Store.{equations};
ghost use Rattle.kan_model.specs.Stores.Prims.{equation, prim as primitive};
ghost use Rattle.kan_solving.specs.Solving.{replaced_by, on_stack};
ghost use Rattle.kan_plain.specs.Meaning.{store_of};

use crate::keeping::holds_under;
use crate::looking::{kind_of, list_differences, list_tags, looked};
use kan_model::{Kind, Prim as Asserted, Store, copied};
use kan_solving::{LeftFirst, Replaced, copied_answer, solve};
use kan_terms::{Memory, PairLists, Tags, Term, TermPair};
use std::alloc::Global;

/// A store that keeps the list of its primitives and the answer of its equations.
#[derive(Drop)]
pub struct PlainStore {
    prims: Vec<Asserted>,
    counter: u64,
    answer: Vec<Replaced>,
    ghost kept: { IsTrue (is_kept (store_of prims.items counter)) },
    ghost counted: { IsTrue (is_counted (store_of prims.items counter)) },
    ghost bounded: { counter ≤ 2 ^ 63 },
    ghost answered: { IsTrue (is_answer (map replaced_by answer.items)
        (spec.solve (equations (map primitive prims.items)))) },
}

// Adds the equation of a primitive, where it is one.
fn push_equation(prim: &Asserted, listed: &mut Vec<TermPair>) -> Result<(), Memory>
    ensures { OnOk result (map equation listed.new.items ≡ map equation listed.old.items
        ++ equations (primitive prim.now ∷ [])) }
{
    if let Asserted::Same(left, right) = prim {
        let first = left.again()?;
        let rest = right.again()?;
        listed.push(TermPair { first, rest })?;
    }
    Ok(())
}

// The equations of primitives, in their order.
fn list_equations(alloc: Global, prims: &[Asserted]) -> Result<Vec<TermPair>, Memory>
    ensures { IfOk result (λ listed. map equation listed.items
        ≡ equations (map primitive prims.now)) }
{
    let mut listed = Vec::new(alloc);
    for prim in prims {
        push_equation(prim, &mut listed)?;
    }
    Ok(listed)
}

// The equations of primitives, the first on top of the stack.
fn stack_equations(alloc: Global, prims: &[Asserted]) -> Result<Vec<TermPair>, Memory>
    ensures { IfOk result (λ pending. on_stack pending.items
        ≡ equations (map primitive prims.now)) }
{
    let mut pending = list_equations(alloc, prims)?;
    pending.reverse();
    Ok(pending)
}

// The answer of the equations of primitives.
fn answer_of(alloc: Global, prims: &[Asserted]) -> Result<Option<Vec<Replaced>>, Memory>
    ensures { IfOk result (λ answer. option_map (λ made. map replaced_by made.items) answer
        ≡ spec.solve (equations (map primitive prims.now))) }
{
    let pending = stack_equations(alloc, prims)?;
    solve(alloc, pending, &LeftFirst)
}

impl PlainStore {
    // The store of these primitives, where they are kept.
    fn of(alloc: Global, prims: Vec<Asserted>, counter: u64) -> Result<Option<PlainStore>, Memory>
        requires counted { is_counted (store_of prims.items counter) ≡ true }
        requires bounded { counter ≤ 2 ^ 63 }
        ensures { IfOk result (λ made. Gives (store_of prims.items counter)
            (option_map (λ store. store_of store.prims.items store.counter) made)) }
    {
        let Some(answer) = answer_of(alloc, &prims)? else {
            return Ok(None);
        };
        let holds = holds_under(alloc, &answer, &prims)?;
        if !holds {
            return Ok(None);
        }
        Ok(Some(PlainStore {
            prims,
            counter,
            answer,
        }))
    }
}

impl Store for PlainStore {
    ghost use Rattle.kan_plain.specs.PlainStores.{store_in};

    ghost meaning = { λ store. store_in store };

    ghost kept = { λ store. store.kept };

    ghost counted = { λ store. store.counted };

    ghost bounded = { λ store. store.bounded };

    fn empty(alloc: Global) -> Result<PlainStore, Memory> {
        Ok(PlainStore {
            prims: Vec::new(alloc),
            counter: 0,
            answer: Vec::new(alloc),
        })
    }

    fn counter(&self) -> u64 {
        self.counter
    }

    fn fresh(&self, alloc: Global, count: u32) -> Result<PlainStore, Memory> {
        Ok(PlainStore {
            prims: copied(alloc, &self.prims)?,
            counter: self.counter + u64::from(count),
            answer: copied_answer(alloc, &self.answer)?,
        })
    }

    fn fresh_owned(self, alloc: Global, count: u32) -> Result<PlainStore, Memory> {
        self.fresh(alloc, count)
    }

    fn assert(&self, alloc: Global, prim: &Asserted) -> Result<Option<PlainStore>, Memory> {
        let mut prims = copied(alloc, &self.prims)?;
        prims.push(prim.again()?)?;
        PlainStore::of(alloc, prims, self.counter)
    }

    fn assert_owned(self, alloc: Global, prim: &Asserted) -> Result<Option<PlainStore>, Memory> {
        self.assert(alloc, prim)
    }

    fn again(&self, alloc: Global) -> Result<PlainStore, Memory> {
        Ok(PlainStore {
            prims: copied(alloc, &self.prims)?,
            counter: self.counter,
            answer: copied_answer(alloc, &self.answer)?,
        })
    }

    fn walk<'a>(&'a self, term: &'a Term) -> &'a Term {
        looked(&self.answer, term)
    }

    fn kind(&self, var: u64) -> Option<Kind> {
        kind_of(&self.answer, &self.prims, var)
    }

    fn tags(&self, alloc: Global, var: u64) -> Result<Tags, Memory> {
        let tags = list_tags(alloc, &self.answer, &self.prims, var)?;
        Ok(tags)
    }

    fn differences(&self, alloc: Global) -> Result<PairLists, Memory> {
        let lists = list_differences(alloc, &self.prims)?;
        Ok(lists)
    }
}
