//! Bindings in one list, which is copied at each `bind`.

ghost use Rattle.std.specs.Prelude.{◌≡◌, ◌++◌, map, OnOk};
ghost use Rattle.std.specs.Option.{option_map};
ghost use Rattle.kan_terms.specs.Bound.{bound_to};
ghost use Rattle.kan_terms.specs.Greatest.{greatest_bound};
ghost use Rattle.kan_terms.specs.Terms.{tree};
ghost use Rattle.kan_subst.specs.Meaning.{pair};

use kan_terms::{Bindings, Memory, Term, greater_of};
use std::alloc::Global;

// A variable with the term that it is bound to.
#[derive(Drop)]
struct Binding {
    var: u64,
    term: Term,
}

/// Bindings in one list, the newest first.
#[derive(Drop)]
pub struct ListBindings {
    stored: Vec<Binding>,
    alloc: Global,
}

// Writes bindings once more, behind those that are there.
fn copy_behind(stored: &[Binding], made: &mut Vec<Binding>) -> Result<(), Memory>
    ensures { OnOk result (map pair made.new.items ≡ map pair made.old.items ++
        map pair stored.now) }
{
    for binding in stored {
        made.push(Binding {
            var: binding.var,
            term: binding.term.again()?,
        })?;
    }
    Ok(())
}

// The term of the first binding of a variable.
fn find<'a>(stored: &'a [Binding], var: u64) -> Option<&'a Term>
    ensures { option_map (λ term. tree term.now) result ≡ bound_to var (map pair stored.now) }
{
    for binding in stored {
        if binding.var == var {
            return Some(&binding.term);
        }
    }
    None
}

// The greatest variable of bindings, on either side.
fn greatest_of(stored: &[Binding]) -> Option<u64>
    ensures { result ≡ greatest_bound (map pair stored.now) }
{
    let mut left = stored.len();
    let mut greatest = None;
    while left > 0 {
        left -= 1;
        let binding = &stored[left];
        let own = greater_of(Some(binding.var), binding.term.greatest_variable());
        greatest = greater_of(own, greatest);
    }
    greatest
}

impl Bindings for ListBindings {
    ghost use Rattle.kan_subst.specs.Meaning.{pairs_in};

    ghost pairs = { λ bindings. pairs_in bindings };

    fn empty(alloc: Global) -> Result<ListBindings, Memory> {
        Ok(ListBindings {
            stored: Vec::new(alloc),
            alloc,
        })
    }

    fn get(&self, var: u64) -> Option<&Term> {
        find(&self.stored, var)
    }

    fn bind(&self, var: u64, term: &Term) -> Result<ListBindings, Memory> {
        let mut stored = Vec::with_capacity(self.alloc, self.stored.len() + 1)?;
        stored.push(Binding {
            var,
            term: term.again()?,
        })?;
        copy_behind(&self.stored, &mut stored)?;
        Ok(ListBindings {
            stored,
            alloc: self.alloc,
        })
    }

    fn bind_owned(self, var: u64, term: &Term) -> Result<ListBindings, Memory> {
        self.bind(var, term)
    }

    fn greatest_variable(&self) -> Option<u64> {
        greatest_of(&self.stored)
    }

    fn again(&self) -> Result<ListBindings, Memory> {
        let mut copy = Vec::with_capacity(self.alloc, self.stored.len())?;
        copy_behind(&self.stored, &mut copy)?;
        Ok(ListBindings {
            stored: copy,
            alloc: self.alloc,
        })
    }
}
