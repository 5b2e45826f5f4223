//! Lists, which contracts see as the list of their items.

ghost use Rattle.std.specs.Prelude.{◌≡◌, ◌<◌, ◌↔◌, [], ◌∷◌, ◌++◌, length, slice_get};
ghost use Rattle.std.specs.Prelude.{IsTrue, IfErr, IfSome, IfNone, OnOk, OnErr, IsSome};
ghost use Rattle.std.specs.Option.{option_copied};
ghost use Rattle.std.specs.Borrow.{Array, Lends, sem};
ghost use Rattle.kan_terms.specs.Lists.{written_over};
ghost use Rattle.kan_terms.specs.contracts.list.ListOf.{the_row};

use std::alloc::Global;
use std::marker::Model;

/// A list that grows and shrinks at its end.
#[derive(Drop)]
pub struct ListOf<T> {
    stored: Vec<T>,
}

impl<T> Model for ListOf<T> {
    ghost use Rattle.std.specs.Prelude.{List};

    ghost Value = { List T };

    ghost view = { λ list. list.stored.items };
}

impl<T> ListOf<T> {
    /// The empty list, which takes no memory until an item is pushed.
    pub fn new(alloc: Global) -> Self
        ensures { result ≡ [] }
    {
        ListOf {
            stored: Vec::new(alloc),
        }
    }

    /// The list of the items of a vector, in the same order.
    pub fn of(items: Vec<T>) -> Self
        ensures { result ≡ items.items }
    {
        ListOf { stored: items }
    }

    /// How many items the list has.
    pub fn len(&self) -> usize
        ensures { result ≡ length self.now }
    {
        self.stored.len()
    }

    /// Whether the list has no item.
    pub fn is_empty(&self) -> bool
        ensures { IsTrue result ↔ (self.now ≡ []) }
    {
        self.stored.is_empty()
    }

    /// The item at an index.
    pub fn get(&self, at: usize) -> Option<&T>
        ensures item { option_copied result ≡ slice_get self.now at }
        ensures found { IsSome result ↔ (at < length self.now) }
    {
        self.stored.get(at)
    }

    /// All items in order.
    pub fn items(&self) -> &[T]
        ensures { result.now ≡ self.now }
    {
        &self.stored
    }

    /// All items in order, to be changed. The list is then what was written.
    pub fn items_mut(&mut self) -> &mut [T]
        ensures* written { sem 𝓛 (Lends (the_row T.row) (Array T.row 0) self.entry result
            (written_over self.old)) }
        ensures shown { result.now ≡ self.old }
    {
        self.stored.as_mut_slice()
    }

    /// Takes the last item out.
    pub fn pop(&mut self) -> Option<T>
        ensures found { IsSome result ↔ (0 < length self.old) }
        ensures last { IfSome result (λ item. self.old ≡ self.new ++ item ∷ []) }
        ensures empty { IfNone result (self.new ≡ []) }
    {
        self.stored.pop()
    }

    /// Adds an item at the end, or hands it back for want of memory.
    pub fn push(&mut self, item: T) -> Result<(), T>
        ensures added { OnOk result (self.new ≡ self.old ++ item ∷ []) }
        ensures refused { IfErr result (λ back. back ≡ item) }
        ensures unchanged { OnErr result (self.new ≡ self.old) }
    {
        match self.stored.push(item) {
            Ok(()) => Ok(()),
            Err(refused) => Err(refused.value),
        }
    }
}
