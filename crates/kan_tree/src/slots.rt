//! The sixteen places of a node, of which those that are filled have an entry.

ghost use Rattle.std.specs.Prelude.{◌≡◌, ◌<◌, ◌≤◌, ℕ, Some, None, eqb, if◌then◌else◌, OnOk, OnErr};
ghost use Rattle.std.specs.Prelude.{IfOk, map, length, slice_get};
ghost use Rattle.std.specs.Option.{option_map};
ghost use Rattle.std.specs.Borrow.{sem};
ghost use Rattle.kan_tree.specs.Slots.{at, index_in};
ghost use Rattle.kan_tree.specs.Lending.{lends_entry};

use crate::again::Again;
use crate::order::Order;
use kan_terms::Memory;
use std::alloc::Global;

/// Sixteen places. One is filled where there is an entry at its index.
#[derive(Drop)]
pub(crate) struct Slots<E> {
    // The places that are filled come first.
    order: Order,
    entries: Vec<E>,
}

impl<E> Slots<E> {
    /// No place is filled. This takes no memory.
    pub(crate) fn empty(alloc: Global) -> Slots<E>
        ensures { (d : ℕ) → at result d ≡ None }
    {
        Slots {
            order: Order::rising(),
            entries: Vec::new(alloc),
        }
    }

    /// No place is filled, and there is room for eight entries, since more are likely to come.
    pub(crate) fn roomy(alloc: Global) -> Result<Slots<E>, Memory>
        ensures { IfOk result (λ made. (d : ℕ) → at made d ≡ None) }
    {
        Ok(Slots {
            order: Order::rising(),
            entries: Vec::with_capacity(alloc, 8)?,
        })
    }

    /// The index of a place, at which its entry is, if it has one.
    pub(crate) fn index_of(&self, place: usize) -> usize
        requires { place < 16 }
        ensures index { result ≡ index_in self.now place }
        ensures small { result < 16 }
    {
        self.order.index_of(place)
    }

    /// The entry of a place.
    pub(crate) fn get(&self, place: usize) -> Option<&E>
        requires { place < 16 }
        ensures { option_map (λ entry. entry.now) result ≡ at self.now place }
    {
        let index = self.index_of(place);
        self.entries.get(index)
    }

    /// The entry at an index, to be changed.
    pub(crate) fn entry_mut(&mut self, index: usize) -> Option<&mut E>
        ensures* writes_back { sem 𝓛 (lends_entry E.row self.entry index result) }
        ensures value { option_map (λ entry. entry.now) result ≡
            slice_get self.old.entries.items index }
    {
        self.entries.get_mut(index)
    }
}

impl<E: Drop> Slots<E> {
    /// Puts an entry at a place, over the one that is there.
    pub(crate) fn put(&mut self, place: usize, entry: E) -> Result<(), Memory>
        requires { place < 16 }
        ensures ok { OnOk result ((d : ℕ) → at self.new d ≡
            (if eqb d place then Some entry else at self.old d)) }
        ensures err { OnErr result ((d : ℕ) → at self.new d ≡ at self.old d) }
    {
        let index = self.index_of(place);
        let last = self.entries.len();
        if index < last {
            self.entries[index] = entry;
            return Ok(());
        }
        self.entries.push(entry)?;
        if index != last {
            self.order.bring(place, last);
        }
        Ok(())
    }
}

// Entries once more, with room for sixteen at least.
fn copied<E: Again>(alloc: Global, from: &[E]) -> Result<Vec<E>, Memory>
    ensures { IfOk result (λ made. map E.meaning made.items ≡ map E.meaning from.now) }
{
    let mut made = Vec::with_capacity(alloc, from.len().max(16))?;
    for entry in from {
        made.push_reserved(entry.again()?);
    }
    Ok(made)
}

impl<E: Again> Slots<E> {
    /// The places once more, with room for an entry at each, since a copy is made to be written to.
    pub(crate) fn again(&self, alloc: Global) -> Result<Slots<E>, Memory>
        ensures { IfOk result (λ made. (d : ℕ) → option_map E.meaning (at made d) ≡
            option_map E.meaning (at self.now d)) }
    {
        Ok(Slots {
            order: self.order,
            entries: copied(alloc, &self.entries)?,
        })
    }
}
