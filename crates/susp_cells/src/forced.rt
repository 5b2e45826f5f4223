//! The forces of suspensions, and what shows the one that a suspension was settled with.

ghost use Rattle.std.specs.Prelude.{◌≡◌, map};
ghost use Rattle.once_cell.specs.Once.{cell_name};
ghost use Rattle.susp_cells.specs.Forces.{IsForceOf, force_prop};

use crate::cells::{Entry, Homed, SameTag};
use crate::seen::Seen;
use crate::suspensions::{LabelToken, Susp};
use boxcar::Pushed;
use kan_model::Store;
use std::alloc::Global;
use stream_core::Stores;

/// The force of what a suspension stands for.
#[derive(Drop)]
pub struct Forced<St: Store> {
    /// The suspension.
    pub of: Susp<St>,
    /// The stores of its force.
    pub heads: Stores<St>,
    /// How its force goes on, where it does.
    pub tail: Option<Susp<St>>,
    ghost is_force: { IsForceOf of (map St.meaning heads) tail } by { force_prop of
        (map St.meaning heads) tail },
}

unsafe impl<St: Store + Send + Sync> Send for Forced<St> {}

unsafe impl<St: Store + Send + Sync> Sync for Forced<St> {}

impl<St: Store> Homed for Forced<St> {
    ghost home = { λ f. f.of.home };
}

/// That a suspension is settled, and with which value, which the holder has seen.
#[derive(Drop)]
pub struct Known<St: Store> {
    pub(crate) label: LabelToken,
    pub(crate) cell: Pushed<Entry<Forced<St>>, Global, SameTag>,
    pub(crate) seen: Seen<Forced<St>>,
    ghost placed: { cell.index ≡ label.value.place },
    ghost of_cell: { seen.cell ≡ cell_name cell.value.cell },
    ghost of_label: { seen.value.of.token.index ≡ label.index },
}

unsafe impl<St: Store + Send + Sync> Send for Known<St> {}

unsafe impl<St: Store + Send + Sync> Sync for Known<St> {}

impl<St: Store> Known<St> {
    ghost use Rattle.susp_cells.specs.Tables.{known_index};

    /// The index of the suspension. It takes no memory.
    pub fn index(&self) -> u64
        ensures { result ≡ known_index self.now }
    {
        self.label.index() as u64
    }
}

/// What came of a try to settle a suspension.
#[derive(Drop)]
pub enum Settled<'a, St: Store> {
    /// It is settled with the value that was given.
    Mine(Known<St>),
    /// It was settled before, with a value that is known now. The one that was given comes back.
    Theirs(Known<St>, Box<Forced<St>>),
    /// Its cell holds the force of another suspension. The value that was given comes back.
    Apart(&'a Forced<St>, Box<Forced<St>>),
    /// Nothing is told. The value that was given comes back.
    Unseen(Box<Forced<St>>),
}
