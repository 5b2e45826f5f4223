//! Cells that are each set once, and what shows that a value in one is of the table.

ghost use Rattle.std.specs.Prelude.{◌≡◌, ◌∷◌, ℕ, List, IfSome, IfOk, IfErr};
ghost use Rattle.boxcar.specs.Table.{first, others};
ghost use Rattle.once_cell.specs.Once.{cell_name};
ghost use Rattle.susp_cells.specs.Sharing.{IsTagged};

use crate::seen::Seen;
use boxcar::Keeps;
use boxcar::slot::{OnceSlot, SlotRule};
use boxcar::tag::{Names, Tag};
use once_cell::race::OnceBox;
use std::alloc::Global;
use std::marker::PhantomData;
use std::sync::Mutex;

/// Values that are each of one table, which the names of its buckets tell.
pub trait Homed {
    ghost home: { Self → List ℕ };
}

// What was seen is of the cell with the first name, and its value of the table with the others.
pub struct SameHome;

impl<F: Homed> SlotRule<Seen<F>> for SameHome {
    ghost holds = { λ tag s. (s.cell ≡ first tag) × (F.home s.value ≡ others tag) };
}

// A cell, and beside it what the one who set it has seen.
#[derive(Drop)]
pub struct Entry<F: Homed + Drop> {
    pub(crate) cell: OnceBox<F>,
    pub(crate) shown: OnceSlot<Seen<F>, SameHome>,
}

// What shows the value of an entry is of its own cell, and of the table with these names.
pub struct SameTag;

impl<F: Homed + Drop> Keeps<Entry<F>> for SameTag {
    ghost holds = { λ names _ e. IsTagged names e };
}

#[derive(Drop)]
struct Named<F: Drop> {
    cell: OnceBox<F>,
    tag: Tag,
}

struct CellFirst<F>(PhantomData<F>);

impl<F: Drop> Names<Named<F>> for CellFirst<F> {
    ghost numbers = { λ x. cell_name x.cell ∷ x.tag.numbers };
}

// The same tag once more.
struct Same;

impl Names<Tag> for Same {
    ghost numbers = { λ t. t.numbers };
}

impl<F: Homed + Drop> Entry<F> {
    // An entry that isn't set, of the table with these names.
    pub(crate) fn new(alloc: Global, names: &Tag) -> Entry<F>
        ensures { result.shown.tag ≡ cell_name result.cell ∷ names.now.numbers }
    {
        let named = Named {
            cell: OnceBox::new(alloc),
            tag: Tag::of::<Tag, Same>(names),
        };
        let tag = Tag::of::<Named<F>, CellFirst<F>>(&named);
        let Named { cell, tag: _ } = named;
        Entry {
            cell,
            shown: OnceSlot::new(&tag),
        }
    }

    // The value, and that it was seen.
    pub(crate) fn read(&self) -> Option<(&F, Seen<F>)>
        requires { first self.now.shown.tag ≡ cell_name self.now.cell }
        ensures home { IfSome result (λ r. F.home r.0.now ≡ others self.now.shown.tag) }
        ensures seen { IfSome result (λ r. (r.1.cell ≡ cell_name self.now.cell)
            × (r.1.value ≡ r.0.now)) }
    {
        let written = self.shown.witness()?;
        let mut note = self.cell.note();
        self.shown.value(&written).tell(&mut note);
        match self.cell.get_as(&mut note) {
            Some(value) => Some((value, Seen::of(&mut note, value))),
            None => unreachable!(),
        }
    }

    // The value that was seen.
    pub(crate) fn value<'a>(&'a self, seen: &Seen<F>) -> &'a F
        requires { seen.now.cell ≡ cell_name self.now.cell }
        ensures { result.now ≡ seen.now.value }
    {
        let mut note = self.cell.note();
        seen.tell(&mut note);
        match self.cell.get_as(&mut note) {
            Some(value) => value,
            None => unreachable!(),
        }
    }

    // Sets the cell, or hands the value back where it is set.
    pub(crate) fn set(&self, value: Box<F>) -> Result<Seen<F>, Box<F>>
        requires cell { first self.now.shown.tag ≡ cell_name self.now.cell }
        requires home { F.home value.value ≡ others self.now.shown.tag }
        ensures seen { IfOk result (λ s. (s.cell ≡ cell_name self.now.cell)
            × (s.value ≡ value.value)) }
        ensures back { IfErr result (λ back. back.value ≡ value.value) }
    {
        let mut note = self.cell.note();
        match self.cell.set_as(value, &mut note) {
            Ok(_) => match self.cell.get_as(&mut note) {
                Some(set) => {
                    let _ = self.shown.set_written(Seen::of(&mut note, set));
                    Ok(Seen::of(&mut note, set))
                }
                None => unreachable!(),
            },
            Err(back) => Err(back),
        }
    }

    // What was seen of one cell is one value.
    pub(crate) fn agrees(&self, first: &Seen<F>, second: &Seen<F>)
        requires first { first.now.cell ≡ cell_name self.now.cell }
        requires second { second.now.cell ≡ cell_name self.now.cell }
        ensures { first.now.value ≡ second.now.value }
    {
        let mut note = self.cell.note();
        first.tell(&mut note);
        let mut other = self.cell.note();
        second.tell(&mut other);
        note.compare(other);
    }
}

// The entries of a table.
#[derive(Drop)]
pub struct Cells<F: Homed + Drop> {
    pub(crate) all: boxcar::Vec<Entry<F>, Global, SameTag>,
}

unsafe impl<F: Homed + Drop + Send + Sync> Send for Cells<F> {}

unsafe impl<F: Homed + Drop + Send + Sync> Sync for Cells<F> {}

// What a table keeps until it is dropped, the last first.
pub struct Kept<S: Drop> {
    pub(crate) all: Mutex<Vec<S>>,
}

impl<S: Drop> Drop for Kept<S> {
    fn drop(self) {
        let Kept { all } = self;
        let mut list = all.into_inner();
        for _ in 0..list.len() {
            drop(list.pop());
        }
    }
}

unsafe impl<S: Drop + Send> Send for Kept<S> {}

unsafe impl<S: Drop + Send> Sync for Kept<S> {}
