//! What the note of a cell knew, for any number of readers.

ghost use Rattle.std.specs.Prelude.{◌≡◌, ℕ};
ghost use Rattle.std.specs.declared.option.Option.TheVariants.{Some};
ghost use denote.Sharing.{said};
ghost use Rattle.once_cell.specs.Once.{noted};

use once_cell::race::Note;
use std::marker::{Model, PhantomData};

/// That a cell holds a value. It takes no bytes, and many threads may read it through a `&`.
pub struct Seen<T> {
    marker: PhantomData<T>,
    // The cell's name.
    pub ghost cell: { ℕ },
    // What it holds.
    pub ghost value: { T },
}

impl<T> Model for Seen<T> {
    ghost also_owns = { λ s. noted T.row s.cell (Some s.value) };

    ghost also_shares = { λ s _ κ. said (noted T.row s.cell (Some s.value)) κ };
}

impl<T> Seen<T> {
    /// What a note knows.
    pub fn of(note: &mut Note<T>, value: &T) -> Seen<T>
        requires { note.old.known ≡ Some value.now }
        ensures { (note.new ≡ note.old) × (result.cell ≡ note.old.cell)
            × (result.value ≡ value.now) }
    {
        Seen {
            marker: PhantomData,
        }
    }

    /// Tells it to a note of the same cell.
    pub fn tell(&self, note: &mut Note<T>)
        requires { note.old.cell ≡ self.now.cell }
        ensures { (note.new.cell ≡ self.now.cell) × (note.new.known ≡ Some self.now.value) }
    {}
}

impl<T> Drop for Seen<T> {
    fn drop(self) {
        let Seen { marker: _ } = self;
    }
}

unsafe impl<T> Send for Seen<T> {}

unsafe impl<T> Sync for Seen<T> {}
