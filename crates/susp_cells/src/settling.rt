//! Settling suspensions of a shared table, and looking at what they were settled with.

ghost use Rattle.std.specs.Prelude.{◌≡◌, IfSome};
ghost use Rattle.susp_cells.specs.Places.{Place};
ghost use Rattle.susp_cells.specs.Tables.{known_index, known_tree, known_value, IsIn, IsForcedIn};
ghost use Rattle.susp_cells.specs.Tables.{home_of, IsFound, IsKnownIn, IsSettled};

use crate::forced::{Forced, Known, Settled};
use crate::suspensions::Susp;
use crate::tables::Table;
use kan_model::Store;

impl<'p, St: Store> Table<'p, St> {
    /// The force of a suspension with which it was settled, and that it is known now. None means
    /// only that the caller forces it itself. It takes no memory.
    pub fn look<'a>(&'a self, susp: &Susp<St>) -> Option<(&'a Forced<St>, Known<St>)>
        requires { IsIn self.now susp.now }
        ensures { IfSome result (λ found. IsFound self.now susp.now found.0.now found.1) }
    {
        let token = susp.token();
        let place = self.labels.value(token).place;
        let cell = self.cells.all.witness(place)?;
        let entry = self.cells.all.get_seen(place, &cell)?;
        let (value, seen) = entry.read()?;
        if value.of.index() != susp.index() {
            return None;
        }
        self.labels.agrees(value.of.token(), token);
        let known = Known {
            label: token.again(),
            cell,
            seen,
        };
        Some((value, known))
    }

    /// The value that was seen. It takes no memory.
    pub fn look_known<'a>(&'a self, known: &Known<St>) -> &'a Forced<St>
        requires { IsKnownIn self.now known.now }
        ensures value { result.now ≡ known_value known.now }
        ensures index { result.now.of.token.index ≡ known_index known.now }
        ensures force { IsForcedIn self.now (known_tree known.now) result.now }
    {
        self.cells.all.value(&known.cell).value(&known.seen)
    }

    /// Settles a suspension with a value, where it isn't settled yet. It takes no memory.
    pub fn settle(&self, susp: &Susp<St>, forced: Box<Forced<St>>) -> Settled<'_, St>
        requires susp { IsIn self.now susp.now }
        requires of { forced.value.of.home ≡ home_of self.now }
        requires index { forced.value.of.token.index ≡ susp.now.token.index }
        ensures { IsSettled self.now susp.now forced.value result }
    {
        let token = susp.token();
        self.labels.agrees(forced.of.token(), token);
        let place = self.labels.value(token).place;
        let Some(cell) = self.cells.all.witness(place) else {
            return Settled::Unseen(forced);
        };
        let Some(entry) = self.cells.all.get_seen(place, &cell) else {
            return Settled::Unseen(forced);
        };
        let forced = match entry.set(forced) {
            Ok(seen) => {
                return Settled::Mine(Known {
                    label: token.again(),
                    cell,
                    seen,
                });
            }
            Err(forced) => forced,
        };
        let Some((value, seen)) = entry.read() else {
            return Settled::Unseen(forced);
        };
        if value.of.index() != susp.index() {
            return Settled::Apart(value, forced);
        }
        self.labels.agrees(value.of.token(), token);
        let known = Known {
            label: token.again(),
            cell,
            seen,
        };
        Settled::Theirs(known, forced)
    }
}
