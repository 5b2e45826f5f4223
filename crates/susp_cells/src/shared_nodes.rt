//! A shared table as one thread uses it: a table of suspensions in which forces are kept.

ghost use Rattle.std.specs.Prelude.{◌≡◌, IfOk, map};
ghost use Rattle.susp_cells.specs.Sharing.{passed_gate, shared_table, thread_number, used_table};

use crate::forced::{Forced, Settled};
use crate::gates::Gate;
use crate::suspensions::Susp;
use crate::tables::Table;
use kan_model::Store;
use kan_terms::Memory;
use std::alloc::Global;
use std::sync::Wait;
use stream_core::{Closed, Innermost, Nodes, Parted, Stream, Thunk, stores_again};

/// The suspensions of a shared table, for the thread with a number. The thread passes the gate
/// before each try to settle one.
#[derive(Drop)]
pub struct SharedNodes<'a, St: Store, G: Gate, R: Wait> {
    rt: &'a R,
    table: &'a Table<'a, St>,
    gate: &'a G,
    who: u32,
}

impl<'a, St: Store, G: Gate, R: Wait> SharedNodes<'a, St, G, R> {
    /// A table as the thread with a number uses it.
    pub fn new(
        rt: &'a R,
        table: &'a Table<'a, St>,
        gate: &'a G,
        who: u32,
    ) -> SharedNodes<'a, St, G, R>
        ensures table { used_table result ≡ table.now }
        ensures gate { passed_gate result ≡ gate.now }
        ensures who { thread_number result ≡ who }
    {
        SharedNodes {
            rt,
            table,
            gate,
            who,
        }
    }
}

// A tail once more.
fn tail_again<St: Store>(tail: &Option<Susp<St>>) -> Result<Option<Susp<St>>, Memory>
    ensures { IfOk result (λ copy. copy ≡ tail.now) }
{
    match tail {
        Some(id) => {
            let copy = id.again()?;
            Ok(Some(copy))
        }
        None => Ok(None),
    }
}

// The stream of a force, once more.
fn stream_of<St: Store>(alloc: Global, forced: &Forced<St>) -> Result<Stream<Susp<St>, St>, Memory>
    ensures tail { IfOk result (λ copy. copy.tail ≡ forced.now.tail) }
    ensures heads { IfOk result (λ copy. map St.meaning copy.heads ≡ map St.meaning
        forced.now.heads) }
{
    let heads = stores_again(alloc, forced.heads.items())?;
    let tail = tail_again(&forced.tail)?;
    Ok(Stream { heads, tail })
}

impl<'a, St: Store, G: Gate, R: Wait> Nodes<St> for SharedNodes<'a, St, G, R> {
    ghost use Rattle.std.proofs.Common.{refl};
    ghost use Rattle.std.specs.Prelude.{false, suc, true, option_map, [], OnOk, OnErr};
    ghost use Rattle.kan_model.specs.Streams.Bounds.{Fits};
    ghost use Rattle.stream_core.specs.Tables.{GrowsBy, KeepsMore, OnlyAdds, StandsFor, IsKept};
    ghost use Rattle.stream_core.specs.Tables.{HasThunk, thunk_in, IsForce};
    ghost use Rattle.kan_model.specs.Programs.Scope.{is_small};
    ghost use Rattle.kan_model.specs.Streams.Stream.{Thunk as Suspension};
    ghost use Rattle.stream_core.specs.CodeSurroundings.{IsForceWithin, StandsClosed};

    type Id = Susp<St>;

    type Around = ();

    // Others use the table at the same time, so it doesn't tell what is kept.
    ghost table = { λ nodes. shared_table nodes };

    ghost fits = { λ nodes id belongs. belongs.fits };

    // Nothing is taken apart, since a stream may be kept for each.
    ghost around_in = { λ nodes around. [] };

    ghost around_stays = { λ was is grew around. refl };

    fn suspend(&mut self, thunk: Thunk<Susp<St>, St>) -> Result<Susp<St>, Memory>
        requires belong { HasThunk (shared_table self.old) thunk }
        requires fits { Fits (shared_table self.old).program
            (thunk_in (shared_table self.old) St.meaning thunk) }
        ensures stands { IfOk result (StandsFor (shared_table self.new)
            (thunk_in (shared_table self.old) St.meaning thunk)) }
        ensures nothing_kept { IfOk result (IsKept (shared_table self.new) false) }
        ensures adds { OnlyAdds (shared_table self.old) (shared_table self.new) }
        ensures larger { OnOk result ((shared_table self.new).size ≡ option_map suc
            (shared_table self.old).size) }
        ensures refused { OnErr result ((shared_table self.new).size ≡
            (shared_table self.old).size) }
    {
        self.table.suspend(self.rt, thunk)
    }

    fn thunk<'b>(&'b self, id: &'b Susp<St>) -> &'b Thunk<Susp<St>, St> {
        self.table.thunk(id)
    }

    fn part(&self, id: Susp<St>) -> Parted<(), Susp<St>, St> {
        Parted {
            around: (),
            innermost: Innermost::Shared(id),
        }
    }

    fn close(
        &self,
        _alloc: Global,
        _around: (),
        inside: Stream<Susp<St>, St>,
    ) -> Result<Closed<(), Susp<St>, St>, Memory>
        requires { is_small (shared_table self.now).program ≡ true }
        ensures { IfOk result (λ closed. (whole : Suspension) →
            Fits (shared_table self.now).program whole →
            IsForceWithin (shared_table self.now) (λ around. []) St.meaning whole
            _around inside →
            StandsClosed (shared_table self.now) (λ around. []) St.meaning whole
            _around closed) }
    {
        Ok(Closed::Made(inside))
    }

    fn again(&self, id: &Susp<St>) -> Result<Susp<St>, Memory> {
        id.again()
    }

    fn found(&self, alloc: Global, id: &Susp<St>) -> Result<Option<Stream<Susp<St>, St>>, Memory> {
        match self.table.look(id) {
            Some((forced, _)) => {
                let copy = stream_of(alloc, forced)?;
                Ok(Some(copy))
            }
            None => Ok(None),
        }
    }

    fn keep(
        &mut self,
        alloc: Global,
        id: &Susp<St>,
        stream: Stream<Susp<St>, St>,
    ) -> Result<Stream<Susp<St>, St>, Memory>
        requires belongs { (shared_table self.old).belongs id.now }
        requires force { IsForce (shared_table self.old) St.meaning
            ((shared_table self.old).tree id.now) stream }
        ensures force { IfOk result (IsForce (shared_table self.new) St.meaning
            ((shared_table self.old).tree id.now)) }
        ensures kept { OnOk result (GrowsBy (KeepsMore id.now) (shared_table self.old)
            (shared_table self.new)) }
        ensures unchanged { OnErr result
            (OnlyAdds (shared_table self.old) (shared_table self.new)) }
        ensures size { (shared_table self.new).size ≡ (shared_table self.old).size }
    {
        let of = id.again()?;
        let Stream { heads, tail } = stream;
        let Ok(forced) = Box::new(alloc, Forced { of, heads, tail }) else {
            return Err(Memory);
        };
        self.gate.pass(self.who);
        match self.table.settle(id, forced) {
            Settled::Mine(known) => stream_of(alloc, self.table.look_known(&known)),
            Settled::Theirs(known, _) => stream_of(alloc, self.table.look_known(&known)),
            Settled::Apart(_, forced) => stream_of(alloc, &forced),
            Settled::Unseen(forced) => stream_of(alloc, &forced),
        }
    }
}
