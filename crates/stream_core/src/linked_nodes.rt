//! The table of one thread that keeps no streams: an id owns its suspension.

ghost use Rattle.std.specs.Prelude.{◌≡◌, IfOk};

use crate::linked_ids::{Level, LinkedId, Step};
use crate::nodes::{Closed, Nodes, Parted};
use crate::streams::{Stream, Thunk};
use kan_model::{Program, Store};
use kan_terms::Memory;
use std::alloc::Global;

/// The suspensions of a program, each of which its id owns. No streams are kept.
#[derive(Drop)]
pub struct LinkedNodes<'a> {
    alloc: Global,
    program: &'a Program,
}

impl<'a> LinkedNodes<'a> {
    ghost use Rattle.stream_core.specs.TableKinds.LinkedTables.{program_of};

    /// The table of a program's suspensions.
    pub fn new(alloc: Global, program: &'a Program) -> LinkedNodes<'a>
        ensures { program_of result ≡ program.now }
    {
        LinkedNodes { alloc, program }
    }
}

impl<'a, St: Store> Nodes<St> for LinkedNodes<'a> {
    ghost use Rattle.std.proofs.Common.{ap};
    ghost use Rattle.std.specs.Prelude.{false, suc, true, option_map, OnOk, OnErr};
    ghost use Rattle.kan_model.specs.Streams.Bounds.{Fits};
    ghost use Rattle.stream_core.specs.Tables.{GrowsBy, KeepsMore, OnlyAdds, StandsFor, IsKept};
    ghost use Rattle.stream_core.specs.Tables.{HasThunk, thunk_in, IsForce};
    ghost use Rattle.stream_core.specs.TableKinds.LinkedTables.{linked_table, around_in_table};
    ghost use Rattle.kan_model.specs.Programs.Scope.{is_small};
    ghost use Rattle.kan_model.specs.Streams.Stream.{Thunk as Suspension};
    ghost use Rattle.stream_core.specs.CodeSurroundings.{IsForceWithin, StandsClosed};
    ghost use Rattle.stream_core.specs.TableKinds.LinkedThunks.{linked_around};
    ghost use Rattle.stream_core.specs.Suspensions.{goal_in};

    type Id = LinkedId<St>;

    type Around = LinkedId<St>;

    // An id belongs where its suspension fits the program. Nothing is kept, so nothing is told.
    ghost table = { λ nodes. linked_table St.meaning nodes };

    ghost fits = { λ nodes id belongs. belongs };

    ghost around_in = { λ nodes around. around_in_table St.meaning nodes around };

    ghost around_stays = { λ was is grew around.
        ap (λ p. linked_around St.meaning (goal_in p) around) grew.program };

    fn suspend(&mut self, thunk: Thunk<LinkedId<St>, St>) -> Result<LinkedId<St>, Memory>
        requires belong { HasThunk (linked_table St.meaning self.old) thunk }
        requires fits { Fits (linked_table St.meaning self.old).program
            (thunk_in (linked_table St.meaning self.old) St.meaning thunk) }
        ensures stands { IfOk result (StandsFor (linked_table St.meaning self.new)
            (thunk_in (linked_table St.meaning self.old) St.meaning thunk)) }
        ensures nothing_kept { IfOk result (IsKept (linked_table St.meaning self.new) false) }
        ensures adds { OnlyAdds (linked_table St.meaning self.old)
            (linked_table St.meaning self.new) }
        ensures larger { OnOk result ((linked_table St.meaning self.new).size ≡ option_map suc
            (linked_table St.meaning self.old).size) }
        ensures refused { OnErr result ((linked_table St.meaning self.new).size ≡
            (linked_table St.meaning self.old).size) }
    {
        LinkedId::of(self.alloc, thunk)
    }

    fn thunk<'b>(&'b self, id: &'b LinkedId<St>) -> &'b Thunk<LinkedId<St>, St> {
        id.lent()
    }

    fn part(&self, id: LinkedId<St>) -> Parted<LinkedId<St>, LinkedId<St>, St> {
        let mut around = LinkedId::none();
        let mut inside = id;
        loop {
            match inside.step(around) {
                Step::Down {
                    around: longer,
                    inner,
                } => {
                    around = longer;
                    inside = inner;
                }
                Step::End(parted) => return parted,
            }
        }
    }

    fn close(
        &self,
        alloc: Global,
        mut around: LinkedId<St>,
        mut inside: Stream<LinkedId<St>, St>,
    ) -> Result<Closed<LinkedId<St>, LinkedId<St>, St>, Memory>
        requires { is_small (linked_table St.meaning self.now).program ≡ true }
        ensures { IfOk result (λ closed. (whole : Suspension) →
            Fits (linked_table St.meaning self.now).program whole →
            IsForceWithin (linked_table St.meaning self.now)
            (around_in_table St.meaning self.now) St.meaning whole around inside →
            StandsClosed (linked_table St.meaning self.now)
            (around_in_table St.meaning self.now) St.meaning whole around closed) }
    {
        loop {
            let level = around.level(alloc, inside)?;
            match level {
                Level::Up {
                    around: outer,
                    stream,
                } => {
                    around = outer;
                    inside = stream;
                }
                Level::End(closed) => return Ok(closed),
            }
        }
    }

    fn again(&self, id: &LinkedId<St>) -> Result<LinkedId<St>, Memory> {
        id.again()
    }

    fn found(
        &self,
        _alloc: Global,
        _id: &LinkedId<St>,
    ) -> Result<Option<Stream<LinkedId<St>, St>>, Memory> {
        Ok(None)
    }

    fn keep(
        &mut self,
        _alloc: Global,
        _id: &LinkedId<St>,
        stream: Stream<LinkedId<St>, St>,
    ) -> Result<Stream<LinkedId<St>, St>, Memory>
        requires belongs { (linked_table St.meaning self.old).belongs _id.now }
        requires force { IsForce (linked_table St.meaning self.old) St.meaning
            ((linked_table St.meaning self.old).tree _id.now) stream }
        ensures force { IfOk result (IsForce (linked_table St.meaning self.new) St.meaning
            ((linked_table St.meaning self.old).tree _id.now)) }
        ensures kept { OnOk result (GrowsBy (KeepsMore _id.now) (linked_table St.meaning self.old)
            (linked_table St.meaning self.new)) }
        ensures unchanged { OnErr result
            (OnlyAdds (linked_table St.meaning self.old) (linked_table St.meaning self.new)) }
        ensures size { (linked_table St.meaning self.new).size ≡
            (linked_table St.meaning self.old).size }
    {
        Ok(stream)
    }
}
