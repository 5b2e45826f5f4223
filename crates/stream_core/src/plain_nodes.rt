//! The table of one thread: a list of rows, in which suspensions name earlier ones.

ghost use Rattle.std.specs.Prelude.{◌≡◌, IsTrue, IfOk, map};
ghost use Rattle.stream_core.specs.TableKinds.PlainTrees.{all_grown};
ghost use Rattle.stream_core.specs.TableKinds.PlainRows.{thunks};

use crate::copies::stores_again;
use crate::nodes::{Closed, Innermost, Nodes, Parted};
use crate::streams::{Stream, Thunk};
use kan_model::{Program, Store};
use kan_terms::Memory;
use std::alloc::Global;

/// The place of a suspension in the list.
#[derive(Clone, Copy)]
pub struct PlainId {
    at: usize,
}

// A suspension, and its force, where that is kept.
#[derive(Drop)]
struct Row<St> {
    thunk: Thunk<PlainId, St>,
    kept: Option<Stream<PlainId, St>>,
}

/// A list of suspensions of one program, each with its force once that is known.
#[derive(Drop)]
pub struct PlainNodes<'a, St> {
    program: &'a Program,
    rows: Vec<Row<St>>,
    ghost grown: { IsTrue (all_grown 0 (thunks rows.items)) },
}

// A stream once more.
fn stream_again<St: Store>(
    alloc: Global,
    stream: &Stream<PlainId, St>,
) -> Result<Stream<PlainId, St>, Memory>
    ensures tail { IfOk result (λ copy. copy.tail ≡ stream.now.tail) }
    ensures heads { IfOk result (λ copy. map St.meaning copy.heads ≡ map St.meaning
        stream.now.heads) }
{
    let heads = stores_again(alloc, stream.heads.items())?;
    let tail = stream.tail;
    Ok(Stream { heads, tail })
}

impl<'a, St: Store> PlainNodes<'a, St> {
    ghost use Rattle.std.specs.Prelude.{Some};
    ghost use Rattle.stream_core.specs.TableKinds.PlainTables.{plain_table, program_of};

    /// The empty table for a program.
    pub fn new(alloc: Global, program: &'a Program) -> PlainNodes<'a, St>
        ensures program { program_of result ≡ program.now }
        ensures empty { (plain_table St.meaning result).size ≡ Some 0 }
    {
        PlainNodes {
            program,
            rows: Vec::new(alloc),
        }
    }

    /// The program that the suspensions are of.
    pub fn program(&self) -> &'a Program
        ensures { result.now ≡ program_of self.now }
    {
        self.program
    }

    /// How many suspensions there are. It takes no memory.
    pub fn nodes(&self) -> u64
        ensures { (plain_table St.meaning self.now).size ≡ Some result }
    {
        self.rows.len() as u64
    }
}

impl<'a, St: Store> Nodes<St> for PlainNodes<'a, St> {
    ghost use Rattle.std.proofs.Common.{refl};
    ghost use Rattle.std.specs.Prelude.{false, suc, true, option_map, [], OnOk, OnErr};
    ghost use Rattle.kan_model.specs.Streams.Bounds.{Fits};
    ghost use Rattle.stream_core.specs.Tables.{GrowsBy, KeepsMore, OnlyAdds, StandsFor, IsKept};
    ghost use Rattle.stream_core.specs.Tables.{HasThunk, thunk_in, IsForce};
    ghost use Rattle.kan_model.specs.Programs.Scope.{is_small};
    ghost use Rattle.kan_model.specs.Streams.Stream.{Thunk as Suspension};
    ghost use Rattle.stream_core.specs.CodeSurroundings.{IsForceWithin, StandsClosed};
    ghost use Rattle.stream_core.specs.TableKinds.PlainTables.{plain_table};
    ghost use Rattle.stream_core.specs.declared.plain_nodes.PlainId.{PlainId};

    type Id = PlainId;

    type Around = ();

    // An id belongs where all that is reached from it is sound: each suspension fits, and what is
    // kept for it is its force.
    ghost table = { λ nodes. plain_table St.meaning nodes };

    ghost fits = { λ nodes id belongs. (belongs 0).1 };

    // Nothing is taken apart, since a stream may be kept for each.
    ghost around_in = { λ nodes around. [] };

    ghost around_stays = { λ was is grew around. refl };

    fn suspend(&mut self, thunk: Thunk<PlainId, St>) -> Result<PlainId, Memory>
        requires belong { HasThunk (plain_table St.meaning self.old) thunk }
        requires fits { Fits (plain_table St.meaning self.old).program
            (thunk_in (plain_table St.meaning self.old) St.meaning thunk) }
        ensures stands { IfOk result (StandsFor (plain_table St.meaning self.new)
            (thunk_in (plain_table St.meaning self.old) St.meaning thunk)) }
        ensures nothing_kept { IfOk result (IsKept (plain_table St.meaning self.new) false) }
        ensures adds { OnlyAdds (plain_table St.meaning self.old)
            (plain_table St.meaning self.new) }
        ensures larger { OnOk result ((plain_table St.meaning self.new).size ≡ option_map suc
            (plain_table St.meaning self.old).size) }
        ensures refused { OnErr result ((plain_table St.meaning self.new).size ≡
            (plain_table St.meaning self.old).size) }
    {
        let at = self.rows.len();
        self.rows.push(Row { thunk, kept: None })?;
        Ok(PlainId { at })
    }

    fn thunk<'b>(&'b self, id: &'b PlainId) -> &'b Thunk<PlainId, St> {
        &self.rows[id.at].thunk
    }

    fn part(&self, id: PlainId) -> Parted<(), PlainId, St> {
        Parted {
            around: (),
            innermost: Innermost::Shared(id),
        }
    }

    fn close(
        &self,
        _alloc: Global,
        _around: (),
        inside: Stream<PlainId, St>,
    ) -> Result<Closed<(), PlainId, St>, Memory>
        requires { is_small (plain_table St.meaning self.now).program ≡ true }
        ensures { IfOk result (λ closed. (whole : Suspension) →
            Fits (plain_table St.meaning self.now).program whole →
            IsForceWithin (plain_table St.meaning self.now) (λ around. []) St.meaning whole
            _around inside →
            StandsClosed (plain_table St.meaning self.now) (λ around. []) St.meaning whole
            _around closed) }
    {
        Ok(Closed::Made(inside))
    }

    fn again(&self, id: &PlainId) -> Result<PlainId, Memory> {
        Ok(*id)
    }

    fn found(&self, alloc: Global, id: &PlainId) -> Result<Option<Stream<PlainId, St>>, Memory> {
        match &self.rows[id.at].kept {
            Some(stream) => {
                let copy = stream_again(alloc, stream)?;
                Ok(Some(copy))
            }
            None => Ok(None),
        }
    }

    // One of the two streams is a copy: a store is copied by a count where it shares what it holds.
    fn keep(
        &mut self,
        alloc: Global,
        id: &PlainId,
        stream: Stream<PlainId, St>,
    ) -> Result<Stream<PlainId, St>, Memory>
        requires belongs { (plain_table St.meaning self.old).belongs id.now }
        requires force { IsForce (plain_table St.meaning self.old) St.meaning
            ((plain_table St.meaning self.old).tree id.now) stream }
        ensures force { IfOk result (IsForce (plain_table St.meaning self.new) St.meaning
            ((plain_table St.meaning self.old).tree id.now)) }
        ensures kept { OnOk result (GrowsBy (KeepsMore id.now) (plain_table St.meaning self.old)
            (plain_table St.meaning self.new)) }
        ensures unchanged { OnErr result
            (OnlyAdds (plain_table St.meaning self.old) (plain_table St.meaning self.new)) }
        ensures size { (plain_table St.meaning self.new).size ≡
            (plain_table St.meaning self.old).size }
    {
        let copy = stream_again(alloc, &stream)?;
        self.rows[id.at].kept = Some(copy);
        Ok(stream)
    }
}
