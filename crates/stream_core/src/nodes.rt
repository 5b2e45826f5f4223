//! Tables of suspensions.

ghost use Rattle.std.specs.Prelude.{◌≡◌, true, false, suc, None, Some, option_map, is_some, IfOk};
ghost use Rattle.std.specs.Prelude.{OnOk, OnErr, IfSome, List};
ghost use Rattle.kan_model.specs.Programs.Scope.{is_small};
ghost use Rattle.kan_model.specs.Streams.Bounds.{Fits};
ghost use Rattle.kan_model.specs.Streams.Stream.{Thunk as Suspension};
ghost use Rattle.stream_core.specs.CodeSurroundings.{IsParted, IsForceWithin, StandsClosed};
ghost use Rattle.stream_core.specs.Surroundings.{Around};
ghost use Rattle.stream_core.specs.Suspensions.{inner_id};
ghost use Rattle.stream_core.specs.Tables.{Table, GrowsBy, KeepsMore, OnlyAdds, StandsFor, IsKept};
ghost use Rattle.stream_core.specs.Tables.{Grows, IsInner, HasThunk, thunk_in, IsForce};

use crate::streams::{Stream, Thunk};
use kan_model::{Env, Store};
use kan_terms::Memory;
use std::alloc::Global;

/// A suspension with none of the ones around it.
#[derive(Drop)]
pub enum Innermost<I, St> {
    /// None is inside it, and nobody else has it.
    Last(Thunk<I, St>),
    /// Others may have it.
    Shared(I),
}

/// A suspension that was taken apart.
#[derive(Drop)]
pub struct Parted<A, I, St> {
    /// Those around the innermost one.
    pub around: A,
    /// The innermost one.
    pub innermost: Innermost<I, St>,
}

/// What suspensions make of a stream inside them.
#[derive(Drop)]
pub enum Closed<A, I, St> {
    /// The stream of them all.
    Made(Stream<I, St>),
    /// A goal is to be run at a stream's stores, with others around that.
    Run {
        /// The goal.
        goal: u32,
        /// What its slots stand for.
        env: Env,
        /// The stream.
        stream: Stream<I, St>,
        /// Those around it.
        around: A,
    },
}

/// A table of suspensions. It is used with one program alone, and an id with the table that gave
/// it. Whatever a call answers, what older ids stand for is unchanged.
///
/// A table may tell for which ids a stream is kept, and how many suspensions it has. One that
/// others use at the same time tells neither.
pub trait Nodes<St: Store> {
    /// Names a suspension for good.
    type Id: Drop;

    /// Suspensions around one another, without the one inside them all.
    type Around: Drop;

    // What the table stands for.
    ghost table: { Self → Table Self.Id };

    // Those around another suspension, the innermost first.
    ghost around_in: { Self → Self.Around → List Around };

    /// Adds a suspension, for which no stream is kept.
    fn suspend(&mut self, thunk: Thunk<Self::Id, St>) -> Result<Self::Id, Memory>
        requires belong { HasThunk (table self.old) thunk }
        requires fits { Fits (table self.old).program (thunk_in (table self.old) St.meaning thunk) }
        ensures stands { IfOk result (StandsFor (table self.new)
            (thunk_in (table self.old) St.meaning thunk)) }
        ensures nothing_kept { IfOk result (IsKept (table self.new) false) }
        ensures adds { OnlyAdds (table self.old) (table self.new) }
        ensures larger { OnOk result ((table self.new).size ≡ option_map suc
            (table self.old).size) }
        ensures refused { OnErr result ((table self.new).size ≡ (table self.old).size) };

    /// The suspension that an id names. It takes no memory.
    fn thunk<'a>(&'a self, id: &'a Self::Id) -> &'a Thunk<Self::Id, St>
        requires { (table self.now).belongs id.now }
        ensures belong { HasThunk (table self.now) result.now }
        ensures stands { thunk_in (table self.now) St.meaning result.now ≡ (table self.now).tree
            id.now }
        ensures inner { IsInner (table self.now) (inner_id result.now) id.now };

    /// Takes the suspension of an id apart that is given up, as far down as nobody else has those
    /// inside it.
    fn part(&self, id: Self::Id) -> Parted<Self::Around, Self::Id, St>
        requires { (table self.now).belongs id }
        ensures { IsParted (table self.now) (around_in self.now) St.meaning
            ((table self.now).tree id) result };

    /// The stream that suspensions make of the force of the innermost one, as far out as no goal is
    /// to be run.
    fn close(
        &self,
        alloc: Global,
        around: Self::Around,
        inside: Stream<Self::Id, St>,
    ) -> Result<Closed<Self::Around, Self::Id, St>, Memory>
        requires { is_small (table self.now).program ≡ true }
        ensures { IfOk result (λ closed. (whole : Suspension) →
            Fits (table self.now).program whole →
            IsForceWithin (table self.now) (around_in self.now) St.meaning whole around inside →
            StandsClosed (table self.now) (around_in self.now) St.meaning whole around closed) };

    /// An id of the same suspension; the same id, where the table tells what is kept.
    fn again(&self, id: &Self::Id) -> Result<Self::Id, Memory>
        requires { (table self.now).belongs id.now }
        ensures stands { IfOk result (StandsFor (table self.now) ((table self.now).tree id.now)) }
        ensures same { IfOk result (λ copy. IfSome (table self.now).told (λ _. copy ≡ id.now)) };

    /// The stream that was kept for an id, which is the force of its suspension. Where the table
    /// doesn't tell what is kept, it may miss one.
    fn found(&self, alloc: Global, id: &Self::Id) -> Result<Option<Stream<Self::Id, St>>, Memory>
        requires { (table self.now).belongs id.now }
        ensures force { IfOk result (λ found. IfSome found
            (IsForce (table self.now) St.meaning ((table self.now).tree id.now))) }
        ensures told { IfOk result (λ found. IsKept (table self.now) (is_some found) id.now) };

    /// Keeps the force of an id's suspension for it, and gives a stream that is that force.
    fn keep(
        &mut self,
        alloc: Global,
        id: &Self::Id,
        stream: Stream<Self::Id, St>,
    ) -> Result<Stream<Self::Id, St>, Memory>
        requires belongs { (table self.old).belongs id.now }
        requires force { IsForce (table self.old) St.meaning ((table self.old).tree id.now) stream }
        ensures force { IfOk result (IsForce (table self.new) St.meaning
            ((table self.old).tree id.now)) }
        ensures kept { OnOk result (GrowsBy (KeepsMore id.now) (table self.old) (table self.new)) }
        ensures unchanged { OnErr result (OnlyAdds (table self.old) (table self.new)) }
        ensures size { (table self.new).size ≡ (table self.old).size };

    // Each suspension fits the program.
    ghost fits: { (nodes : Self) → (id : Self.Id) → (table nodes).belongs id → Fits
        (table nodes).program ((table nodes).tree id) };

    // While the table grows, they are the same.
    ghost around_stays: { (was is : Self) → Grows (table was) (table is) → (around : Self.Around) →
        around_in is around ≡ around_in was around };
}
