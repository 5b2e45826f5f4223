//! Suspensions that threads share: each keeps its thunk, and what shows its label in the table.

ghost use Rattle.std.specs.Prelude.{◌≡◌, ◌≤◌, ◌^◌, ◌↔◌, IsTrue, IfOk};
ghost use Rattle.kan_model.specs.Programs.Closed as programs;
ghost use Rattle.kan_model.specs.Streams.Bounds.{Fits, top as top_of};
ghost use Rattle.stream_core.specs.Suspensions.{ThunkBelongs};
ghost use Rattle.susp_cells.specs.Sketches.{sketch, program_sketch, program_in};
ghost use Rattle.susp_cells.specs.Places.{Place, names_of, noted_top, label_program, label_tree};
ghost use Rattle.susp_cells.specs.Places.{told_program, told_tree, stands_for, IsBeside, IsOf};

use boxcar::tag::{Names, Tag};
use boxcar::{Keeps, Pushed};
use kan_model::{Program, Store};
use kan_terms::Memory;
use std::alloc::Global;
use std::marker::{Model, PhantomData};
use std::sync::Arc;
use stream_core::Thunk;

/// What a table keeps of a suspension for good.
#[derive(Drop)]
pub struct Label {
    // Where its cell is.
    pub(crate) place: usize,
    // The sketch of its program and of what it stands for.
    pub(crate) drawn: Tag,
}

// The labels of a table tell its program.
pub struct SameProgram;

impl Keeps<Label> for SameProgram {
    ghost holds = { λ tag _ l. told_program l ≡ program_in tag };
}

// The labels of a table.
pub type Labels = boxcar::Vec<Label, Global, SameProgram>;

// What shows a label of a table.
pub type LabelToken = Pushed<Label, Global, SameProgram>;

/// A suspension of a table that threads share. It stands for one thunk for good.
#[cycle(susp)]
#[derive(Drop)]
pub struct Susp<St: Store> {
    node: Arc<Record<St>>,
}

#[cycle(susp)]
#[derive(Drop)]
struct Record<St: Store> {
    thunk: Thunk<Susp<St>, St>,
    // The top of the thunk, as far as the first number that is too high.
    top: u64,
    mark: Mark,
}

// What names a suspension: the token of its label, and the table.
#[derive(Drop)]
struct Mark {
    token: LabelToken,
    home: Tag,
}

unsafe impl Send for Mark {}

unsafe impl Sync for Mark {}

impl<St: Store> Model for Susp<St> {
    ghost use Rattle.susp_cells.specs.Places.{Place, place_coded, label_nested};

    ghost Value = { Place };

    ghost coded = { place_coded };

    ghost use Rattle.susp_cells.specs.Placed.{place_of, IsPlaced};

    ghost view = { place_of };

    ghost invariant = { IsPlaced St.meaning };

    ghost size = { label_nested };

    ghost use Rattle.susp_cells.specs.Falls.{nested_falls};

    ghost size_decreases = { nested_falls St.Store };
}

unsafe impl<St: Store + Send + Sync> Send for Susp<St> {}

unsafe impl<St: Store + Send + Sync> Sync for Susp<St> {}

// A thunk that has no label yet, with its program.
#[derive(Drop)]
struct Pending<'a, St: Store> {
    program: &'a Program,
    thunk: &'a Thunk<Susp<St>, St>,
}

// How the sketch is read off it.
struct Sketches<St>(PhantomData<St>);

impl<'a, St: Store> Names<Pending<'a, St>> for Sketches<St> {
    ghost numbers = { λ pending. sketch (programs.meaning pending.program.now) (stands_for
        (programs.meaning pending.program.now) St.meaning pending.thunk.now) };
}

// The names of a vector's buckets, which tell it from others.
struct Buckets;

impl Names<Labels> for Buckets {
    ghost numbers = { names_of };
}

// What tells a table's labels from those of others.
pub(crate) fn home_of(labels: &Labels) -> Tag
    ensures { result.numbers ≡ names_of labels.now }
{
    Tag::of::<Labels, Buckets>(labels)
}

// How the sketch of a program alone is read off it.
struct ProgramAlone;

impl Names<Program> for ProgramAlone {
    ghost numbers = { λ program. program_sketch (programs.meaning program) };
}

// What tells the program of a table's labels.
pub(crate) fn tag_of(program: &Program) -> Tag
    ensures { result.numbers ≡ program_sketch (programs.meaning program.now) }
{
    Tag::of::<Program, ProgramAlone>(program)
}

impl Label {
    // The label of a suspension whose cell is at a place.
    pub(crate) fn of<St: Store>(
        program: &Program,
        thunk: &Thunk<Susp<St>, St>,
        place: usize,
    ) -> Label
        ensures place { result.place ≡ place }
        ensures program { told_program result ≡ programs.meaning program.now }
        ensures tree { told_tree result ≡ stands_for (programs.meaning program.now) St.meaning
            thunk.now }
    {
        let pending = Pending { program, thunk };
        let drawn = Tag::of::<Pending<'_, St>, Sketches<St>>(&pending);
        Label { place, drawn }
    }
}

impl<St: Store> Susp<St> {
    // The suspension of a thunk, whose label is shown.
    pub(crate) fn of(
        alloc: Global,
        thunk: Thunk<Susp<St>, St>,
        top: u64,
        token: LabelToken,
        home: Tag,
    ) -> Result<Susp<St>, Memory>
        requires shown { IsOf home.numbers token }
        requires tree { told_tree token.value ≡ stands_for (told_program token.value) St.meaning
            thunk }
        requires beside { ThunkBelongs (IsBeside record { home = home.numbers; token = token })
            thunk }
        requires fits { Fits (told_program token.value) (told_tree token.value) }
        requires top { top ≡ noted_top (told_tree token.value) }
        ensures { IfOk result (λ made. (made.home ≡ home.numbers) × (made.token ≡ token)) }
    {
        let mark = Mark { token, home };
        match Arc::new(alloc, Record { thunk, top, mark }) {
            Ok(node) => Ok(Susp { node }),
            Err(_) => Err(Memory),
        }
    }

    /// The same suspension once more.
    pub fn again(&self) -> Result<Susp<St>, Memory>
        ensures { IfOk result (λ copy. copy ≡ self.now) }
    {
        match Arc::try_clone(&self.node) {
            Ok(node) => Ok(Susp { node }),
            Err(_) => Err(Memory),
        }
    }

    /// The index in its table. It takes no memory.
    pub fn index(&self) -> u64
        ensures { result ≡ self.now.token.index }
    {
        self.node.mark.token.index() as u64
    }

    /// Whether the top of its thunk is at most 2^62. It takes no memory.
    pub fn low(&self) -> bool
        ensures { IsTrue result ↔ (top_of (label_tree self.now) ≤ 2 ^ 62) }
    {
        self.top() <= 1 << 62
    }

    // The top of its thunk, as far as the first number that is too high.
    pub(crate) fn top(&self) -> u64
        ensures { result ≡ noted_top (label_tree self.now) }
    {
        self.node.top
    }

    // Its thunk.
    pub(crate) fn suspended(&self) -> &Thunk<Susp<St>, St>
        ensures tree { stands_for (label_program self.now) St.meaning result.now ≡ label_tree
            self.now }
        ensures beside { ThunkBelongs (IsBeside self.now) result.now }
    {
        &self.node.thunk
    }

    // What shows its label.
    pub(crate) fn token(&self) -> &LabelToken
        ensures token { result.now ≡ self.now.token }
        ensures shown { IsOf self.now.home self.now.token }
        ensures fits { Fits (label_program self.now) (label_tree self.now) }
    {
        &self.node.mark.token
    }
}
