//! The table of suspensions that threads share.

ghost use Rattle.std.specs.Prelude.{◌≡◌, true};
ghost use Rattle.kan_model.specs.Programs.Closed as programs;
ghost use Rattle.kan_model.specs.Programs.Scope.{is_small};
ghost use Rattle.susp_cells.specs.Sketches.{program_sketch};
ghost use Rattle.susp_cells.specs.Places.{names_of};

use crate::cells::{Cells, Entry, Kept};
use crate::forced::Forced;
use crate::suspensions::{Label, Labels, Susp, home_of, tag_of};
use crate::tops::top_of;
use kan_model::{Program, Store};
use kan_terms::Memory;
use std::alloc::Global;
use std::sync::{Mutex, Wait};
use stream_core::Thunk;

/// A table of suspensions of one program, to which threads add, and in which each is settled once.
/// A suspension and what is known of it are used with the table that made them.
#[derive(Drop)]
pub struct Table<'a, St: Store> {
    pub(crate) program: &'a Program,
    alloc: Global,
    // The cells, and then the suspensions, go before the labels, so that nothing is dropped deeply.
    pub(crate) cells: Cells<Forced<St>>,
    kept: Kept<Susp<St>>,
    pub(crate) labels: Labels,
    ghost tagged: { cells.all.tag ≡ names_of labels },
    ghost drawn: { labels.tag ≡ program_sketch (programs.meaning program.now) },
    ghost small: { is_small (programs.meaning program.now) ≡ true },
}

unsafe impl<'a, St: Store + Send + Sync> Send for Table<'a, St> {}

unsafe impl<'a, St: Store + Send + Sync> Sync for Table<'a, St> {}

impl<'a, St: Store> Table<'a, St> {
    ghost use Rattle.std.specs.Prelude.{IfOk};
    ghost use Rattle.kan_model.specs.Streams.Bounds.{Fits};
    ghost use Rattle.stream_core.specs.Tables.{HasThunk, StandsFor, thunk_in};
    ghost use Rattle.susp_cells.specs.Places.{label_tree};
    ghost use Rattle.susp_cells.specs.Tables.{program_of, table_of, IsIn};

    /// The empty table for a program.
    pub fn new(alloc: Global, program: &'a Program) -> Result<Table<'a, St>, Memory>
        requires small { is_small (programs.meaning program.now) ≡ true }
        ensures program { IfOk result (λ made. program_of made ≡ programs.meaning program.now) }
    {
        let Ok(labels) = boxcar::Vec::with_rule(alloc, tag_of(program)) else {
            return Err(Memory);
        };
        let home = home_of(&labels);
        let Ok(all) = boxcar::Vec::with_rule(alloc, home) else {
            return Err(Memory);
        };
        Ok(Table {
            program,
            alloc,
            cells: Cells { all },
            kept: Kept {
                all: Mutex::new(Vec::new(alloc)),
            },
            labels,
        })
    }

    /// Adds a suspension. After want of memory there may be entries that none names.
    pub fn suspend<R: Wait>(&self, rt: &R, thunk: Thunk<Susp<St>, St>) -> Result<Susp<St>, Memory>
        requires belong { HasThunk (table_of self.now) thunk }
        requires fits { Fits (program_of self.now) (thunk_in (table_of self.now) St.meaning
            thunk) }
        ensures stands { IfOk result (StandsFor (table_of self.now)
            (thunk_in (table_of self.now) St.meaning thunk)) }
    {
        let home = home_of(&self.labels);
        let Ok(cell) = self.cells.all.push_shown(rt, Entry::new(self.alloc, &home)) else {
            return Err(Memory);
        };
        let label = Label::of(self.program, &thunk, cell.index());
        let Ok(token) = self.labels.push_shown(rt, label) else {
            return Err(Memory);
        };
        let top = top_of(self.program, &thunk);
        let susp = Susp::of(self.alloc, thunk, top, token, home)?;
        let second = susp.again()?;
        if self.kept.all.lock(rt).push(second).is_err() {
            return Err(Memory);
        }
        Ok(susp)
    }

    /// The thunk of a suspension. It takes no memory.
    pub fn thunk<'b>(&'b self, susp: &'b Susp<St>) -> &'b Thunk<Susp<St>, St>
        requires { IsIn self.now susp.now }
        ensures belong { HasThunk (table_of self.now) result.now }
        ensures stands { thunk_in (table_of self.now) St.meaning result.now ≡ label_tree
            susp.now }
    {
        susp.suspended()
    }
}
