//! Texts: their program and their runs.

ghost use Rattle.std.specs.Prelude.{◌≡◌, ◌+◌, ◌<◌, ◌≤◌, ◌^◌, length, List, ℕ, Ok};
ghost use Rattle.std.specs.Prelude.{IfOk, OnOk};
ghost use Rattle.kan_terms.specs.Table.{no_names};
ghost use Rattle.kan_grammar.specs.Texts.TextNames.{Extends, first_names, with_prefixes};
ghost use Rattle.goal_syntax.specs.Compiling.Compiles.{AreOfText, IsAcceptedAlone};
ghost use Rattle.kanren_run.specs.Replies.{ComesTo, LibraryRead, TextRead, memory_wanting};

use crate::refusal::Fault;
use crate::settings::Settings;
use goal_forms::number_prefixes;
use goal_syntax::{Compiled, SyntaxError, compile};
use kan_grammar::Dialect;
use kan_terms::{Memory, Names};
use rel_library::library_text;
use sexpr::{Data, Datum, ReadError, read};
use std::alloc::Global;

/// Why a text isn't run.
#[derive(Clone, Copy, Debug, PartialEq, Eq)]
pub(crate) enum NotRun {
    /// It is refused for a fault.
    Fault(Fault),
    /// Want of memory.
    Memory,
}

impl From<Memory> for NotRun {
    ghost from_gives = { λ _ e. e ≡ memory_wanting };

    fn from(_refused: Memory) -> NotRun {
        NotRun::Memory
    }
}

// Reads the library, where it is asked for. It has no fault.
fn library_data(alloc: Global, library: bool, names: &mut Names) -> Result<Data, Memory>
    requires first { names.old ≡ first_names }
    ensures read { IfOk result (λ found. LibraryRead library names.new found) }
    ensures few { OnOk result (Extends 1048576 names.old names.new) }
{
    if !library {
        return Ok(Data::new(alloc));
    }
    match read(alloc, library_text().as_bytes(), names) {
        Ok(data) => Ok(data),
        Err(ReadError::Fault(_, _)) => unreachable!(),
        Err(ReadError::Memory) => Err(Memory),
    }
}

// The program and the runs of a text's data behind those of a library that may stand there.
fn compile_data(
    alloc: Global,
    settings: Settings,
    library: &[Datum],
    forms: &[Datum],
    names: &mut Names,
) -> Result<Compiled, NotRun>
    requires names { length names.old.symbols + 3 < 2 ^ 32 }
    requires library { AreOfText (with_prefixes names.old) library.now }
    requires texts { AreOfText (with_prefixes names.old) forms.now }
    requires alone { IsAcceptedAlone (with_prefixes names.old) library.now }
    ensures { (text : List ℕ)
        → TextRead settings text (with_prefixes names.old) library.now forms.now
        → ComesTo settings text names.new result }
{
    match compile(alloc, library, forms, names, settings.dialect) {
        Ok(compiled) => Ok(compiled),
        Err(SyntaxError::Fault(at, refusal)) => Err(NotRun::Fault(Fault { at, refusal })),
        Err(SyntaxError::Memory) => Err(NotRun::Memory),
    }
}

/// The program and the runs of a text behind the library, if that is asked for, whose names get
/// numbers: first the symbols of prefixes, then the names of the library, then those of the text.
/// Or the fault for which it isn't run: that of the reading of its data, or else that of the data.
#[tactic(auto, using(goal_syntax::proofs::Compiling::OfTextLaws::read_of_text))]
pub(crate) fn compile_text(
    alloc: Global,
    settings: Settings,
    text: &[u8],
    names: &mut Names,
) -> Result<Compiled, NotRun>
    requires short { length text.now ≤ 1048576 }
    requires empty { names.old ≡ no_names }
    ensures { ComesTo settings text.now names.new result }
{
    number_prefixes(names)?;
    let library = library_data(alloc, settings.library, names)?;
    match read(alloc, text, names) {
        Ok(data) => compile_data(alloc, settings, library.as_slice(), data.as_slice(), names),
        Err(ReadError::Fault(at, refusal)) => Err(NotRun::Fault(Fault { at, refusal })),
        Err(ReadError::Memory) => Err(NotRun::Memory),
    }
}
