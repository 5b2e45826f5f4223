//! A text behind a library.

ghost use Rattle.std.specs.Prelude.{◌≡◌, ◌+◌, ◌<◌, ◌≤◌, ◌^◌, length, true, IfOk, OnOk};
ghost use Rattle.kan_grammar.specs.Texts.TextNames.{with_prefixes};
ghost use Rattle.goal_syntax.specs.Compiling.Compiles.{AreOfText, IsAcceptedAlone};
ghost use Rattle.kan_terms.specs.Table.{no_names};

use crate::programs::{expect_body, expect_run};
use goal_syntax::{Compiled, compile};
use kan_grammar::Dialect;
use kan_terms::Names;
use sexpr::{Datum, read};
use std::alloc::Global;
use std::test::Fail;

// Whether data are accepted by themselves, and have no runs.
fn is_library(alloc: Global, library: &[Datum], names: &mut Names) -> Result<bool, Fail>
    requires names { length names.old.symbols + 3 < 2 ^ 32 }
    requires few { length library.now ≤ 1048576 }
    requires text { AreOfText (with_prefixes names.old) library.now }
    ensures alone { IfOk result
        (λ alone. alone ≡ true → IsAcceptedAlone (with_prefixes names.old) library.now) }
    ensures table { OnOk result (names.new ≡ with_prefixes names.old) }
{
    match compile(alloc, &[], library, names, Dialect::Book) {
        Ok(alone) => Ok(alone.queries.is_empty()),
        Err(_) => Err(Fail::from("a library with a fault")),
    }
}

// The program and the runs of data behind those of a library.
fn compiled_data(
    alloc: Global,
    library: &[Datum],
    text: &[Datum],
    names: &mut Names,
) -> Result<Compiled, Fail>
    requires names { length names.old.symbols + 6 < 2 ^ 32 }
    requires library { AreOfText (with_prefixes names.old) library.now }
    requires text { AreOfText (with_prefixes names.old) text.now }
{
    if library.len() > 1_048_576 || text.len() > 1_048_576 {
        return Err(Fail::from("too many data"));
    }
    let alone = is_library(alloc, library, names)?;
    if !alone {
        return Err(Fail::from("a library with runs"));
    }
    match compile(alloc, library, text, names, Dialect::Book) {
        Ok(compiled) => Ok(compiled),
        Err(_) => Err(Fail::from("a text with a fault")),
    }
}

// The program and the runs of a text behind a library.
fn compiled_behind(
    alloc: Global,
    library: &str,
    text: &str,
    names: &mut Names,
) -> Result<Compiled, Fail>
    requires library { length library.now ≤ 1048576 }
    requires text { length text.now ≤ 1048576 }
    requires empty { names.old ≡ no_names }
{
    let Ok(library) = read(alloc, library.as_bytes(), names) else {
        return Err(Fail::from("a library with a fault"));
    };
    let Ok(text) = read(alloc, text.as_bytes(), names) else {
        return Err(Fail::from("data with a fault"));
    };
    compiled_data(alloc, library.as_slice(), text.as_slice(), names)
}

#[test]
fn a_text_calls_what_its_library_defines(rt: HostRuntime) -> Result<(), Fail> {
    let library = "(defrel (p x) (== x `(a ,x)))";
    let mut names = Names::new(rt.alloc());
    let made = compiled_behind(rt.alloc(), library, "(run* q (p q))", &mut names)?;
    expect_run(&rt, &made, &names, " call 0 1 _0")?;
    expect_body(&rt, &made, &names, 0, " == _0 pair 'a pair _0 ()")
}
