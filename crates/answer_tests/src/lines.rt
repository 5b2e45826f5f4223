//! What the answers of lines cover.

ghost use Rattle.std.specs.Prelude.{◌≡◌};
ghost use Rattle.kan_terms.specs.Table.{no_names};

use answer_reading::{is_instance, read_answer};
use kan_terms::{Ground, Mark, Names};
use std::alloc::Global;
use std::test::Fail;

// Whether the answer of a line covers the list of two numbers.
fn covers(
    alloc: Global,
    line: &str,
    first: i128,
    second: i128,
    names: &mut Names,
) -> Result<bool, Fail>
    requires { names.old ≡ no_names }
{
    if line.len() > 1000 {
        return Err(Fail::from("a long line"));
    }
    let ground = two_numbers(alloc, first, second)?;
    match read_answer(alloc, line.as_bytes(), names) {
        Ok(answer) => Ok(is_instance(alloc, &answer, &ground)?),
        Err(_) => Err(Fail::from("no answer")),
    }
}

// The list of two numbers.
fn two_numbers(alloc: Global, first: i128, second: i128) -> Result<Ground, Fail> {
    let mut marks = Vec::new(alloc);
    marks.push(Mark::Pair)?;
    marks.push(Mark::Num(first))?;
    marks.push(Mark::Pair)?;
    marks.push(Mark::Num(second))?;
    marks.push(Mark::Nil)?;
    match Ground::of_marks(marks) {
        Ok(term) => Ok(term),
        Err(_) => Err(Fail::from("marks that spell no term")),
    }
}

#[test]
fn a_disequality_keeps_terms_out(rt: HostRuntime) -> Result<(), Fail> {
    let mut names = Names::new(rt.alloc());
    let line = "(_0 _1) where (=/= ((_0 1) (_1 2)))";
    let covered = covers(rt.alloc(), line, 1, 2, &mut names)?;
    assert!(rt; !covered);
    Ok(())
}

#[test]
fn other_terms_are_covered(rt: HostRuntime) -> Result<(), Fail> {
    let mut names = Names::new(rt.alloc());
    let line = "(_0 _1) where (=/= ((_0 1) (_1 2)))";
    let covered = covers(rt.alloc(), line, 1, 3, &mut names)?;
    assert!(rt; covered);
    Ok(())
}
