//! Marks of ground terms: how far a whole one goes, and whether two lists are the same.

ghost use Rattle.std.specs.Prelude.{◌≡◌, ◌-◌, ◌<◌, ◌≤◌, ◌^◌, length};
ghost use Rattle.std.specs.List.{list_any};
ghost use Rattle.answer_reading.specs.Marks.{begins, is_tag, mark_eq, marks_eq};
ghost use Rattle.answer_reading.specs.Marks.{wanted_after, whole_length};

use kan_model::Kind;
use kan_terms::Mark;

// How many whole terms are wanted after a mark, where so many were before it.
fn wanted_after(mark: Mark, wanted: usize) -> usize
    requires some { 0 < wanted }
    requires few { wanted < 2 ^ 63 }
    ensures { result ≡ wanted_after mark (wanted - 1) }
{
    match mark {
        Mark::Pair => wanted + 1,
        _ => wanted - 1,
    }
}

/// How many marks the first whole term has.
pub(crate) fn first_length(marks: &[Mark]) -> usize
    ensures count { result ≡ whole_length 1 marks.now }
    ensures within { result ≤ length marks.now }
{
    let mut wanted: usize = 1;
    let mut at = 0;
    while wanted > 0 && at < marks.len() {
        wanted = wanted_after(marks[at], wanted);
        at += 1;
    }
    at
}

// Whether two marks are the same.
fn same_mark(one: Mark, other: Mark) -> bool
    ensures { result ≡ mark_eq one other }
{
    match one {
        Mark::Pair => matches!(other, Mark::Pair),
        Mark::Sym(name) => matches!(other, Mark::Sym(found) if name == found),
        Mark::Str(text) => matches!(other, Mark::Str(found) if text == found),
        Mark::Num(number) => matches!(other, Mark::Num(found) if number == found),
        Mark::Truth(truth) => matches!(other, Mark::Truth(found) if truth == found),
        Mark::Nil => matches!(other, Mark::Nil),
    }
}

/// Whether two lists of marks are the same.
pub(crate) fn same_marks(one: &[Mark], other: &[Mark]) -> bool
    ensures { result ≡ marks_eq one.now other.now }
{
    if one.len() != other.len() {
        return false;
    }
    for at in 0..one.len() {
        if !same_mark(one[at], other[at]) {
            return false;
        }
    }
    true
}

/// Whether marks are those of a term of a type.
pub(crate) fn begins(kind: Kind, marks: &[Mark]) -> bool
    ensures { result ≡ begins kind marks.now }
{
    match kind {
        Kind::Symbol => matches!(marks.first(), Some(Mark::Sym(_))),
        Kind::Number => matches!(marks.first(), Some(Mark::Num(_))),
        Kind::Text => matches!(marks.first(), Some(Mark::Str(_))),
    }
}

// Whether a mark is that of a symbol.
fn is_tag(tag: u32, mark: Mark) -> bool
    ensures { result ≡ is_tag tag mark }
{
    match mark {
        Mark::Sym(found) => tag == found,
        _ => false,
    }
}

/// Whether a symbol is among marks.
pub(crate) fn has_tag(tag: u32, marks: &[Mark]) -> bool
    ensures { result ≡ list_any (is_tag tag) marks.now }
{
    marks.iter().any(|mark| is_tag(tag, *mark))
}
