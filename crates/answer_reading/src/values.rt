//! The ground terms that the names of an answer stand for.

ghost use Rattle.std.specs.Prelude.{◌≡◌, ◌++◌, ◌<◌, ◌≤◌, true, length, IfOk, OnOk};
ghost use Rattle.kan_terms.specs.Spelling.{SpellsTree};
ghost use Rattle.answer_reading.specs.Marks.{marks_at, node_marks, lent_lists, node_length};
ghost use Rattle.answer_reading.specs.Marks.{term_marks};
ghost use Rattle.answer_reading.specs.Marks.{with_node};
ghost use Rattle.answer_reading.specs.Finding.{Found, rises, seen_of};

use crate::marks::first_length;
use kan_terms::{Ground, Mark, Memory};
use reify::Shape;
use std::alloc::Global;

// Takes the marks of a node from the front of others. A new name is given those that it takes.
fn take_node<'a>(
    shape: Shape,
    rest: &'a [Mark],
    values: &mut Vec<&'a [Mark]>,
) -> Result<usize, Memory>
    requires { 0 < length rest.now }
    ensures count { IfOk result (λ count. count ≡ node_length shape rest.now) }
    ensures within { IfOk result (λ count. count ≤ length rest.now) }
    ensures values { OnOk result
        (lent_lists values.new.items ≡ with_node (lent_lists values.old.items) shape rest.now) }
{
    match shape {
        Shape::Name(name) => {
            let count = first_length(rest);
            if name as usize == values.len() {
                values.push(&rest[..count])?;
            }
            Ok(count)
        }
        _ => Ok(1),
    }
}

/// The marks of the names of a term, in their order, where the term is to be a ground term. They
/// are lent by that one. None where the term can't be that one.
pub(crate) fn values_of<'a>(
    alloc: Global,
    shapes: &[Shape],
    marks: &'a [Mark],
) -> Result<Option<Vec<&'a [Mark]>>, Memory>
    requires whole { SpellsTree marks.now }
    requires rising { rises 0 shapes.now ≡ true }
    ensures { IfOk result (λ found. Found shapes.now marks.now (seen_of found)) }
{
    let mut values = Vec::new(alloc);
    let mut at = 0;
    for shape in shapes {
        if at >= marks.len() {
            return Ok(None);
        }
        at += take_node(*shape, &marks[at..], &mut values)?;
    }
    Ok(Some(values))
}

/// The marks of a name, and none where it has none.
pub(crate) fn value<'a>(values: &[&'a [Mark]], name: u64) -> &'a [Mark]
    ensures { result.now ≡ marks_at (lent_lists values.now) name }
{
    match values.get(name as usize) {
        Some(marks) => marks,
        None => &[],
    }
}

// Adds the marks of a node.
fn put_node(values: &[&[Mark]], shape: Shape, marks: &mut Vec<Mark>) -> Result<(), Memory>
    ensures { OnOk result (marks.new.items ≡ marks.old.items
        ++ node_marks (lent_lists values.now) shape) }
{
    match shape {
        Shape::Pair => marks.push(Mark::Pair)?,
        Shape::Name(name) => marks.extend_from_slice(value(values, name))?,
        Shape::Sym(number) => marks.push(Mark::Sym(number))?,
        Shape::Str(number) => marks.push(Mark::Str(number))?,
        Shape::Num(number) => marks.push(Mark::Num(number))?,
        Shape::Truth(truth) => marks.push(Mark::Truth(truth))?,
        Shape::Nil => marks.push(Mark::Nil)?,
    }
    Ok(())
}

/// The marks of a term whose names have these.
pub(crate) fn term_marks(
    alloc: Global,
    values: &[&[Mark]],
    shapes: &[Shape],
) -> Result<Vec<Mark>, Memory>
    ensures { IfOk result (λ made. made.items ≡ term_marks (lent_lists values.now) shapes.now) }
{
    let mut made = Vec::new(alloc);
    for shape in shapes {
        put_node(values, *shape, &mut made)?;
    }
    Ok(made)
}
