//! Reading whole terms.

ghost use Rattle.std.specs.Prelude.{◌≡◌, ◌<◌, ◌^◌, true, false, length, IfOk};
ghost use Rattle.std.specs.List.{list_all};
ghost use Rattle.reify.specs.declared.shaping.Shape.TheVariants.{Pair};
ghost use Rattle.term_reading.specs.Reading.{GetsTerm, is_unfinished, is_pair, unclosed_after};
ghost use Rattle.term_reading.specs.Words.{HasRoom, Moves, is_known};

use crate::shapes::read_shape;
use kan_terms::{ListOf, Memory, Names};
use reify::{Shape, Shapes};
use std::alloc::Global;

// Whether a shape is a pair.
fn is_pair(shape: Shape) -> bool
    ensures { result ≡ is_pair shape }
{
    matches!(shape, Shape::Pair)
}

// How many lists are unclosed behind a shape, where so many were unclosed before it.
fn unclosed_after(lists: usize, element: bool, pair: bool) -> usize
    requires some { element ≡ false → 0 < lists }
    requires few { lists < 2 ^ 63 }
    ensures { result ≡ unclosed_after lists element pair }
{
    match (element, pair) {
        (true, true) => lists + 1,
        (false, false) => lists - 1,
        _ => lists,
    }
}

// Whether a shape is wanted, and something is left.
fn is_unfinished(element: bool, lists: usize, rest: &[u8]) -> bool
    ensures { result ≡ is_unfinished element lists rest.now }
{
    (element | (lists > 0)) & !rest.is_empty()
}

/// The shapes of the term at the front, and what is left.
pub fn read_term<'a>(
    alloc: Global,
    bytes: &'a [u8],
    names: &mut Names,
) -> Result<(Shapes, &'a [u8]), Memory>
    requires { HasRoom names.old (length bytes.now) }
    ensures reads { IfOk result (λ read. GetsTerm names.new bytes.now read.0 read.1.now) }
    ensures known { IfOk result (λ read. list_all (is_known names.new) read.0 ≡ true) }
    ensures table { Moves names.old (length bytes.now) names.new 0 }
    ensures moves { IfOk result (λ read.
        Moves names.old (length bytes.now) names.new (length read.1.now)) }
{
    let mut made = ListOf::new(alloc);
    let mut rest = bytes;
    let mut lists: usize = 0;
    let mut element = true;
    while is_unfinished(element, lists, rest) {
        let (shape, left) = read_shape(alloc, rest, element, names)?;
        let Ok(()) = made.push(shape) else {
            return Err(Memory);
        };
        rest = left;
        lists = unclosed_after(lists, element, is_pair(shape));
        element = is_pair(shape);
    }
    Ok((made, rest))
}
