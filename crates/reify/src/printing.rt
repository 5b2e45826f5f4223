//! The text of a term over names.

ghost use Rattle.std.specs.Prelude.{◌≡◌, ◌++◌, [], ◌∷◌, List, OnOk, reverse, string_bytes};
ghost use Rattle.kan_model.specs.Answers.Decimals.{number_text};
ghost use Rattle.kan_model.specs.Answers.Text.{name_text, string_text, symbol_text};
ghost use Rattle.reify.specs.declared.shaping.Shape.{Shape};
ghost use Rattle.reify.specs.declared.printing.Place.TheVariants.{Element, Rest};
ghost use Rattle.reify.specs.Printing.{atom_text, shape_text, places_after, shapes_text};

use crate::shaping::Shape;
use kan_terms::{Memory, Names};
use sexpr::print_string;
use std::alloc::Global;

/// Where a shape stands.
#[derive(Clone, Copy)]
pub(crate) enum Place {
    /// At the top, or as an element of a list.
    Element,
    /// Behind an element of a list, of which no more follows.
    Rest,
}

/// Adds the text of a name.
pub(crate) fn print_name(name: u64, text: &mut String) -> Result<(), Memory>
    ensures { OnOk result (string_bytes text.new ≡ string_bytes text.old ++ name_text name) }
{
    write!(text, "_{name}")?;
    Ok(())
}

// A whole number.
fn print_number(number: i128, text: &mut String) -> Result<(), Memory>
    ensures { OnOk result (string_bytes text.new ≡ string_bytes text.old ++ number_text number) }
{
    write!(text, "{number}")?;
    Ok(())
}

// The string that has a number.
fn print_text(number: u32, names: &Names, text: &mut String) -> Result<(), Memory>
    ensures { OnOk result (string_bytes text.new
        ≡ string_bytes text.old ++ string_text names.now number) }
{
    print_string(text, names.string(number).unwrap_or(""))?;
    Ok(())
}

/// Adds the text of a symbol.
pub(crate) fn print_symbol(number: u32, names: &Names, text: &mut String) -> Result<(), Memory>
    ensures { OnOk result (string_bytes text.new
        ≡ string_bytes text.old ++ symbol_text names.now number) }
{
    text.push_str(names.name(number).unwrap_or(""))?;
    Ok(())
}

// The text of a shape that is no pair.
fn print_atom(shape: Shape, names: &Names, text: &mut String) -> Result<(), Memory>
    ensures { OnOk result (string_bytes text.new
        ≡ string_bytes text.old ++ atom_text names.now shape) }
{
    match shape {
        Shape::Pair => {}
        Shape::Name(name) => print_name(name, text)?,
        Shape::Sym(number) => print_symbol(number, names, text)?,
        Shape::Str(number) => print_text(number, names, text)?,
        Shape::Num(number) => print_number(number, text)?,
        Shape::Truth(true) => text.push_str("#t")?,
        Shape::Truth(false) => text.push_str("#f")?,
        Shape::Nil => text.push_str("()")?,
    }
    Ok(())
}

// The text of a shape as an element.
fn print_element(shape: Shape, names: &Names, text: &mut String) -> Result<(), Memory>
    ensures { OnOk result (string_bytes text.new
        ≡ string_bytes text.old ++ shape_text names.now Element shape) }
{
    match shape {
        Shape::Pair => {
            text.push('(')?;
            Ok(())
        }
        other => print_atom(other, names, text),
    }
}

// The text of a shape behind an element: its list ends there, but for a pair.
fn print_rest(shape: Shape, names: &Names, text: &mut String) -> Result<(), Memory>
    ensures { OnOk result (string_bytes text.new
        ≡ string_bytes text.old ++ shape_text names.now Rest shape) }
{
    match shape {
        Shape::Pair => text.push(' ')?,
        Shape::Nil => text.push(')')?,
        other => {
            text.push_str(" . ")?;
            print_atom(other, names, text)?;
            text.push(')')?;
        }
    }
    Ok(())
}

// The text of a shape at a place.
fn print_shape(shape: Shape, place: Place, names: &Names, text: &mut String) -> Result<(), Memory>
    ensures { OnOk result (string_bytes text.new
        ≡ string_bytes text.old ++ shape_text names.now place shape) }
{
    match place {
        Place::Element => print_element(shape, names, text),
        Place::Rest => print_rest(shape, names, text),
    }
}

// The places of what follows a shape, the next one at the end.
fn follow(shape: Shape, places: &mut Vec<Place>) -> Result<(), Memory>
    ensures { OnOk result (reverse places.new.items
        ≡ places_after shape (reverse places.old.items)) }
{
    if let Shape::Pair = shape {
        places.push(Place::Rest)?;
        places.push(Place::Element)?;
    }
    Ok(())
}

// Prints a shape at the next place, where there is one.
fn print_next(
    shape: Shape,
    names: &Names,
    text: &mut String,
    places: &mut Vec<Place>,
) -> Result<(), Memory>
    ensures { OnOk result ((more : List Shape)
        → string_bytes text.new ++ shapes_text names.now (reverse places.new.items) more
        ≡ string_bytes text.old
        ++ shapes_text names.now (reverse places.old.items) (shape ∷ more)) }
{
    if let Some(place) = places.pop() {
        print_shape(shape, place, names, text)?;
        follow(shape, places)?;
    }
    Ok(())
}

/// Adds the text of the term that shapes spell.
pub(crate) fn print_shapes(
    alloc: Global,
    shapes: &[Shape],
    names: &Names,
    text: &mut String,
) -> Result<(), Memory>
    ensures { OnOk result (string_bytes text.new
        ≡ string_bytes text.old ++ shapes_text names.now (Element ∷ []) shapes.now) }
{
    let mut places = Vec::new(alloc);
    places.push(Place::Element)?;
    for shape in shapes {
        print_next(*shape, names, text, &mut places)?;
    }
    Ok(())
}
