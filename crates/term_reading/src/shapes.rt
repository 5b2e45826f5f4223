//! Reading terms.

ghost use Rattle.std.specs.Prelude.{◌≡◌, ◌<◌, ◌≤◌, ◌++◌, List, ℕ, length, true, false};
ghost use Rattle.std.specs.Prelude.{IfOk};
ghost use Rattle.std.specs.List.{prefix_len};
ghost use Rattle.kan_grammar.specs.Data.Words.{is_word_byte};
ghost use Rattle.kan_terms.specs.Table.{Table};
ghost use Rattle.reify.specs.declared.shaping.Shape.{Shape};
ghost use Rattle.reify.specs.declared.shaping.Shape.TheVariants.{Pair};
ghost use Rattle.reify.specs.Printing.{atom_text};
ghost use Rattle.term_reading.specs.Reading.{GetsDotted, GetsBegun, GetsShape, GetsTruth};
ghost use Rattle.term_reading.specs.Reading.{front, turn};
ghost use Rattle.term_reading.specs.Words.{Continues, HasRoom, Moves, ends, is_fine, is_known};
ghost use Rattle.term_reading.specs.Words.{is_worded};

use crate::strings::{behind, read_string};
use crate::words::word_shape;
use kan_terms::{Memory, Names};
use reify::Shape;
use sexpr::word_length;
use std::alloc::Global;

/// What an element begins with.
#[derive(Clone, Copy)]
pub(crate) enum Lead {
    /// A list.
    Bracket,
    /// A truth value.
    Hash,
    /// A string.
    Mark,
    /// A word, or what is none of these.
    Word,
}

/// What comes behind an element.
#[derive(Clone, Copy)]
pub(crate) enum Step {
    /// The next element.
    Next,
    /// A point and the last part.
    Dot,
    /// The end of the list, or what is none of these.
    Close,
}

// What an element begins with.
fn front(bytes: &[u8]) -> Lead
    ensures { result ≡ front bytes.now }
{
    match bytes.first() {
        Some(b'(') => Lead::Bracket,
        Some(b'#') => Lead::Hash,
        Some(b'"') => Lead::Mark,
        _ => Lead::Word,
    }
}

// What comes behind an element.
fn turn(bytes: &[u8]) -> Step
    ensures { result ≡ turn bytes.now }
{
    match bytes {
        [b' ', b'.', b' ', ..] => Step::Dot,
        [b' ', ..] => Step::Next,
        _ => Step::Close,
    }
}

/// How many bytes the word at the front has, or one byte where there is none.
pub fn front_length(bytes: &[u8]) -> usize
    ensures count { 0 < prefix_len is_word_byte bytes.now
        → result ≡ prefix_len is_word_byte bytes.now }
    ensures some { 0 < length bytes.now → 0 < result }
    ensures within { result ≤ length bytes.now }
{
    let length = word_length(bytes);
    if length == 0 && !bytes.is_empty() {
        1
    } else {
        length
    }
}

/// The word at the front, and what is left.
pub fn read_word<'a>(bytes: &'a [u8], names: &mut Names) -> Result<(Shape, &'a [u8]), Memory>
    requires { HasRoom names.old (length bytes.now) }
    ensures reads { IfOk result (λ read. (table : Table) → Continues names.new table
        → (x : Shape) (more : List ℕ) → is_worded x ≡ true → is_fine table x ≡ true
        → ends more ≡ true → bytes.now ≡ atom_text table x ++ more
        → (read.0 ≡ x) × (read.1.now ≡ more)) }
    ensures known { IfOk result (λ read. is_known names.new read.0 ≡ true) }
    ensures table { Moves names.old (length bytes.now) names.new 0 }
    ensures moves { IfOk result (λ read.
        Moves names.old (length bytes.now) names.new (length read.1.now)) }
    ensures shorter { IfOk result (λ read.
        0 < length bytes.now → length read.1.now < length bytes.now) }
{
    let length = front_length(bytes);
    let shape = word_shape(&bytes[..length], names)?;
    Ok((shape, &bytes[length..]))
}

// The list whose first bracket stands before these bytes, if it is the empty one, or else a pair.
fn list_begun(bytes: &[u8]) -> (Shape, &[u8])
    ensures reads { GetsBegun bytes.now result.0 result.1.now }
    ensures known { (table : Table) → is_known table result.0 ≡ true }
    ensures within { length result.1.now ≤ length bytes.now }
{
    match bytes.first() {
        Some(b')') => (Shape::Nil, behind(bytes, 1)),
        _ => (Shape::Pair, bytes),
    }
}

// The truth value behind a sign, and what is left.
fn truth(bytes: &[u8]) -> (Shape, &[u8])
    ensures reads { GetsTruth bytes.now result.0 result.1.now }
    ensures known { (table : Table) → is_known table result.0 ≡ true }
    ensures within { length result.1.now ≤ length bytes.now }
{
    match bytes.first() {
        Some(byte) => (Shape::Truth(*byte == b't'), behind(bytes, 1)),
        None => (Shape::Nil, bytes),
    }
}

// The shape at the front of an element, and what is left.
fn read_element<'a>(
    alloc: Global,
    bytes: &'a [u8],
    names: &mut Names,
) -> Result<(Shape, &'a [u8]), Memory>
    requires { HasRoom names.old (length bytes.now) }
    ensures reads { IfOk result (λ read.
        GetsShape names.new true bytes.now read.0 read.1.now) }
    ensures known { IfOk result (λ read. is_known names.new read.0 ≡ true) }
    ensures table { Moves names.old (length bytes.now) names.new 0 }
    ensures moves { IfOk result (λ read.
        Moves names.old (length bytes.now) names.new (length read.1.now)) }
    ensures shorter { IfOk result (λ read.
        0 < length bytes.now → length read.1.now < length bytes.now) }
{
    match front(bytes) {
        Lead::Bracket => Ok(list_begun(behind(bytes, 1))),
        Lead::Hash => Ok(truth(behind(bytes, 1))),
        Lead::Mark => read_string(alloc, behind(bytes, 1), names),
        Lead::Word => read_word(bytes, names),
    }
}

// The last part of a list, whose point stands before these bytes, and what is left.
fn read_dotted<'a>(
    alloc: Global,
    bytes: &'a [u8],
    names: &mut Names,
) -> Result<(Shape, &'a [u8]), Memory>
    requires { HasRoom names.old (length bytes.now) }
    ensures reads { IfOk result (λ read.
        GetsDotted names.new bytes.now read.0 read.1.now) }
    ensures known { IfOk result (λ read. is_known names.new read.0 ≡ true) }
    ensures table { Moves names.old (length bytes.now) names.new 0 }
    ensures moves { IfOk result (λ read.
        Moves names.old (length bytes.now) names.new (length read.1.now)) }
{
    let (shape, rest) = read_element(alloc, bytes, names)?;
    Ok((shape, behind(rest, 1)))
}

// The shape at the front of what comes behind an element, and what is left.
fn read_rest<'a>(
    alloc: Global,
    bytes: &'a [u8],
    names: &mut Names,
) -> Result<(Shape, &'a [u8]), Memory>
    requires { HasRoom names.old (length bytes.now) }
    ensures reads { IfOk result (λ read. GetsShape names.new false bytes.now read.0 read.1.now) }
    ensures known { IfOk result (λ read. is_known names.new read.0 ≡ true) }
    ensures table { Moves names.old (length bytes.now) names.new 0 }
    ensures moves { IfOk result (λ read.
        Moves names.old (length bytes.now) names.new (length read.1.now)) }
    ensures shorter { IfOk result (λ read.
        0 < length bytes.now → length read.1.now < length bytes.now) }
{
    match turn(bytes) {
        Step::Next => Ok((Shape::Pair, behind(bytes, 1))),
        Step::Dot => read_dotted(alloc, behind(bytes, 3), names),
        Step::Close => Ok((Shape::Nil, behind(bytes, 1))),
    }
}

/// The next shape, and what is left.
pub(crate) fn read_shape<'a>(
    alloc: Global,
    bytes: &'a [u8],
    element: bool,
    names: &mut Names,
) -> Result<(Shape, &'a [u8]), Memory>
    requires { HasRoom names.old (length bytes.now) }
    ensures reads { IfOk result (λ read.
        GetsShape names.new element bytes.now read.0 read.1.now) }
    ensures known { IfOk result (λ read. is_known names.new read.0 ≡ true) }
    ensures table { Moves names.old (length bytes.now) names.new 0 }
    ensures moves { IfOk result (λ read.
        Moves names.old (length bytes.now) names.new (length read.1.now)) }
    ensures shorter { IfOk result (λ read.
        0 < length bytes.now → length read.1.now < length bytes.now) }
{
    if element {
        read_element(alloc, bytes, names)
    } else {
        read_rest(alloc, bytes, names)
    }
}
