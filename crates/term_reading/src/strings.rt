//! Strings as they are printed.

ghost use Rattle.std.specs.Prelude.{◌≡◌, ◌<◌, ◌≤◌, [], ◌∷◌, ◌++◌, List, ℕ, drop, get_or};
ghost use Rattle.std.specs.Prelude.{length};
ghost use Rattle.std.specs.Prelude.{true, IfOk};
ghost use Rattle.std.specs.List.{flat_map};
ghost use Rattle.kan_grammar.specs.Data.Strings.{escape_meaning};
ghost use Rattle.kan_model.specs.Answers.Text.{string_byte_text, string_text};
ghost use Rattle.kan_terms.specs.Table.{Table, is_string_text};
ghost use Rattle.reify.specs.declared.shaping.Shape.TheVariants.{Str};
ghost use Rattle.term_reading.specs.Strings.{at_mark, behind_byte, front_byte};
ghost use Rattle.term_reading.specs.Words.{Continues, HasRoom, Moves, is_fine, is_known};

use kan_terms::{Memory, Names};
use reify::Shape;
use std::alloc::Global;

/// What stands behind so many bytes.
pub fn behind(bytes: &[u8], count: usize) -> &[u8]
    ensures { result.now ≡ drop count bytes.now }
{
    if count <= bytes.len() {
        &bytes[count..]
    } else {
        &[]
    }
}

// The byte that another one stands for directly behind a backslash.
fn escape_meaning(byte: u8) -> u8
    ensures { result ≡ escape_meaning byte }
{
    match byte {
        b'n' => b'\n',
        b't' => b'\t',
        b'r' => b'\r',
        other => other,
    }
}

// The byte that is printed at the front of a string.
fn front_byte(bytes: &[u8]) -> u8
    ensures { result ≡ front_byte bytes.now }
{
    match bytes {
        [] => 0,
        [byte] => *byte,
        [byte, next, ..] => {
            if *byte == b'\\' {
                escape_meaning(*next)
            } else {
                *byte
            }
        }
    }
}

// What stands behind that byte.
fn behind_byte(bytes: &[u8]) -> &[u8]
    ensures { result.now ≡ behind_byte bytes.now }
{
    if bytes.len() >= 2 && bytes[0] == b'\\' {
        behind(bytes, 2)
    } else {
        behind(bytes, 1)
    }
}

// Whether nothing is left, or a mark is next.
fn is_at_mark(bytes: &[u8]) -> bool
    ensures { result ≡ at_mark bytes.now }
{
    match bytes.first() {
        Some(byte) => *byte == b'"',
        None => true,
    }
}

// The bytes that a string means, up to the mark that closes it, and what is left from there on.
fn text_to_mark<'a>(alloc: Global, bytes: &'a [u8]) -> Result<(Vec<u8>, &'a [u8]), Memory>
    ensures reads { IfOk result (λ read. (text more : List ℕ)
        → bytes.now ≡ flat_map string_byte_text text ++ 34 ∷ more
        → (read.0.items ≡ text) × (read.1.now ≡ 34 ∷ more)) }
    ensures within { IfOk result (λ read. length read.1.now ≤ length bytes.now) }
{
    let mut text = Vec::new(alloc);
    let mut rest = bytes;
    while !is_at_mark(rest) {
        text.push(front_byte(rest))?;
        rest = behind_byte(rest);
    }
    Ok((text, rest))
}

// Whether a string may hold these bytes.
fn is_string_text(bytes: &[u8]) -> bool
    ensures { result ≡ is_string_text bytes.now }
{
    bytes.iter().all(|byte| {
        (*byte > 31 && *byte != 127) || *byte == b'\t' || *byte == b'\n' || *byte == b'\r'
    })
}

// The string of some bytes, where it is one. It gets a number where it has none.
fn string_shape(bytes: &[u8], names: &mut Names) -> Result<Shape, Memory>
    requires { HasRoom names.old 1 }
    ensures reads { IfOk result (λ shape. (table : Table) → Continues names.new table → (s : ℕ)
        → is_fine table (Str s) ≡ true → bytes.now ≡ get_or table.strings s [] → shape ≡ Str s) }
    ensures known { IfOk result (λ shape. is_known names.new shape ≡ true) }
    ensures moves { Moves names.old 1 names.new 0 }
{
    if !is_string_text(bytes) {
        return Ok(Shape::Nil);
    }
    match std::str::from_utf8(bytes) {
        Ok(text) => Ok(Shape::Str(names.intern_string(text)?)),
        Err(_) => Ok(Shape::Nil),
    }
}

/// The string whose first mark stands before these bytes, and what is left. It gets a number where
/// it has none.
pub(crate) fn read_string<'a>(
    alloc: Global,
    bytes: &'a [u8],
    names: &mut Names,
) -> Result<(Shape, &'a [u8]), Memory>
    requires { HasRoom names.old 1 }
    ensures reads { IfOk result (λ read. (table : Table) → Continues names.new table
        → (s : ℕ) (more : List ℕ) → is_fine table (Str s) ≡ true
        → 34 ∷ bytes.now ≡ string_text table s ++ more → (read.0 ≡ Str s) × (read.1.now ≡ more)) }
    ensures known { IfOk result (λ read. is_known names.new read.0 ≡ true) }
    ensures moves { Moves names.old 1 names.new 0 }
    ensures within { IfOk result (λ read. length read.1.now ≤ length bytes.now) }
{
    let (text, rest) = text_to_mark(alloc, bytes)?;
    let shape = string_shape(&text, names)?;
    Ok((shape, behind(rest, 1)))
}
