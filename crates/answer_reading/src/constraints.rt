//! Reading constraints, and whole answers.

ghost use Rattle.std.specs.Prelude.{◌≡◌, ◌<◌, ◌≤◌, ◌^◌, ◌++◌, List, ℕ, length, map, true};
ghost use Rattle.std.specs.Prelude.{IfOk, IfSome, OnOk, Some};
ghost use Rattle.std.specs.Option.{option_map, option_to_list};
ghost use Rattle.kan_terms.specs.Table.{Table};
ghost use Rattle.std.specs.List.{list_all};
ghost use Rattle.kan_model.specs.Answers.Text.{name_text};
ghost use Rattle.reify.specs.OverNames.{absence};
ghost use Rattle.reify.specs.declared.shaping.Shape.TheVariants.{Sym};
ghost use Rattle.answer_reading.specs.Listing.{GetsAbsence, GetsAbsences, GetsDifferences};
ghost use Rattle.answer_reading.specs.Listing.{GetsKind, GetsKinds, GetsNames, GetsPair, GetsPairs};
ghost use Rattle.answer_reading.specs.Listing.{GetsConstraints, GetsParts};
ghost use Rattle.answer_reading.specs.Listing.{are_constraints_known, are_parts_known};
ghost use Rattle.answer_reading.specs.Listing.{begins, has_fourth, is_absence_known};
ghost use Rattle.answer_reading.specs.Listing.{is_pair_known, past_space};
ghost use Rattle.term_reading.specs.Words.{HasRoom, Moves, ends, is_known};

use kan_terms::{ListOf, Memory, Names};
use reify::{Absence, NamePair, NamePairs, Shape, Shapes};
use std::alloc::Global;
use term_reading::{behind, front_length, name_number, read_term, read_word};

/// The names that have a type, by type.
#[derive(Drop)]
pub(crate) struct Kinds {
    pub(crate) numbers: Vec<u64>,
    pub(crate) symbols: Vec<u64>,
    pub(crate) strings: Vec<u64>,
}

/// The parts of an answer.
#[derive(Drop)]
pub(crate) struct Parts {
    pub(crate) term: Shapes,
    pub(crate) disequalities: Vec<NamePairs>,
    pub(crate) kinds: Kinds,
    pub(crate) absences: Vec<Absence>,
}

// Whether the first byte is this one.
fn begins(bytes: &[u8], byte: u8) -> bool
    ensures { result ≡ begins byte bytes.now }
{
    match bytes.first() {
        Some(first) => *first == byte,
        None => false,
    }
}

// Whether the fourth byte is this one.
fn has_fourth(bytes: &[u8], byte: u8) -> bool
    ensures { result ≡ has_fourth byte bytes.now }
{
    begins(behind(bytes, 3), byte)
}

// Bytes without a space at the front.
fn past_space(bytes: &[u8]) -> &[u8]
    ensures { result.now ≡ past_space bytes.now }
{
    if begins(bytes, b' ') {
        behind(bytes, 1)
    } else {
        bytes
    }
}

// The name at the front, and what is left.
fn read_name(bytes: &[u8]) -> (u64, &[u8])
    ensures reads { (n : ℕ) (more : List ℕ) → n < 2 ^ 64 → ends more ≡ true
        → bytes.now ≡ name_text n ++ more → (result.0 ≡ n) × (result.1.now ≡ more) }
    ensures within { length result.1.now ≤ length bytes.now }
    ensures shorter { 0 < length bytes.now → length result.1.now < length bytes.now }
{
    let length = front_length(bytes);
    (name_number(&bytes[..length]), &bytes[length..])
}

// The names at the front, and what is left.
fn read_names<'a>(alloc: Global, bytes: &'a [u8]) -> Result<(Vec<u64>, &'a [u8]), Memory>
    ensures reads { IfOk result (λ read. GetsNames bytes.now read.0.items read.1.now) }
    ensures within { IfOk result (λ read. length read.1.now ≤ length bytes.now) }
{
    let mut names = Vec::new(alloc);
    let mut rest = bytes;
    while begins(rest, b'_') {
        let (name, left) = read_name(rest);
        names.push(name)?;
        rest = past_space(left);
    }
    Ok((names, rest))
}

// The pair at the front, and what is left.
fn read_pair<'a>(
    alloc: Global,
    bytes: &'a [u8],
    names: &mut Names,
) -> Result<(NamePair, &'a [u8]), Memory>
    requires { HasRoom names.old (length bytes.now) }
    ensures reads { IfOk result (λ read. GetsPair names.new bytes.now read.0 read.1.now) }
    ensures known { IfOk result (λ read. is_pair_known names.new read.0 ≡ true) }
    ensures table { Moves names.old (length bytes.now) names.new 0 }
    ensures moves { IfOk result (λ read.
        Moves names.old (length bytes.now) names.new (length read.1.now)) }
    ensures shorter { IfOk result (λ read.
        0 < length bytes.now → length read.1.now < length bytes.now) }
{
    let (name, rest) = read_name(behind(bytes, 1));
    let (term, rest) = read_term(alloc, behind(rest, 1), names)?;
    Ok((NamePair { name, term }, behind(rest, 1)))
}

// The pairs at the front, and what is left.
fn read_pairs<'a>(
    alloc: Global,
    bytes: &'a [u8],
    names: &mut Names,
) -> Result<(NamePairs, &'a [u8]), Memory>
    requires { HasRoom names.old (length bytes.now) }
    ensures reads { IfOk result (λ read. GetsPairs names.new bytes.now read.0 read.1.now) }
    ensures known { IfOk result (λ read. list_all (is_pair_known names.new) read.0 ≡ true) }
    ensures table { Moves names.old (length bytes.now) names.new 0 }
    ensures moves { IfOk result (λ read.
        Moves names.old (length bytes.now) names.new (length read.1.now)) }
{
    let mut pairs = ListOf::new(alloc);
    let mut rest = bytes;
    while begins(rest, b'(') {
        let (pair, left) = read_pair(alloc, rest, names)?;
        let Ok(()) = pairs.push(pair) else {
            return Err(Memory);
        };
        rest = past_space(left);
    }
    Ok((pairs, rest))
}

// The disequalities at the front, each behind a space, and what is left.
fn read_differences<'a>(
    alloc: Global,
    bytes: &'a [u8],
    names: &mut Names,
) -> Result<(Vec<NamePairs>, &'a [u8]), Memory>
    requires { HasRoom names.old (length bytes.now) }
    ensures reads { IfOk result (λ read.
        GetsDifferences names.new bytes.now read.0.items read.1.now) }
    ensures known { IfOk result (λ read.
        list_all (list_all (is_pair_known names.new)) read.0.items ≡ true) }
    ensures table { Moves names.old (length bytes.now) names.new 0 }
    ensures moves { IfOk result (λ read.
        Moves names.old (length bytes.now) names.new (length read.1.now)) }
{
    let mut differences = Vec::new(alloc);
    let mut rest = bytes;
    while has_fourth(rest, b'/') {
        let (pairs, left) = read_pairs(alloc, behind(rest, 7), names)?;
        differences.push(pairs)?;
        rest = behind(left, 2);
    }
    Ok((differences, rest))
}

// The names with a word whose second letter is this one, and what is left.
fn read_kind<'a>(alloc: Global, bytes: &'a [u8], letter: u8) -> Result<(Vec<u64>, &'a [u8]), Memory>
    ensures reads { IfOk result (λ read.
        GetsKind letter bytes.now read.0.items read.1.now) }
    ensures within { IfOk result (λ read. length read.1.now ≤ length bytes.now) }
{
    if !has_fourth(bytes, letter) {
        return Ok((Vec::new(alloc), bytes));
    }
    let (names, rest) = read_names(alloc, behind(bytes, 6))?;
    Ok((names, behind(rest, 1)))
}

// The names that have types, and what is left.
fn read_kinds<'a>(alloc: Global, bytes: &'a [u8]) -> Result<(Kinds, &'a [u8]), Memory>
    ensures reads { IfOk result (λ read. GetsKinds bytes.now read.0 read.1.now) }
    ensures within { IfOk result (λ read. length read.1.now ≤ length bytes.now) }
{
    let (numbers, rest) = read_kind(alloc, bytes, b'u')?;
    let (symbols, rest) = read_kind(alloc, rest, b'y')?;
    let (strings, rest) = read_kind(alloc, rest, b't')?;
    let kinds = Kinds {
        numbers,
        symbols,
        strings,
    };
    Ok((kinds, rest))
}

// The absence of a tag from names, if the tag is a symbol.
fn absence_of(tag: Shape, names: Vec<u64>) -> Option<Absence>
    ensures reads { (s : ℕ) → tag ≡ Sym s
        → option_map absence result ≡ Some (record { tag = s; names = names.items }) }
    ensures known { (table : Table) → is_known table tag ≡ true
        → IfSome result (λ kept. is_absence_known table kept ≡ true) }
{
    match tag {
        Shape::Sym(tag) => Some(Absence { tag, names }),
        _ => None,
    }
}

// Adds an absence, where there is one.
fn add(kept: Option<Absence>, made: &mut Vec<Absence>) -> Result<(), Memory>
    ensures { OnOk result (made.new.items ≡ made.old.items ++ option_to_list kept) }
{
    if let Some(kept) = kept {
        made.push(kept)?;
    }
    Ok(())
}

// The absence at the front, behind a space, if it is one, and what is left.
fn read_absence<'a>(
    alloc: Global,
    bytes: &'a [u8],
    names: &mut Names,
) -> Result<(Option<Absence>, &'a [u8]), Memory>
    requires { HasRoom names.old (length bytes.now) }
    ensures reads { IfOk result (λ read.
        GetsAbsence names.new bytes.now (option_map absence read.0) read.1.now) }
    ensures known { IfOk result (λ read.
        IfSome read.0 (λ kept. is_absence_known names.new kept ≡ true)) }
    ensures table { Moves names.old (length bytes.now) names.new 0 }
    ensures moves { IfOk result (λ read.
        Moves names.old (length bytes.now) names.new (length read.1.now)) }
    ensures shorter { IfOk result (λ read.
        0 < length bytes.now → length read.1.now < length bytes.now) }
{
    let (tag, rest) = read_word(behind(bytes, 9), names)?;
    let (listed, rest) = read_names(alloc, behind(rest, 1))?;
    Ok((absence_of(tag, listed), behind(rest, 1)))
}

// The absences that are left, each behind a space.
fn read_absences(alloc: Global, bytes: &[u8], names: &mut Names) -> Result<Vec<Absence>, Memory>
    requires { HasRoom names.old (length bytes.now) }
    ensures reads { IfOk result (λ made.
        GetsAbsences names.new bytes.now (map absence made.items)) }
    ensures known { IfOk result (λ made.
        list_all (is_absence_known names.new) made.items ≡ true) }
    ensures table { Moves names.old (length bytes.now) names.new 0 }
{
    let mut made = Vec::new(alloc);
    let mut rest = bytes;
    while has_fourth(rest, b'b') {
        let (kept, left) = read_absence(alloc, rest, names)?;
        add(kept, &mut made)?;
        rest = left;
    }
    Ok(made)
}

// The constraints of an answer with its term.
fn read_constraints(
    alloc: Global,
    term: Shapes,
    bytes: &[u8],
    names: &mut Names,
) -> Result<Parts, Memory>
    requires { HasRoom names.old (length bytes.now) }
    ensures term { IfOk result (λ parts. parts.term ≡ term) }
    ensures reads { IfOk result (λ parts. GetsConstraints names.new bytes.now parts) }
    ensures known { IfOk result (λ parts. are_constraints_known names.new parts ≡ true) }
    ensures table { Moves names.old (length bytes.now) names.new 0 }
{
    let (disequalities, rest) = read_differences(alloc, bytes, names)?;
    let (kinds, rest) = read_kinds(alloc, rest)?;
    let absences = read_absences(alloc, rest, names)?;
    Ok(Parts {
        term,
        disequalities,
        kinds,
        absences,
    })
}

/// The parts of an answer, where the line is the text of one.
pub(crate) fn read_parts(alloc: Global, line: &[u8], names: &mut Names) -> Result<Parts, Memory>
    requires { HasRoom names.old (length line.now) }
    ensures reads { IfOk result (λ parts. GetsParts names.new line.now parts) }
    ensures known { IfOk result (λ parts. are_parts_known names.new parts ≡ true) }
    ensures table { Moves names.old (length line.now) names.new 0 }
{
    let (term, rest) = read_term(alloc, line, names)?;
    read_constraints(alloc, term, behind(rest, 6), names)
}
