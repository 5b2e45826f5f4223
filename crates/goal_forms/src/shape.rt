//! The shapes of lists, read as pairs.

ghost use Rattle.std.specs.Prelude.{◌≡◌, option_map};
ghost use Rattle.kan_grammar.specs.Texts.Sited.{is_proper, count, first, rest};
ghost use Rattle.kan_grammar.specs.Texts.Language.{head_word};
ghost use Rattle.goal_forms.specs.Words.{word_of};
ghost use Rattle.goal_forms.specs.Parts.{sites, site_at, pair_at};
ghost use Rattle.goal_forms.specs.Shapes.{parts, is_end, only, two, AreBefore};

use crate::flat_data::{FlatData, Part};
use crate::word::{Word, word_of_symbol};
use kan_terms::Names;

/// The places of a pair's two parts.
pub fn pair_parts(flat: &FlatData, place: u32) -> Option<(u32, u32)>
    ensures parts { option_map (pair_at (sites flat.now)) result
        ≡ parts (site_at (sites flat.now) place) }
    ensures before { AreBefore result place }
{
    match flat.read(place).part {
        Part::Pair(first, rest) => Some((first, rest)),
        _ => None,
    }
}

/// Whether a place holds the empty list.
pub fn is_end(flat: &FlatData, place: u32) -> bool
    ensures { result ≡ is_end (site_at (sites flat.now) place) }
{
    matches!(flat.read(place).part, Part::Nil)
}

/// The place of the one element of a list, where it has just one.
pub fn only_part(flat: &FlatData, place: u32) -> Option<u32>
    ensures { option_map (site_at (sites flat.now)) result ≡ only (site_at (sites flat.now) place) }
{
    let (first, rest) = pair_parts(flat, place)?;
    if is_end(flat, rest) {
        Some(first)
    } else {
        None
    }
}

/// The places of the two elements of a list, where it has just two.
pub fn two_parts(flat: &FlatData, place: u32) -> Option<(u32, u32)>
    ensures { option_map (pair_at (sites flat.now)) result ≡ two (site_at (sites flat.now) place) }
{
    let (first, rest) = pair_parts(flat, place)?;
    let second = only_part(flat, rest)?;
    Some((first, second))
}

/// How many elements a proper list has.
pub fn count(flat: &FlatData, mut place: u32) -> Option<u32>
    ensures { result ≡ count (site_at (sites flat.now) place) }
{
    let mut counted = 0;
    while let Some((_, rest)) = pair_parts(flat, place) {
        counted += 1;
        place = rest;
    }
    if is_end(flat, place) {
        Some(counted)
    } else {
        None
    }
}

/// Whether a list is proper.
pub fn is_proper(flat: &FlatData, place: u32) -> bool
    ensures { result ≡ is_proper (site_at (sites flat.now) place) }
{
    count(flat, place).is_some()
}

/// The name of the language that the part at a place is, which is one only where it is a symbol.
pub fn head_word(flat: &FlatData, names: &Names, place: u32) -> Word
    ensures { word_of result ≡ head_word names.now (site_at (sites flat.now) place) }
{
    match flat.read(place).part {
        Part::Name(symbol) => word_of_symbol(names, symbol),
        _ => Word::Other,
    }
}

/// The place of a pair's first part, and the place itself where there is no pair.
pub fn first(flat: &FlatData, place: u32) -> u32
    ensures { site_at (sites flat.now) result ≡ first (site_at (sites flat.now) place) }
{
    match pair_parts(flat, place) {
        Some((first, _)) => first,
        None => place,
    }
}

/// The place of a pair's rest, and the place itself where there is no pair.
pub fn rest(flat: &FlatData, place: u32) -> u32
    ensures { site_at (sites flat.now) result ≡ rest (site_at (sites flat.now) place) }
{
    match pair_parts(flat, place) {
        Some((_, rest)) => rest,
        None => place,
    }
}
