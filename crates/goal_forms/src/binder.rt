//! Binders and tags.

ghost use Rattle.std.specs.Prelude.{◌≡◌, ◌≤◌, ◌<◌, ◌^◌, ◌+◌, ◌++◌, length, IfOk, OnOk, Some};
ghost use Rattle.kan_terms.specs.Table.{Table};
ghost use Rattle.kan_grammar.specs.Texts.Binders.{is_among, may_bind, names_of, bound_names};
ghost use Rattle.kan_grammar.specs.Texts.Binders.{binder, quoted_symbol};
ghost use Rattle.kan_grammar.specs.Texts.Resolved.{within};
ghost use Rattle.goal_forms.specs.Parts.{sites, site_at};

use crate::flat_data::{FlatData, Part};
use crate::shape::{head_word, is_proper, pair_parts, two_parts};
use crate::word::{Word, word_of_symbol};
use kan_terms::{Memory, Names};
use std::alloc::Global;

// Whether a symbol is among some.
fn is_among(symbols: &[u32], symbol: u32) -> bool
    ensures { result ≡ is_among symbols.now symbol }
{
    symbols.iter().any(|other| symbol == *other)
}

/// Whether a symbol may be a name of a binder that has these names already.
pub fn may_bind(names: &Names, before: &[u32], symbol: u32) -> bool
    ensures { result ≡ may_bind names.now before.now symbol }
{
    let is_other = matches!(word_of_symbol(names, symbol), Word::Other);
    is_other && !is_among(before, symbol)
}

/// Adds the name that a part of a binder is, where it is one.
pub fn add_name(flat: &FlatData, place: u32, bound: &mut Vec<u32>) -> Result<(), Memory>
    ensures added { OnOk result
        (bound.new.items ≡ bound.old.items ++ names_of (site_at (sites flat.now) place)) }
    ensures few { OnOk result (length bound.new.items ≤ length bound.old.items + 1) }
{
    if let Part::Name(symbol) = flat.read(place).part {
        bound.push(symbol)?;
    }
    Ok(())
}

/// The names in a list.
pub fn bound_names(alloc: Global, flat: &FlatData, mut place: u32) -> Result<Vec<u32>, Memory>
    ensures names { IfOk result
        (λ bound. bound.items ≡ bound_names (site_at (sites flat.now) place)) }
    ensures few { IfOk result (λ bound. length bound.items ≤ place) }
{
    let mut bound = Vec::new(alloc);
    while let Some((first, rest)) = pair_parts(flat, place) {
        add_name(flat, first, &mut bound)?;
        place = rest;
    }
    Ok(bound)
}

/// The names of a binder: those in it where it is a proper list, else none.
pub fn binder_names(alloc: Global, flat: &FlatData, place: u32) -> Result<Vec<u32>, Memory>
    ensures names { IfOk result (λ bound. (names : Table) →
        bound.items ≡ (binder names (site_at (sites flat.now) place)).value) }
    ensures few { IfOk result (λ bound. length bound.items < 2 ^ 32) }
{
    if is_proper(flat, place) {
        bound_names(alloc, flat, place)
    } else {
        Ok(Vec::new(alloc))
    }
}

/// Puts names into scope.
pub fn enter(bound: &[u32], scope: &mut Vec<Option<u32>>) -> Result<(), Memory>
    ensures { OnOk result (scope.new.items ≡ within scope.old.items bound.now) }
{
    for name in bound {
        scope.push(Some(*name))?;
    }
    Ok(())
}

/// The symbol that is quoted, where a datum is a quoted symbol.
pub fn quoted_symbol(flat: &FlatData, names: &Names, place: u32) -> Option<u32>
    ensures { result ≡ quoted_symbol names.now (site_at (sites flat.now) place) }
{
    let (quote, symbol) = two_parts(flat, place)?;
    let Part::Name(symbol) = flat.read(symbol).part else {
        return None;
    };
    match head_word(flat, names, quote) {
        Word::Quote => Some(symbol),
        _ => None,
    }
}
