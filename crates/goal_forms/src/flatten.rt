//! Data turned into a table of their parts.

ghost use Rattle.std.specs.Prelude.{◌≡◌, ◌+◌, ◌<◌, ◌≤◌, ◌^◌, ◌++◌, ◌∷◌, [], length, reverse, List};
ghost use Rattle.std.specs.Prelude.{ℕ, true, max};
ghost use Rattle.std.specs.Prelude.{IfOk, OnOk, map};
ghost use Rattle.kan_grammar.specs.Data.Printed.{prefix_name};
ghost use Rattle.kan_grammar.specs.Texts.Sited.{Sited, with_sites, atom_with_site, symbol_number};
ghost use Rattle.kan_terms.specs.Table.{name_of};
ghost use Rattle.sexpr.specs.Meaning.{prefix_of};
ghost use Rattle.kan_terms.specs.Table.{Table};
ghost use Rattle.sexpr.specs.WrittenForms.{string_atom, symbol_atom, written_form};
ghost use Rattle.goal_forms.specs.Parts.{sites, site_at, part_site};
ghost use Rattle.std.specs.List.{list_all};
ghost use Rattle.goal_forms.specs.Heights.{AreLow, is_low_datum};
ghost use Rattle.goal_forms.specs.PartRows.{is_there};
ghost use Rattle.goal_forms.specs.FlatHeights.{WorksLow};
ghost use Rattle.goal_forms.specs.Flattening.{AreNumbered, finish, meaning, work_size, works_size};
ghost use Rattle.goal_forms.specs.Sizes.{parts_in, work_parts, works_parts};
ghost use Rattle.goal_forms.specs.Steps.TermSteps.{site_size};
ghost use Rattle.goal_forms.specs.declared.flatten.Work.TheVariants as works_of;
ghost use Rattle.goal_forms.specs.Places.{are_below, stack_sites, pair_of_last_two, prefixed_last};
ghost use Rattle.goal_forms.specs.Unnamed.{AreNamed, site_unnamed, sites_unnamed};
ghost use Rattle.goal_forms.specs.Unnamed.{symbol_unnamed, work_unnamed, works_unnamed};

use crate::flat_data::{FlatData, FlatPart, Part};
use crate::prefixes::Prefixes;
use kan_terms::{Memory, Names};
use sexpr::{Datum, DatumKind, Prefix, last_datum};
use std::alloc::Global;

/// What is left to be turned.
#[derive(Clone, Copy)]
pub enum Work<'a> {
    /// A datum.
    Datum(&'a Datum),
    /// The elements of a list that are left, the datum after its dot, and the offset of the list.
    Rest(&'a [Datum], Option<&'a Datum>, u32),
    /// The pair, at an offset, of the two parts that were made last.
    Pair(u32),
    /// The list, at an offset, of a symbol and the part that was made last.
    Prefixed(u32, u32),
}

// Adds a part to the table, and its place to those that were made.
fn put(at: u32, part: Part, table: &mut FlatData, places: &mut Vec<u32>) -> Result<(), Memory>
    requires there { is_there (length (sites table.old)) part ≡ true }
    requires room { length (sites table.old) < 2 ^ 32 }
    ensures table { OnOk result
        (sites table.new ≡ sites table.old ++ part_site (sites table.old) at part ∷ []) }
    ensures places { OnOk result
        (places.new.items ≡ places.old.items ++ length (sites table.old) ∷ []) }
{
    let place = table.push(FlatPart { at, part })?;
    places.push(place)?;
    Ok(())
}

// The part that a symbol is; one without a name is nothing.
fn symbol_part(names: &Names, symbol: u32) -> Part
    ensures part { (ds : List Sited) → (at : ℕ) → part_site ds at result
        ≡ atom_with_site names.now at (symbol_atom (name_of names.now.symbols symbol)) }
    ensures there { (n : ℕ) → is_there n result ≡ true }
    ensures named { (ds : List Sited) → (at : ℕ) →
        site_unnamed names.now (part_site ds at result) ≡ 0 }
{
    match names.name(symbol) {
        Some(_) => Part::Name(symbol),
        None => Part::Nil,
    }
}

// The part that a string is; one without a text is nothing.
fn text_part(names: &Names, text: u32) -> Part
    ensures part { (ds : List Sited) → (at : ℕ) → part_site ds at result
        ≡ atom_with_site names.now at (string_atom (name_of names.now.strings text)) }
    ensures there { (n : ℕ) → is_there n result ≡ true }
    ensures named { (ds : List Sited) → (at : ℕ) →
        site_unnamed names.now (part_site ds at result) ≡ 0 }
{
    match names.string(text) {
        Some(_) => Part::Text(text),
        None => Part::Nil,
    }
}

// Makes the pair of the two parts that were made last.
fn join(at: u32, table: &mut FlatData, places: &mut Vec<u32>) -> Result<(), Memory>
    requires room { length (sites table.old) < 2 ^ 32 }
    requires below { are_below (length (sites table.old)) places.old.items ≡ true }
    ensures made { OnOk result
        (stack_sites (sites table.new) places.new.items
        ≡ pair_of_last_two at (stack_sites (sites table.old) places.old.items)) }
    ensures below { OnOk result (are_below (length (sites table.new)) places.new.items ≡ true) }
    ensures low { OnOk result
        (list_all is_low_datum
        (pair_of_last_two at (stack_sites (sites table.old) places.old.items))
        ≡ true → AreLow (sites table.old) → AreLow (sites table.new)) }
    ensures parts { OnOk result (length (sites table.new) ≤ length (sites table.old) + 1) }
    ensures named { OnOk result ((names : Table) →
        sites_unnamed names (sites table.new) ≤ sites_unnamed names (sites table.old)) }
{
    let Some(rest) = places.pop() else {
        return Ok(());
    };
    let Some(first) = places.pop() else {
        return Ok(());
    };
    put(at, Part::Pair(first, rest), table, places)?;
    Ok(())
}

// Makes the list of a symbol and the part that was made last.
fn prefix(at: u32, symbol: u32, table: &mut FlatData, places: &mut Vec<u32>) -> Result<(), Memory>
    requires room { length (sites table.old) + 4 ≤ 2 ^ 32 }
    requires below { are_below (length (sites table.old)) places.old.items ≡ true }
    ensures made { OnOk result
        (stack_sites (sites table.new) places.new.items
        ≡ prefixed_last at symbol (stack_sites (sites table.old) places.old.items)) }
    ensures below { OnOk result (are_below (length (sites table.new)) places.new.items ≡ true) }
    ensures low { OnOk result
        (list_all is_low_datum
        (prefixed_last at symbol (stack_sites (sites table.old) places.old.items))
        ≡ true → AreLow (sites table.old) → AreLow (sites table.new)) }
    ensures parts { OnOk result (length (sites table.new) ≤ length (sites table.old) + 4) }
    ensures named { OnOk result ((names : Table) →
        sites_unnamed names (sites table.new)
        ≤ max (sites_unnamed names (sites table.old)) (symbol_unnamed names symbol)) }
{
    let Some(datum) = places.pop() else {
        return Ok(());
    };
    put(at, Part::Name(symbol), table, places)?;
    places.push(datum)?;
    put(at, Part::Nil, table, places)?;
    join(at, table, places)?;
    join(at, table, places)?;
    Ok(())
}

// Adds a part to the table as the one made last.
fn make(at: u32, part: Part, table: &mut FlatData, places: &mut Vec<u32>) -> Result<(), Memory>
    requires there { is_there (length (sites table.old)) part ≡ true }
    requires below { are_below (length (sites table.old)) places.old.items ≡ true }
    requires room { length (sites table.old) < 2 ^ 32 }
    ensures made { OnOk result
        (stack_sites (sites table.new) places.new.items
        ≡ part_site (sites table.old) at part ∷ stack_sites (sites table.old) places.old.items) }
    ensures below { OnOk result (are_below (length (sites table.new)) places.new.items ≡ true) }
    ensures low { OnOk result
        (is_low_datum (part_site (sites table.old) at part)
        ≡ true → AreLow (sites table.old) → AreLow (sites table.new)) }
    ensures parts { OnOk result (length (sites table.new) ≤ length (sites table.old) + 1) }
    ensures named { OnOk result ((names : Table) →
        sites_unnamed names (sites table.new)
        ≤ max (sites_unnamed names (sites table.old))
        (site_unnamed names (part_site (sites table.old) at part))) }
{
    put(at, part, table, places)?;
    Ok(())
}

// The number of the symbol that a prefix stands for.
fn prefix_symbol(prefixes: &Prefixes, prefix: Prefix) -> u32
    ensures number { (names : Table) → AreNumbered names prefixes.now →
        symbol_number names (prefix_name (prefix_of prefix)) ≡ result }
    ensures named { (names : Table) → AreNamed names prefixes.now →
        symbol_unnamed names result ≡ 0 }
{
    match prefix {
        Prefix::Quote => prefixes.quote,
        Prefix::Quasiquote => prefixes.quasiquote,
        Prefix::Unquote => prefixes.unquote,
    }
}

// Turns a datum, as far as its parts.
fn turn_datum<'a>(
    datum: &'a Datum,
    names: &Names,
    prefixes: &Prefixes,
    table: &mut FlatData,
    places: &mut Vec<u32>,
    works: &mut Vec<Work<'a>>,
) -> Result<(), Memory>
    requires numbered { AreNumbered names.now prefixes.now }
    requires below { are_below (length (sites table.old)) places.old.items ≡ true }
    requires room { length (sites table.old)
        + work_parts names.now (works_of.Datum datum) ≤ 2 ^ 32 }
    requires prefixed { AreNamed names.now prefixes.now }
    ensures made { OnOk result
        (finish names.now (reverse works.new.items) (stack_sites (sites table.new) places.new.items)
        ≡ finish names.now (works_of.Datum datum.entry ∷ reverse works.old.items)
        (stack_sites (sites table.old) places.old.items)) }
    ensures below { OnOk result (are_below (length (sites table.new)) places.new.items ≡ true) }
    ensures low { OnOk result
        (WorksLow names.now (works_of.Datum datum.entry ∷ reverse works.old.items)
        (sites table.old) places.old.items →
        WorksLow names.now (reverse works.new.items) (sites table.new) places.new.items) }
    ensures falls { OnOk result
        (works_size names.now works.new.items
        < work_size names.now (works_of.Datum datum.entry) + works_size names.now works.old.items) }
    ensures parts { OnOk result
        (length (sites table.new) + works_parts names.now works.new.items
        ≤ length (sites table.old)
        + (work_parts names.now (works_of.Datum datum.entry)
        + works_parts names.now works.old.items)) }
    ensures named { OnOk result
        (max (sites_unnamed names.now (sites table.new)) (works_unnamed names.now works.new.items)
        ≤ max (sites_unnamed names.now (sites table.old)) (works_unnamed names.now
        works.old.items)) }
{
    match &datum.kind {
        DatumKind::Symbol(symbol) => make(datum.at, symbol_part(names, *symbol), table, places)?,
        DatumKind::Text(text) => make(datum.at, text_part(names, *text), table, places)?,
        DatumKind::Number(number) => make(datum.at, Part::Number(*number), table, places)?,
        DatumKind::Truth(truth) => make(datum.at, Part::Truth(*truth), table, places)?,
        DatumKind::List(items, last) => works.push(Work::Rest(
            items.as_slice(),
            last_datum(last),
            datum.at,
        ))?,
        DatumKind::Prefixed(prefix, inner) => {
            works.push(Work::Prefixed(datum.at, prefix_symbol(prefixes, *prefix)))?;
            works.push(Work::Datum(inner.get()))?;
        }
    }
    Ok(())
}

// Turns what is left of a list, as far as its first part.
fn turn_rest<'a>(
    items: &'a [Datum],
    last: Option<&'a Datum>,
    at: u32,
    names: &Names,
    table: &mut FlatData,
    places: &mut Vec<u32>,
    works: &mut Vec<Work<'a>>,
) -> Result<(), Memory>
    requires below { are_below (length (sites table.old)) places.old.items ≡ true }
    requires room { length (sites table.old)
        + work_parts names.now (works_of.Rest items last at) ≤ 2 ^ 32 }
    ensures made { OnOk result
        (finish names.now (reverse works.new.items) (stack_sites (sites table.new) places.new.items)
        ≡ finish names.now (works_of.Rest items.entry last.entry at ∷ reverse works.old.items)
        (stack_sites (sites table.old) places.old.items)) }
    ensures below { OnOk result (are_below (length (sites table.new)) places.new.items ≡ true) }
    ensures low { OnOk result
        (WorksLow names.now (works_of.Rest items.entry last.entry at ∷ reverse works.old.items)
        (sites table.old) places.old.items →
        WorksLow names.now (reverse works.new.items) (sites table.new) places.new.items) }
    ensures falls { OnOk result
        (works_size names.now works.new.items
        < work_size names.now
        (works_of.Rest items.entry last.entry at) + works_size names.now works.old.items) }
    ensures parts { OnOk result
        (length (sites table.new) + works_parts names.now works.new.items
        ≤ length (sites table.old)
        + (work_parts names.now (works_of.Rest items.entry last.entry at)
        + works_parts names.now works.old.items)) }
    ensures named { OnOk result
        (max (sites_unnamed names.now (sites table.new)) (works_unnamed names.now works.new.items)
        ≤ max (sites_unnamed names.now (sites table.old)) (works_unnamed names.now
        works.old.items)) }
{
    if let Some((first, rest)) = items.split_first() {
        works.push(Work::Pair(at))?;
        works.push(Work::Rest(rest, last, at))?;
        works.push(Work::Datum(first))?;
        return Ok(());
    }
    match last {
        Some(datum) => works.push(Work::Datum(datum))?,
        None => make(at, Part::Nil, table, places)?,
    }
    Ok(())
}

// Does a piece of work, as far as its parts.
fn turn_work<'a>(
    work: Work<'a>,
    names: &Names,
    prefixes: &Prefixes,
    table: &mut FlatData,
    places: &mut Vec<u32>,
    works: &mut Vec<Work<'a>>,
) -> Result<(), Memory>
    requires numbered { AreNumbered names.now prefixes.now }
    requires below { are_below (length (sites table.old)) places.old.items ≡ true }
    requires room { length (sites table.old) + work_parts names.now work ≤ 2 ^ 32 }
    requires prefixed { AreNamed names.now prefixes.now }
    ensures made { OnOk result
        (finish names.now (reverse works.new.items) (stack_sites (sites table.new) places.new.items)
        ≡ finish names.now (work.entry ∷ reverse works.old.items)
        (stack_sites (sites table.old) places.old.items)) }
    ensures below { OnOk result (are_below (length (sites table.new)) places.new.items ≡ true) }
    ensures low { OnOk result
        (WorksLow names.now (work.entry ∷ reverse works.old.items)
        (sites table.old) places.old.items →
        WorksLow names.now (reverse works.new.items) (sites table.new) places.new.items) }
    ensures falls { OnOk result
        (works_size names.now works.new.items
        < work_size names.now work.entry + works_size names.now works.old.items) }
    ensures parts { OnOk result
        (length (sites table.new) + works_parts names.now works.new.items
        ≤ length (sites table.old)
        + (work_parts names.now work.entry + works_parts names.now works.old.items)) }
    ensures named { OnOk result
        (max (sites_unnamed names.now (sites table.new)) (works_unnamed names.now works.new.items)
        ≤ max (sites_unnamed names.now (sites table.old)) (max
        (work_unnamed names.now work.entry) (works_unnamed names.now works.old.items))) }
{
    match work {
        Work::Datum(datum) => turn_datum(datum, names, prefixes, table, places, works)?,
        Work::Rest(items, last, at) => turn_rest(items, last, at, names, table, places, works)?,
        Work::Pair(at) => join(at, table, places)?,
        Work::Prefixed(at, symbol) => prefix(at, symbol, table, places)?,
    }
    Ok(())
}

// Turns a datum: its place is the last of those that were made.
fn turn_one(
    alloc: Global,
    datum: &Datum,
    names: &Names,
    prefixes: &Prefixes,
    table: &mut FlatData,
    places: &mut Vec<u32>,
) -> Result<(), Memory>
    requires numbered { AreNumbered names.now prefixes.now }
    requires below { are_below (length (sites table.old)) places.old.items ≡ true }
    requires room { length (sites table.old) + site_size (meaning names.now datum.now)
        ≤ 2 ^ 32 }
    requires prefixed { AreNamed names.now prefixes.now }
    ensures made { OnOk result (stack_sites (sites table.new) places.new.items
        ≡ with_sites names.now (written_form names.now datum.now)
        ∷ stack_sites (sites table.old) places.old.items) }
    ensures below { OnOk result (are_below (length (sites table.new)) places.new.items ≡ true) }
    ensures low { OnOk result
        (is_low_datum (with_sites names.now (written_form names.now datum.now))
        ≡ true → list_all is_low_datum (stack_sites (sites table.old) places.old.items)
        ≡ true → AreLow (sites table.old) → AreLow (sites table.new)) }
    ensures parts { OnOk result (length (sites table.new)
        ≤ length (sites table.old) + site_size (meaning names.now datum.now)) }
    ensures named { OnOk result
        (sites_unnamed names.now (sites table.new) ≤ sites_unnamed names.now (sites table.old)) }
{
    let mut works = Vec::new(alloc);
    works.push(Work::Datum(datum))?;
    while let Some(work) = works.pop() {
        turn_work(work, names, prefixes, table, places, &mut works)?;
    }
    Ok(())
}

// Turns data: their places come behind those that were made.
fn turn(
    alloc: Global,
    forms: &[Datum],
    names: &Names,
    prefixes: &Prefixes,
    table: &mut FlatData,
    places: &mut Vec<u32>,
) -> Result<(), Memory>
    requires numbered { AreNumbered names.now prefixes.now }
    requires below { are_below (length (sites table.old)) places.old.items ≡ true }
    requires room { length (sites table.old) + parts_in (map (meaning names.now) forms.now)
        ≤ 2 ^ 32 }
    requires prefixed { AreNamed names.now prefixes.now }
    ensures made { OnOk result (stack_sites (sites table.new) places.new.items
        ≡ reverse (map (meaning names.now) forms.now)
        ++ stack_sites (sites table.old) places.old.items) }
    ensures below { OnOk result (are_below (length (sites table.new)) places.new.items ≡ true) }
    ensures low { OnOk result
        (AreLow (map (meaning names.now) forms.now) →
        list_all is_low_datum (stack_sites (sites table.old) places.old.items)
        ≡ true → AreLow (sites table.old) → AreLow (sites table.new)) }
    ensures parts { OnOk result (length (sites table.new)
        ≤ length (sites table.old) + parts_in (map (meaning names.now) forms.now)) }
    ensures named { OnOk result
        (sites_unnamed names.now (sites table.new) ≤ sites_unnamed names.now (sites table.old)) }
{
    for datum in forms {
        turn_one(alloc, datum, names, prefixes, table, places)?;
    }
    Ok(())
}

/// Turns the data of a library and those of a text, and gives their places, those of the library
/// first.
pub fn turn_both(
    alloc: Global,
    library: &[Datum],
    text: &[Datum],
    names: &Names,
    prefixes: &Prefixes,
    table: &mut FlatData,
) -> Result<Vec<u32>, Memory>
    requires numbered { AreNumbered names.now prefixes.now }
    requires room { length (sites table.old) + (parts_in (map (meaning names.now) library.now)
        + parts_in (map (meaning names.now) text.now)) ≤ 2 ^ 32 }
    requires prefixed { AreNamed names.now prefixes.now }
    ensures made { IfOk result
        (λ places. map (site_at (sites table.new)) places.items
        ≡ map (meaning names.now) library.now ++ map (meaning names.now) text.now) }
    ensures low { OnOk result
        (AreLow (map (meaning names.now) library.now) → AreLow (map (meaning names.now) text.now) →
        AreLow (sites table.old) → AreLow (sites table.new)) }
    ensures named { OnOk result
        (sites_unnamed names.now (sites table.new) ≤ sites_unnamed names.now (sites table.old)) }
{
    let mut places = Vec::new(alloc);
    turn(alloc, library, names, prefixes, table, &mut places)?;
    turn(alloc, text, names, prefixes, table, &mut places)?;
    Ok(places)
}
