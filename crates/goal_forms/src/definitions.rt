//! The relations that texts define.

ghost use Rattle.std.specs.Prelude.{◌≡◌, ◌<◌, ◌+◌, ◌^◌, ◌++◌, length, map, IfOk, OnOk};
ghost use Rattle.kan_grammar.specs.Texts.TopForms.{definitions, definitions_of as defined_by_form};
ghost use Rattle.goal_forms.specs.DefinedRelations.{defined_relations};
ghost use Rattle.goal_forms.specs.RelationTables.{relations};
ghost use Rattle.goal_forms.specs.Parts.{sites, site_at};

use crate::flat_data::FlatData;
use crate::form::defined_by;
use crate::relations::{Defined, Relations};
use kan_terms::{Memory, Names};
use std::alloc::Global;

// Adds the relations that top forms define.
fn define_all(
    flat: &FlatData,
    names: &Names,
    forms: &[u32],
    rows: &mut Vec<Defined>,
) -> Result<(), Memory>
    ensures { OnOk result
        (defined_relations rows.new.items
        ≡ defined_relations rows.old.items
        ++ definitions names.now (map (site_at (sites flat.now)) forms.now)) }
{
    for place in forms {
        if let Some(relation) = defined_by(flat, names, *place) {
            rows.push(relation)?;
        }
    }
    Ok(())
}

/// How many relations a top form defines.
pub fn count_defined(flat: &FlatData, names: &Names, place: u32) -> u32
    ensures { result ≡ length (defined_by_form names.now (site_at (sites flat.now) place)) }
{
    match defined_by(flat, names, place) {
        Some(_) => 1,
        None => 0,
    }
}

/// The relations that a library and a text define, and how many of them are the library's.
pub fn define(
    alloc: Global,
    flat: &FlatData,
    names: &Names,
    library: &[u32],
    text: &[u32],
) -> Result<(Relations, u32), Memory>
    requires { length library.now + length text.now < 2 ^ 32 }
    ensures relations { IfOk result (λ made. relations made.0
        ≡ definitions names.now (map (site_at (sites flat.now)) library.now)
        ++ definitions names.now (map (site_at (sites flat.now)) text.now)) }
    ensures before { IfOk result
        (λ made. made.1 ≡ length
        (definitions names.now (map (site_at (sites flat.now)) library.now))) }
    ensures few { IfOk result (λ made. length (relations made.0) < 2 ^ 32) }
{
    let mut rows = Vec::new(alloc);
    define_all(flat, names, library, &mut rows)?;
    let before = rows.len() as u32;
    define_all(flat, names, text, &mut rows)?;
    let relations = Relations::of(alloc, rows)?;
    Ok((relations, before))
}
