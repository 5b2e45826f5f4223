//! The heads of relations.

ghost use Rattle.std.specs.Prelude.{◌≡◌, ◌<◌, ◌^◌, length, IfOk, option_map};
ghost use Rattle.kan_terms.specs.Table.{Table};
ghost use Rattle.kan_grammar.specs.Texts.TopForms.{head as head_of, head_name as name_of_head};
ghost use Rattle.goal_forms.specs.Steps.FormSteps.{name_with_offset};
ghost use Rattle.goal_forms.specs.Parts.{sites, site_at};

use crate::binder::bound_names;
use crate::flat_data::{FlatData, Part};
use crate::shape::{is_proper, pair_parts};
use kan_terms::Memory;
use std::alloc::Global;

/// The symbol of a relation's name, and its offset.
pub fn head_name(flat: &FlatData, head: u32) -> Option<(u32, u32)>
    ensures { option_map name_with_offset result ≡ name_of_head (site_at (sites flat.now) head) }
{
    let (first, params) = pair_parts(flat, head)?;
    let node = flat.read(first);
    match node.part {
        Part::Name(symbol) if is_proper(flat, params) => Some((node.at, symbol)),
        _ => None,
    }
}

/// The parameters of a relation: the names behind the first one of its head, none where that is no
/// proper list.
pub fn head_params(alloc: Global, flat: &FlatData, head: u32) -> Result<Vec<u32>, Memory>
    ensures names { IfOk result (λ bound. (names : Table) →
        bound.items ≡ (head_of names (site_at (sites flat.now) head)).value) }
    ensures few { IfOk result (λ bound. length bound.items < 2 ^ 32) }
{
    match pair_parts(flat, head) {
        Some((_, params)) if is_proper(flat, params) => bound_names(alloc, flat, params),
        _ => Ok(Vec::new(alloc)),
    }
}
