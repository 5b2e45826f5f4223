//! The faults of binders and tags.

ghost use Rattle.std.specs.Prelude.{[], OnOk};
ghost use Rattle.kan_grammar.specs.Texts.Binders.{binder_faults, names_faults, binder, tag};
ghost use Rattle.goal_forms.specs.Parts.{sites, site_at};
ghost use Rattle.goal_syntax.specs.Judging.FaultLists.{AddsFaults};

use crate::fault::{Fault, report};
use goal_forms::{FlatData, Part, add_name, is_proper, may_bind, pair_parts, quoted_symbol};
use kan_refusals::Refusal;
use kan_terms::{Memory, Names};
use std::alloc::Global;

// Notes the fault of a part of a binder behind some names.
fn judge_part(
    flat: &FlatData,
    names: &Names,
    before: &[u32],
    place: u32,
    faults: &mut Vec<Fault>,
) -> Result<(), Memory>
    ensures { OnOk result (AddsFaults faults.old.items faults.new.items
        (binder_faults names.now before.now (site_at (sites flat.now) place))) }
{
    let node = flat.read(place);
    match node.part {
        Part::Name(symbol) if may_bind(names, before, symbol) => Ok(()),
        _ => report(faults, node.at, Refusal::BadShape),
    }
}

/// Notes the faults of the names in a list.
pub(crate) fn judge_names(
    alloc: Global,
    flat: &FlatData,
    names: &Names,
    mut place: u32,
    faults: &mut Vec<Fault>,
) -> Result<(), Memory>
    ensures { OnOk result (AddsFaults faults.old.items faults.new.items
        (names_faults names.now [] (site_at (sites flat.now) place))) }
{
    let mut before = Vec::new(alloc);
    while let Some((first, rest)) = pair_parts(flat, place) {
        judge_part(flat, names, &before, first, faults)?;
        add_name(flat, first, &mut before)?;
        place = rest;
    }
    Ok(())
}

/// Notes the faults of a binder, which is to be a proper list of names.
pub(crate) fn judge_binder(
    alloc: Global,
    flat: &FlatData,
    names: &Names,
    place: u32,
    faults: &mut Vec<Fault>,
) -> Result<(), Memory>
    ensures { OnOk result (AddsFaults faults.old.items faults.new.items
        ((binder names.now (site_at (sites flat.now) place)).faults)) }
{
    if is_proper(flat, place) {
        return judge_names(alloc, flat, names, place, faults);
    }
    report(faults, flat.read(place).at, Refusal::BadShape)
}

/// Notes the fault of a tag, which is to be a quoted symbol.
pub fn judge_tag(
    flat: &FlatData,
    names: &Names,
    place: u32,
    faults: &mut Vec<Fault>,
) -> Result<(), Memory>
    ensures { OnOk result (AddsFaults faults.old.items faults.new.items
        ((tag names.now (site_at (sites flat.now) place)).faults)) }
{
    if quoted_symbol(flat, names, place).is_none() {
        report(faults, flat.read(place).at, Refusal::BadTag)?;
    }
    Ok(())
}
