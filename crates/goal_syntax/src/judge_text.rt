//! The faults of texts, and the one that comes first.

ghost use Rattle.std.specs.Prelude.{◌≡◌, ◌<◌, ◌≤◌, ◌+◌, ◌^◌, ◌++◌, length, take, IfOk, OnOk};
ghost use Rattle.std.specs.Prelude.{option_map};
ghost use Rattle.kan_grammar.specs.Texts.TopForms.{definitions};
ghost use Rattle.kan_grammar.specs.Texts.TextFaults.{is_before, first_of, least, forms_faults};
ghost use Rattle.goal_forms.specs.Contexts.{data_at, defined_in};
ghost use Rattle.goal_syntax.specs.Judging.FaultLists.{fault_of, fault_list, AddsFaults};

use crate::fault::Fault;
use crate::judge_form::judge_form;
use goal_forms::{Context, count_defined, parse_form};
use kan_terms::Memory;

// Whether a fault comes before another: by its offset, and at one offset by its number.
fn is_before(fault: Fault, other: Fault) -> bool
    ensures { result ≡ is_before (fault_of fault) (fault_of other) }
{
    fault.at < other.at || fault.at == other.at && fault.refusal.number() <= other.refusal.number()
}

// The first of a fault and maybe another.
fn first_of(fault: Fault, other: Option<Fault>) -> Fault
    ensures { fault_of result ≡ first_of (fault_of fault) (option_map fault_of other) }
{
    match other {
        Some(other) if !is_before(fault, other) => other,
        _ => fault,
    }
}

/// The fault that comes first.
pub(crate) fn least(mut faults: Vec<Fault>) -> Option<Fault>
    ensures { option_map fault_of result ≡ least (fault_list faults.items) }
{
    let mut first = None;
    while let Some(fault) = faults.pop() {
        first = Some(first_of(fault, first));
    }
    first
}

/// Notes the faults of top forms, before which this many relations are defined.
pub(crate) fn judge_forms(
    context: &Context,
    mut before: u32,
    forms: &[u32],
    faults: &mut Vec<Fault>,
) -> Result<(), Memory>
    requires few { length (defined_in context.now) < 2 ^ 32 }
    requires before { before ≤ length (defined_in context.now) }
    requires later { defined_in context.now ≡ take before (defined_in context.now)
        ++ definitions context.now.names.now (data_at context.now forms.now) }
    ensures { OnOk result (AddsFaults faults.old.items faults.new.items
        (forms_faults context.now.names.now (defined_in context.now)
        (take before (defined_in context.now)) (data_at context.now forms.now))) }
{
    for place in forms {
        judge_form(
            context,
            before,
            parse_form(context.flat, context.names, *place),
            faults,
        )?;
        before += count_defined(context.flat, context.names, *place);
    }
    Ok(())
}

/// The fault that comes first of top forms before which this many relations are defined, where they
/// have one.
pub(crate) fn first_of_forms(
    context: &Context,
    before: u32,
    forms: &[u32],
) -> Result<Option<Fault>, Memory>
    requires few { length (defined_in context.now) < 2 ^ 32 }
    requires before { before ≤ length (defined_in context.now) }
    requires later { defined_in context.now ≡ take before (defined_in context.now)
        ++ definitions context.now.names.now (data_at context.now forms.now) }
    ensures { IfOk result (λ fault. option_map fault_of fault
        ≡ least (forms_faults context.now.names.now (defined_in context.now)
        (take before (defined_in context.now)) (data_at context.now forms.now))) }
{
    let mut faults = Vec::new(context.alloc);
    judge_forms(context, before, forms, &mut faults)?;
    Ok(least(faults))
}
