//! Faults of texts.

ghost use Rattle.std.specs.Prelude.{[], ◌∷◌, OnOk};
ghost use Rattle.kan_grammar.specs.Data.Faults.{fault};
ghost use Rattle.goal_syntax.specs.Judging.FaultLists.{AddsFaults};

use kan_refusals::Refusal;
use kan_terms::Memory;

/// A fault: the offset, and the refusal.
#[derive(Clone, Copy, Debug, PartialEq, Eq)]
pub(crate) struct Fault {
    pub(crate) at: u32,
    pub(crate) refusal: Refusal,
}

/// Notes a fault.
pub(crate) fn report(faults: &mut Vec<Fault>, at: u32, refusal: Refusal) -> Result<(), Memory>
    ensures { OnOk result (AddsFaults faults.old.items faults.new.items (fault at refusal ∷ [])) }
{
    faults.push(Fault { at, refusal })?;
    Ok(())
}
