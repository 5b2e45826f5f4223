//! Terms that wait on a stack, lent.

ghost use Rattle.std.specs.Prelude.{◌≡◌, ◌++◌, OnOk};
ghost use Rattle.kan_terms.specs.Terms.{tree};
ghost use Rattle.kan_terms.specs.Waiting.{parts_of, waiting_trees};

use crate::terms::{Memory, Term};

/// Puts the parts of a pair on a stack of waiting terms, the first part on top. Other terms have no
/// parts.
pub fn wait_for_parts<'a>(term: &'a Term, waiting: &mut Vec<&'a Term>) -> Result<(), Memory>
    ensures { OnOk result (waiting_trees waiting.new.items ≡ parts_of (tree term.now) ++
        waiting_trees waiting.old.items) }
{
    if let Term::Pair(parts) = term {
        waiting.push(&parts.rest)?;
        waiting.push(&parts.first)?;
    }
    Ok(())
}
