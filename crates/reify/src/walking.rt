//! The whole term that a variable stands for in a store.

ghost use Rattle.std.specs.Prelude.{◌≡◌, IfOk};
ghost use Rattle.kan_terms.specs.Terms.{tree};
ghost use Rattle.kan_model.specs.Terms.Letters.{spelling};
ghost use Rattle.kan_model.specs.Stores.Solve.{apply};
ghost use Rattle.kan_model.specs.Stores.Calls.{replacement_of};

use kan_model::{Letter, Store, first_letter};
use kan_terms::{Memory, Term, wait_for_parts};
use std::alloc::Global;

/// The letters of what a term stands for in a store.
pub(crate) fn spell_in<St: Store>(
    alloc: Global,
    store: &St,
    term: &Term,
) -> Result<Vec<Letter>, Memory>
    ensures { IfOk result (λ letters. letters.items
        ≡ spelling (apply (replacement_of (St.meaning store.now)) (tree term.now))) }
{
    let mut letters = Vec::new(alloc);
    let mut waiting = Vec::new(alloc);
    waiting.push(term)?;
    while let Some(next) = waiting.pop() {
        let found = store.walk(next);
        letters.push(first_letter(found))?;
        wait_for_parts(found, &mut waiting)?;
    }
    Ok(letters)
}
