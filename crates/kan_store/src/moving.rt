//! Types and absences of variables that were just bound go over to their terms.

ghost use Rattle.std.specs.Prelude.{map, true, ◌≡◌, IfOk};
ghost use Rattle.std.specs.List.{list_all};
ghost use Rattle.kan_terms.specs.Terms.{sides};
ghost use Rattle.unify_core.specs.Cycles.{HasNoCycle};
ghost use Rattle.type_absence.specs.Meaning.{types, tags};
ghost use Rattle.type_absence.specs.Types.{made_if};
ghost use Rattle.kan_store.specs.Moving.{TypesMove, TagsMove, binds_variable};

use kan_terms::{Bindings, Memory, Term, TermPairs};
use std::alloc::Global;
use type_absence::{Absences, Kinds};

/// Moves the types of all variables that were bound; false where one can't go over.
pub fn move_types<B: Bindings>(
    kinds: &mut Kinds,
    added: &TermPairs,
    bindings: &B,
) -> Result<bool, Memory>
    requires no_cycle { HasNoCycle (B.pairs bindings.now) }
    requires binds { list_all binds_variable (map sides added.now) ≡ true }
    ensures { IfOk result (λ fits. TypesMove (B.pairs bindings.now) (types kinds.old)
        (map sides added.now) (made_if fits (types kinds.new))) }
{
    if kinds.is_untouched() {
        return Ok(true);
    }
    for pair in added.items() {
        let Term::Var(var) = &pair.first else {
            unreachable!()
        };
        if !kinds.move_over(*var, &pair.rest, bindings)? {
            return Ok(false);
        }
    }
    Ok(true)
}

/// Moves the absences of all variables that were bound; false where one can't go over.
pub fn move_tags<B: Bindings>(
    alloc: Global,
    absences: &mut Absences,
    added: &TermPairs,
    bindings: &B,
) -> Result<bool, Memory>
    requires no_cycle { HasNoCycle (B.pairs bindings.now) }
    requires binds { list_all binds_variable (map sides added.now) ≡ true }
    ensures { IfOk result (λ fits. TagsMove (B.pairs bindings.now) (tags absences.old)
        (map sides added.now) (made_if fits (tags absences.new))) }
{
    if absences.is_untouched() {
        return Ok(true);
    }
    for pair in added.items() {
        let Term::Var(var) = &pair.first else {
            unreachable!()
        };
        if !absences.move_over(alloc, *var, &pair.rest, bindings)? {
            return Ok(false);
        }
    }
    Ok(true)
}
