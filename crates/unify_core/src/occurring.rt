//! Variables that stand in terms under bindings.

ghost use Rattle.std.specs.Prelude.{◌≡◌, ◌++◌, [], false, IfOk, IsTrue, OnOk};
ghost use Rattle.kan_model.specs.Stores.Kept as kept;
ghost use Rattle.kan_terms.specs.Terms.{tree};
ghost use Rattle.kan_terms.specs.Tree as trees;
ghost use Rattle.unify_core.specs.Cycles.{HasNoCycle};
ghost use Rattle.unify_core.specs.LentBindings.{AllAbove, parts_unless_ground, with_lent};
ghost use Rattle.kan_terms.specs.Waiting.{waiting_trees};
ghost use Rattle.unify_core.specs.Walking.{IsOtherEnd, full, walk};

use crate::walking::{LentBinding, walk_on};
use kan_terms::{Bindings, Memory, Term, wait_for_parts};
use std::alloc::Global;

/// Whether a term is the variable.
pub fn is_variable(term: &Term, var: u64) -> bool
    ensures { result ≡ kept.is_variable var (tree term.now) }
{
    match term {
        Term::Var(found) => var == *found,
        _ => false,
    }
}

// Puts the parts of a pair on a stack of waiting terms, unless it has no variable.
fn wait_unless_ground<'a>(term: &'a Term, waiting: &mut Vec<&'a Term>) -> Result<(), Memory>
    ensures { OnOk result (waiting_trees waiting.new.items ≡ parts_unless_ground (tree term.now) ++
        waiting_trees waiting.old.items) }
{
    if term.greatest_variable().is_none() {
        return Ok(());
    }
    wait_for_parts(term, waiting)
}

// Whether a term walks to the variable. Where it doesn't, the parts of what it walks to wait.
fn look_at<'a, B: Bindings>(
    var: u64,
    term: &'a Term,
    bindings: &'a B,
    lent: &[LentBinding<'a>],
    waiting: &mut Vec<&'a Term>,
) -> Result<bool, Memory>
    requires { HasNoCycle (with_lent lent.now (B.pairs bindings.now)) }
    ensures found { IfOk result (λ found. found ≡
        kept.is_variable var (walk (with_lent lent.now (B.pairs bindings.now)) (tree term.now))) }
    ensures waits { IfOk result (λ found. found ≡ false →
        waiting_trees waiting.new.items ≡
        parts_unless_ground (walk (with_lent lent.now (B.pairs bindings.now)) (tree term.now)) ++
        waiting_trees waiting.old.items) }
{
    let reached = walk_on(term, bindings, lent);
    if is_variable(reached, var) {
        return Ok(true);
    }
    wait_unless_ground(reached, waiting)?;
    Ok(false)
}

/// Whether a variable stands in a term under bindings with lent ones in front of them.
pub fn occurs_on<'a, B: Bindings>(
    alloc: Global,
    var: u64,
    term: &'a Term,
    bindings: &'a B,
    lent: &[LentBinding<'a>],
) -> Result<bool, Memory>
    requires { HasNoCycle (with_lent lent.now (B.pairs bindings.now)) }
    ensures { IfOk result
        (λ found. found ≡
        trees.occurs var (full (with_lent lent.now (B.pairs bindings.now)) (tree term.now))) }
{
    let mut waiting = Vec::new(alloc);
    if look_at(var, term, bindings, lent, &mut waiting)? {
        return Ok(true);
    }
    while let Some(next) = waiting.pop() {
        if look_at(var, next, bindings, lent, &mut waiting)? {
            return Ok(true);
        }
    }
    Ok(false)
}

// Whether all lent variables are above a number.
fn all_above<'a>(low: u64, lent: &[LentBinding<'a>]) -> bool
    ensures { IsTrue result → AllAbove low lent.now }
{
    for one in lent {
        if one.var <= low {
            return false;
        }
    }
    true
}

// Whether it is known without a look that the variable doesn't stand in the term: the term has no
// variable, or it has old ones alone, and the variable and all that were lent are new.
fn is_apart<'a, B: Bindings>(var: u64, term: &Term, bindings: &B, lent: &[LentBinding<'a>]) -> bool
    ensures { IsTrue result →
        trees.occurs var (full (with_lent lent.now (B.pairs bindings.now)) (tree term.now)) ≡
        false }
{
    match term.greatest_variable() {
        None => true,
        Some(greatest) => match bindings.greatest_variable() {
            None => false,
            Some(old) => {
                if var <= old || old < greatest {
                    return false;
                }
                all_above(old, lent)
            }
        },
    }
}

/// Whether a variable stands in another term that was walked to, under bindings with lent ones in
/// front of them, with no look at the term where the answer is known: a variable that was walked to
/// isn't bound.
pub fn is_inside<'a, B: Bindings>(
    alloc: Global,
    var: u64,
    term: &'a Term,
    bindings: &'a B,
    lent: &[LentBinding<'a>],
) -> Result<bool, Memory>
    requires no_cycle { HasNoCycle (with_lent lent.now (B.pairs bindings.now)) }
    requires other { IsOtherEnd (with_lent lent.now (B.pairs bindings.now)) var (tree term.now) }
    ensures { IfOk result
        (λ found. found ≡
        trees.occurs var (full (with_lent lent.now (B.pairs bindings.now)) (tree term.now))) }
{
    if let Term::Var(_) = term {
        return Ok(false);
    }
    if is_apart(var, term, bindings, lent) {
        return Ok(false);
    }
    occurs_on(alloc, var, term, bindings, lent)
}

/// Whether a variable stands in a term under bindings, in which bound variables are followed.
pub fn occurs<B: Bindings>(
    alloc: Global,
    var: u64,
    term: &Term,
    bindings: &B,
) -> Result<bool, Memory>
    requires { HasNoCycle (B.pairs bindings.now) }
    ensures { IfOk result
        (λ found. found ≡ trees.occurs var (full (B.pairs bindings.now) (tree term.now))) }
{
    occurs_on(alloc, var, term, bindings, &[])
}
