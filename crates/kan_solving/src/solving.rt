//! Solving equations by replacing variables: nothing is shared, and each replacement goes through
//! all that follows.

ghost use Rattle.std.specs.Prelude.{◌≡◌, [], ◌∷◌, ◌++◌, map, IfOk, OnOk, Some, option_map};
ghost use Rattle.std.specs.List.{flat_map};
ghost use Rattle.kan_terms.specs.Terms.{tree};
ghost use Rattle.kan_terms.specs.Tree.{Tree};
ghost use Rattle.kan_model.specs.Terms.Letters.{spelling, splice};
ghost use Rattle.kan_model.specs.Stores.Solve as spec;
ghost use Rattle.kan_solving.specs.Solving.{replaced_by, IsImage, work_of, put_all_first, on_stack};
ghost use Rattle.kan_solving.specs.Solving.{StepTo};
ghost use Rattle.kan_model.specs.Stores.Composition.{apply_sides};
ghost use Rattle.kan_model.specs.Stores.Prims.{equation};

use crate::orders::Order;
use kan_model::{Letter, build, occurs_in, same_terms, spell};
use kan_terms::{Memory, PairParts, Term, TermPair};
use std::alloc::Global;

/// A variable with the term that replaces it.
#[derive(Drop)]
pub struct Replaced {
    /// The variable.
    pub var: u64,
    /// What it is replaced by.
    pub by: Term,
}

/// What replaces a variable, where it is replaced. It takes no memory.
pub fn found<'a>(replacement: &'a [Replaced], var: u64) -> Option<&'a Term>
    ensures { IsImage (map replaced_by replacement.now) var result }
{
    for replaced in replacement {
        if replaced.var == var {
            return Some(&replaced.by);
        }
    }
    None
}

/// A replacement once more.
pub fn copied_answer(alloc: Global, answer: &[Replaced]) -> Result<Vec<Replaced>, Memory>
    ensures { IfOk result (λ copies. map replaced_by copies.items ≡ map replaced_by answer.now) }
{
    let mut copies = Vec::new(alloc);
    for replaced in answer {
        let by = replaced.by.again()?;
        copies.push(Replaced {
            var: replaced.var,
            by,
        })?;
    }
    Ok(copies)
}

// Writes the letters that stand for a letter under a replacement.
fn splice(
    alloc: Global,
    replacement: &[Replaced],
    letter: Letter,
    made: &mut Vec<Letter>,
) -> Result<(), Memory>
    ensures { OnOk result (made.new.items ≡ made.old.items
        ++ splice (map replaced_by replacement.now) letter) }
{
    if let Letter::Var(var) = letter {
        if let Some(by) = found(replacement, var) {
            let by = spell(alloc, by)?;
            made.extend_from_slice(&by)?;
            return Ok(());
        }
    }
    made.push(letter)?;
    Ok(())
}

// The letters of a term under a replacement.
fn splice_all(
    alloc: Global,
    replacement: &[Replaced],
    letters: &[Letter],
) -> Result<Vec<Letter>, Memory>
    ensures { IfOk result
        (λ made. made.items ≡ flat_map (splice (map replaced_by replacement.now)) letters.now) }
{
    let mut made = Vec::new(alloc);
    for letter in letters {
        splice(alloc, replacement, *letter, &mut made)?;
    }
    Ok(made)
}

// A term under a replacement, by its letters.
fn apply_spelled(alloc: Global, replacement: &[Replaced], term: &Term) -> Result<Term, Memory>
    ensures { IfOk result (λ made. tree made
        ≡ spec.apply (map replaced_by replacement.now) (tree term.now)) }
{
    let letters = spell(alloc, term)?;
    let made = splice_all(alloc, replacement, &letters)?;
    build(alloc, made)
}

// A variable under a replacement.
fn apply_to(replacement: &[Replaced], var: u64) -> Result<Term, Memory>
    ensures { IfOk result (λ made. tree made
        ≡ spec.apply (map replaced_by replacement.now) (Tree.leaf var)) }
{
    match found(replacement, var) {
        Some(by) => by.again(),
        None => Ok(Term::Var(var)),
    }
}

/// A term under a replacement. Only a pair takes memory for its letters.
pub fn apply(alloc: Global, replacement: &[Replaced], term: &Term) -> Result<Term, Memory>
    ensures { IfOk result (λ made. tree made
        ≡ spec.apply (map replaced_by replacement.now) (tree term.now)) }
{
    match term {
        Term::Pair(_) => apply_spelled(alloc, replacement, term),
        Term::Var(var) => apply_to(replacement, *var),
        _ => term.again(),
    }
}

// What is to be done with an equation.
#[derive(Drop)]
enum Work {
    // The sides are the same.
    Identical,
    // Both sides are pairs: the equation of the first parts and that of the rests.
    Parts(TermPair, TermPair),
    // The variable is replaced by the term.
    Substitute(u64, Term),
    // There is no answer.
    Clash,
}

// Replaces a variable by a term that is no variable, unless it stands in the term.
fn unless_inside(alloc: Global, var: u64, term: &Term) -> Result<Work, Memory>
    ensures { IfOk result (λ made. work_of made ≡ spec.unless_inside var (tree term.now)) }
{
    match term {
        Term::Pair(_) | Term::Var(_) => {
            if occurs_in(alloc, var, term)? {
                return Ok(Work::Clash);
            }
        }
        _ => {}
    }
    Ok(Work::Substitute(var, term.again()?))
}

// Replaces one of two different variables by the other.
fn one_of_two<O: Order>(left: u64, right: u64, order: &O) -> Work
    ensures { work_of result
        ≡ spec.work_apart (O.left order.now) (Tree.leaf left) (Tree.leaf right) }
{
    if order.is_left(left, right) {
        Work::Substitute(left, Term::Var(right))
    } else {
        Work::Substitute(right, Term::Var(left))
    }
}

// The equations of the parts of two pairs.
fn parts(left: &PairParts, right: &PairParts) -> Result<Work, Memory>
    ensures { IfOk result
        (λ made. work_of made ≡ spec.work_apart spec.left_first (Tree.pair left.now.0 left.now.1)
        (Tree.pair right.now.0 right.now.1)) }
{
    let first = TermPair {
        first: left.first.again()?,
        rest: right.first.again()?,
    };
    let rest = TermPair {
        first: left.rest.again()?,
        rest: right.rest.again()?,
    };
    Ok(Work::Parts(first, rest))
}

// What is to be done with two different sides.
fn work_apart<O: Order>(alloc: Global, left: &Term, right: &Term, order: &O) -> Result<Work, Memory>
    ensures { IfOk result
        (λ made. work_of made
        ≡ spec.work_apart (O.left order.now) (tree left.now) (tree right.now)) }
{
    match left {
        Term::Var(var) => match right {
            Term::Var(other) => Ok(one_of_two(*var, *other, order)),
            _ => unless_inside(alloc, *var, right),
        },
        Term::Pair(left_parts) => match right {
            Term::Var(var) => unless_inside(alloc, *var, left),
            Term::Pair(right_parts) => parts(left_parts, right_parts),
            _ => Ok(Work::Clash),
        },
        _ => match right {
            Term::Var(var) => unless_inside(alloc, *var, left),
            _ => Ok(Work::Clash),
        },
    }
}

// What is to be done with an equation.
fn work_on<O: Order>(alloc: Global, given: &TermPair, order: &O) -> Result<Work, Memory>
    ensures { IfOk result (λ made. work_of made
        ≡ spec.work (O.left order.now) (equation given.now)) }
{
    if same_terms(alloc, &given.first, &given.rest)? {
        return Ok(Work::Identical);
    }
    work_apart(alloc, &given.first, &given.rest, order)
}

// The equations that are left, with a variable replaced.
fn replace_in_all(
    alloc: Global,
    replacement: &[Replaced],
    pending: &[TermPair],
) -> Result<Vec<TermPair>, Memory>
    ensures { IfOk result (λ made. map equation made.items
        ≡ map (apply_sides (map replaced_by replacement.now)) (map equation pending.now)) }
{
    let mut made = Vec::new(alloc);
    for given in pending {
        let first = apply(alloc, replacement, &given.first)?;
        let rest = apply(alloc, replacement, &given.rest)?;
        made.push(TermPair { first, rest })?;
    }
    Ok(made)
}

// Puts the last replacement in front of what answers for the equations after it.
fn put_first(
    alloc: Global,
    last: Replaced,
    mut answer: Vec<Replaced>,
) -> Result<Vec<Replaced>, Memory>
    ensures { IfOk result (λ made. map replaced_by made.items
        ≡ spec.put_first last.var (tree last.by) (map replaced_by answer.items)) }
{
    let by = apply(alloc, &answer, &last.by)?;
    answer.insert(0, Replaced { var: last.var, by })?;
    Ok(answer)
}

// The whole answer, from the replacements in the order in which they were made.
fn finish(alloc: Global, mut made: Vec<Replaced>) -> Result<Vec<Replaced>, Memory>
    ensures { IfOk result (λ answer. Some (map replaced_by answer.items)
        ≡ put_all_first (map replaced_by made.items) (Some [])) }
{
    let mut answer = Vec::new(alloc);
    while let Some(last) = made.pop() {
        answer = put_first(alloc, last, answer)?;
    }
    Ok(answer)
}

// Replaces a variable in all equations that are left, and notes the replacement.
fn substitute(
    alloc: Global,
    last: Replaced,
    pending: &[TermPair],
    made: &mut Vec<Replaced>,
) -> Result<Vec<TermPair>, Memory>
    ensures left { IfOk result (λ after. on_stack after.items
        ≡ map (spec.replace_sides last.var (tree last.by)) (on_stack pending.now)) }
    ensures noted { OnOk result (map replaced_by made.new.items ≡ map replaced_by made.old.items
        ++ replaced_by last ∷ []) }
{
    let only = [last];
    let after = replace_in_all(alloc, &only, pending)?;
    let [last] = only;
    made.push(last)?;
    Ok(after)
}

// One step on an equation, and whether there may be an answer.
fn step<O: Order>(
    alloc: Global,
    given: TermPair,
    order: &O,
    pending: &mut Vec<TermPair>,
    made: &mut Vec<Replaced>,
) -> Result<bool, Memory>
    ensures { IfOk result
        (λ goes_on. StepTo (on_stack pending.old.items) (map replaced_by made.old.items)
        goes_on (on_stack pending.new.items) (map replaced_by made.new.items)
        (spec.work (O.left order.now) (equation given))) }
{
    match work_on(alloc, &given, order)? {
        Work::Identical => Ok(true),
        Work::Parts(first, rest) => {
            pending.push(rest)?;
            pending.push(first)?;
            Ok(true)
        }
        Work::Substitute(var, by) => {
            *pending = substitute(alloc, Replaced { var, by }, pending, made)?;
            Ok(true)
        }
        Work::Clash => Ok(false),
    }
}

/// The answer of equations, of which the last one is worked on first. The order tells which of two
/// variables is replaced.
pub fn solve<O: Order>(
    alloc: Global,
    mut pending: Vec<TermPair>,
    order: &O,
) -> Result<Option<Vec<Replaced>>, Memory>
    ensures { IfOk result (λ answer.
        option_map (λ made. map replaced_by made.items) answer
        ≡ spec.solve_by (O.left order.now) (on_stack pending.items)) }
{
    let mut made = Vec::new(alloc);
    while let Some(given) = pending.pop() {
        let goes_on = step(alloc, given, order, &mut pending, &mut made)?;
        if !goes_on {
            return Ok(None);
        }
    }
    Ok(Some(finish(alloc, made)?))
}
