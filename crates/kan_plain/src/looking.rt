//! What variables stand for under an answer: their terms, their types and the tags kept out of
//! them.

ghost use Rattle.std.specs.Prelude.{◌≡◌, ◌++◌, ◌∷◌, [], map, IfOk, OnOk};
ghost use Rattle.std.specs.List.{flat_map};
ghost use Rattle.kan_terms.specs.Terms.{tree};
ghost use Rattle.kan_model.specs.Stores.Solve.{apply as image_of};
ghost use Rattle.kan_model.specs.Stores.Kept as kept;
ghost use Rattle.kan_model.specs.Stores.Prims.{equation, prim as primitive};
ghost use Rattle.kan_plain.specs.Looking.{difference_at, kind_under, shallow_image, tag_at};
ghost use Rattle.kan_solving.specs.Solving.{replaced_by};

use kan_model::{Kind, Prim as Asserted, occurs_in};
use kan_solving::{Replaced, apply, found};
use kan_terms::{ListOf, Memory, PairLists, Tags, Term, TermPair, TermPairs};
use std::alloc::Global;

// What a variable stands for; all else is given back.
pub(crate) fn looked<'a>(answer: &'a [Replaced], term: &'a Term) -> &'a Term
    ensures { tree result.now ≡ shallow_image (map replaced_by answer.now) (tree term.now) }
{
    match term {
        Term::Var(var) => found(answer, *var).unwrap_or(term),
        _ => term,
    }
}

// Whether a term stands for this variable.
fn is_variable(answer: &[Replaced], term: &Term, var: u64) -> bool
    ensures { result
        ≡ kept.is_variable var (image_of (map replaced_by answer.now) (tree term.now)) }
{
    match looked(answer, term) {
        Term::Var(other) => var == *other,
        _ => false,
    }
}

// Whether a primitive gives a variable a type.
fn gives_type(kind: Kind, answer: &[Replaced], var: u64, prim: &Asserted) -> bool
    ensures { result ≡ kept.gives_type kind (map replaced_by answer.now) var (primitive prim.now) }
{
    match prim {
        Asserted::Symbol(term) => kind == Kind::Symbol && is_variable(answer, term, var),
        Asserted::Number(term) => kind == Kind::Number && is_variable(answer, term, var),
        Asserted::Text(term) => kind == Kind::Text && is_variable(answer, term, var),
        _ => false,
    }
}

// Whether a variable has a type.
pub(crate) fn has_type(kind: Kind, answer: &[Replaced], prims: &[Asserted], var: u64) -> bool
    ensures { result
        ≡ kept.has_type kind (map replaced_by answer.now) (map primitive prims.now) var }
{
    for prim in prims {
        if gives_type(kind, answer, var, prim) {
            return true;
        }
    }
    false
}

// The type of a variable, where it has one.
pub(crate) fn kind_of(answer: &[Replaced], prims: &[Asserted], var: u64) -> Option<Kind>
    ensures { result ≡ kind_under (map replaced_by answer.now) (map primitive prims.now) var }
{
    if has_type(Kind::Symbol, answer, prims, var) {
        Some(Kind::Symbol)
    } else if has_type(Kind::Number, answer, prims, var) {
        Some(Kind::Number)
    } else if has_type(Kind::Text, answer, prims, var) {
        Some(Kind::Text)
    } else {
        None
    }
}

// Adds the tag that a primitive keeps out of a variable, where it keeps one out.
fn push_tag(
    alloc: Global,
    answer: &[Replaced],
    var: u64,
    prim: &Asserted,
    tags: &mut Tags,
) -> Result<(), Memory>
    ensures { OnOk result
        (tags.new ≡ tags.old ++ tag_at (map replaced_by answer.now) var (primitive prim.now)) }
{
    if let Asserted::Absent(tag, term) = prim {
        let image = apply(alloc, answer, term)?;
        if occurs_in(alloc, var, &image)? {
            if tags.push(*tag).is_err() {
                return Err(Memory);
            }
        }
    }
    Ok(())
}

// The tags that primitives keep out of a variable, in their order.
pub(crate) fn list_tags(
    alloc: Global,
    answer: &[Replaced],
    prims: &[Asserted],
    var: u64,
) -> Result<Tags, Memory>
    ensures { IfOk result
        (λ tags. tags
        ≡ flat_map (tag_at (map replaced_by answer.now) var) (map primitive prims.now)) }
{
    let mut tags = ListOf::new(alloc);
    for prim in prims {
        push_tag(alloc, answer, var, prim, &mut tags)?;
    }
    Ok(tags)
}

// The list of one pair, that of two terms.
fn only_pair(alloc: Global, left: &Term, right: &Term) -> Result<TermPairs, Memory>
    ensures { IfOk result (λ pairs. map equation pairs ≡ record {
      left = tree left.now;
      right = tree right.now;
    } ∷ []) }
{
    let first = left.again()?;
    let rest = right.again()?;
    let mut pairs = ListOf::new(alloc);
    match pairs.push(TermPair { first, rest }) {
        Ok(()) => Ok(pairs),
        Err(_) => Err(Memory),
    }
}

// Adds the sides of a disequality.
fn push_difference(alloc: Global, prim: &Asserted, lists: &mut PairLists) -> Result<(), Memory>
    ensures { OnOk result (map (map equation) lists.new ≡ map (map equation) lists.old
        ++ difference_at (primitive prim.now)) }
{
    if let Asserted::Differ(left, right) = prim {
        let pairs = only_pair(alloc, left, right)?;
        if lists.push(pairs).is_err() {
            return Err(Memory);
        }
    }
    Ok(())
}

// The sides of each disequality, in their order.
pub(crate) fn list_differences(alloc: Global, prims: &[Asserted]) -> Result<PairLists, Memory>
    ensures { IfOk result (λ lists. map (map equation) lists
        ≡ flat_map difference_at (map primitive prims.now)) }
{
    let mut lists = ListOf::new(alloc);
    for prim in prims {
        push_difference(alloc, prim, &mut lists)?;
    }
    Ok(lists)
}
