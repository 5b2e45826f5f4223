//! Whether primitives hold under the answer of their equations.

ghost use Rattle.std.specs.Prelude.{◌≡◌, map, not, IfOk};
ghost use Rattle.std.specs.List.{list_all, list_any};
ghost use Rattle.kan_terms.specs.Terms.{tree};
ghost use Rattle.kan_terms.specs.Tree as trees;
ghost use Rattle.kan_model.specs.Stores.Solve.{apply as image_of};
ghost use Rattle.kan_model.specs.Stores.Kept as kept;
ghost use Rattle.kan_model.specs.Stores.Prims.{prim as primitive};
ghost use Rattle.kan_plain.specs.Looking.{is_symbol_of};
ghost use Rattle.kan_solving.specs.Solving.{replaced_by};

use crate::looking::{has_type, looked};
use kan_model::{Kind, Letter, Prim as Asserted, same_terms, spell};
use kan_solving::{Replaced, apply};
use kan_terms::{Memory, Term};
use std::alloc::Global;

// Whether a term is a variable or an atom of a type.
fn may_be(kind: Kind, term: &Term) -> bool
    ensures { result ≡ kept.may_be kind (tree term.now) }
{
    match kind {
        Kind::Symbol => matches!(term, Term::Var(_) | Term::Sym(_)),
        Kind::Number => matches!(term, Term::Var(_) | Term::Num(_) | Term::Large(_)),
        Kind::Text => matches!(term, Term::Var(_) | Term::Str(_)),
    }
}

// Whether what a term stands for is a variable or an atom of a type.
fn may_stand_for(kind: Kind, answer: &[Replaced], term: &Term) -> bool
    ensures { result ≡ kept.may_be kind (image_of (map replaced_by answer.now) (tree term.now)) }
{
    may_be(kind, looked(answer, term))
}

// Whether two terms stand for different ones.
fn are_different(
    alloc: Global,
    answer: &[Replaced],
    left: &Term,
    right: &Term,
) -> Result<bool, Memory>
    ensures { IfOk result (λ different. different ≡ not (trees.term_eq
        (image_of (map replaced_by answer.now) (tree left.now))
        (image_of (map replaced_by answer.now) (tree right.now)))) }
{
    let left = apply(alloc, answer, left)?;
    let right = apply(alloc, answer, right)?;
    let same = same_terms(alloc, &left, &right)?;
    Ok(!same)
}

// Whether a letter is the symbol.
fn is_symbol(letter: Letter, tag: u32) -> bool
    ensures { result ≡ is_symbol_of tag letter }
{
    matches!(letter, Letter::Sym(name) if name == tag)
}

// Whether a symbol is among letters.
fn has_letter(letters: &[Letter], tag: u32) -> bool
    ensures { result ≡ list_any (is_symbol_of tag) letters.now }
{
    letters.iter().any(|letter| is_symbol(*letter, tag))
}

// Whether a symbol stands nowhere in what a term stands for.
fn is_without(alloc: Global, answer: &[Replaced], tag: u32, term: &Term) -> Result<bool, Memory>
    ensures { IfOk result (λ without. without ≡ not (trees.has_symbol tag
        (image_of (map replaced_by answer.now) (tree term.now)))) }
{
    let image = apply(alloc, answer, term)?;
    let letters = spell(alloc, &image)?;
    Ok(!has_letter(&letters, tag))
}

// Whether a primitive is allowed under the answer.
fn allows(alloc: Global, answer: &[Replaced], prim: &Asserted) -> Result<bool, Memory>
    ensures { IfOk result
        (λ allowed. allowed ≡ kept.allows (map replaced_by answer.now) (primitive prim.now)) }
{
    match prim {
        Asserted::Same(_, _) => Ok(true),
        Asserted::Differ(left, right) => are_different(alloc, answer, left, right),
        Asserted::Symbol(term) => Ok(may_stand_for(Kind::Symbol, answer, term)),
        Asserted::Number(term) => Ok(may_stand_for(Kind::Number, answer, term)),
        Asserted::Text(term) => Ok(may_stand_for(Kind::Text, answer, term)),
        Asserted::Absent(tag, term) => is_without(alloc, answer, *tag, term),
    }
}

// Whether all primitives are allowed under the answer.
fn all_allowed(alloc: Global, answer: &[Replaced], prims: &[Asserted]) -> Result<bool, Memory>
    ensures { IfOk result
        (λ allowed. allowed
        ≡ list_all (kept.allows (map replaced_by answer.now)) (map primitive prims.now)) }
{
    for prim in prims {
        let allowed = allows(alloc, answer, prim)?;
        if !allowed {
            return Ok(false);
        }
    }
    Ok(true)
}

// Whether a term stands for no variable of a type.
fn lacks_type(kind: Kind, answer: &[Replaced], prims: &[Asserted], term: &Term) -> bool
    ensures { result ≡ kept.lacks_type kind (map replaced_by answer.now) (map primitive prims.now)
        (image_of (map replaced_by answer.now) (tree term.now)) }
{
    match looked(answer, term) {
        Term::Var(var) => !has_type(kind, answer, prims, *var),
        _ => true,
    }
}

// Whether a primitive gives no variable a second type.
fn gives_one_type(answer: &[Replaced], prims: &[Asserted], prim: &Asserted) -> bool
    ensures { result ≡ kept.gives_one_type (map replaced_by answer.now) (map primitive prims.now)
        (primitive prim.now) }
{
    match prim {
        Asserted::Symbol(term) => {
            lacks_type(Kind::Number, answer, prims, term)
                & lacks_type(Kind::Text, answer, prims, term)
        }
        Asserted::Text(term) => lacks_type(Kind::Number, answer, prims, term),
        _ => true,
    }
}

// Whether no variable has two types.
fn all_of_one_type(answer: &[Replaced], prims: &[Asserted]) -> bool
    ensures { result
        ≡ list_all (kept.gives_one_type (map replaced_by answer.now) (map primitive prims.now))
        (map primitive prims.now) }
{
    for prim in prims {
        if !gives_one_type(answer, prims, prim) {
            return false;
        }
    }
    true
}

// Whether primitives hold under the answer.
pub(crate) fn holds_under(
    alloc: Global,
    answer: &[Replaced],
    prims: &[Asserted],
) -> Result<bool, Memory>
    ensures { IfOk result
        (λ hold. hold ≡ kept.holds_under (map primitive prims.now) (map replaced_by answer.now)) }
{
    let allowed = all_allowed(alloc, answer, prims)?;
    Ok(allowed & all_of_one_type(answer, prims))
}
