//! The strongest forms, each once.

ghost use Rattle.std.specs.Prelude.{◌≡◌, ◌&&◌, ◌<◌, length, map, not, take, IfOk};
ghost use Rattle.kan_model.specs.Answers.Answer.{implies, is_weaker, same_form, same_pair};
ghost use Rattle.kan_solving.specs.Solving.{replaced_by};
ghost use Rattle.reify.specs.Keeping.{form_of};
ghost use Rattle.reify.specs.Choosing.{is_new, is_stronger, made_equal};

use crate::comparing::are_same;
use kan_solving::{Replaced, apply};
use kan_terms::{Memory, Term};
use std::alloc::Global;

// Whether a form makes a variable and what replaces it identical.
fn makes_equal(alloc: Global, form: &[Replaced], pair: &Replaced) -> Result<bool, Memory>
    ensures { IfOk result (λ equal. equal
        ≡ made_equal (map replaced_by form.now) (replaced_by pair.now)) }
{
    let left = apply(alloc, form, &Term::Var(pair.var))?;
    let right = apply(alloc, form, &pair.by)?;
    let equal = are_same(alloc, &left, &right)?;
    Ok(equal)
}

// Whether a disequality implies another one, by their forms.
fn implies(alloc: Global, form: &[Replaced], other: &[Replaced]) -> Result<bool, Memory>
    ensures { IfOk result (λ implied. implied
        ≡ implies (map replaced_by form.now) (map replaced_by other.now)) }
{
    for pair in form {
        let equal = makes_equal(alloc, other, pair)?;
        if !equal {
            return Ok(false);
        }
    }
    Ok(true)
}

// Whether a disequality implies another one and isn't implied by it.
fn is_stronger(alloc: Global, other: &[Replaced], form: &[Replaced]) -> Result<bool, Memory>
    ensures { IfOk result (λ stronger. stronger
        ≡ is_stronger (map replaced_by form.now) (map replaced_by other.now)) }
{
    let implied = implies(alloc, other, form)?;
    if !implied {
        return Ok(false);
    }
    let back = implies(alloc, form, other)?;
    Ok(!back)
}

// Whether one of the forms is stronger than a form.
fn is_weaker(alloc: Global, forms: &[Vec<Replaced>], form: &[Replaced]) -> Result<bool, Memory>
    ensures { IfOk result (λ weaker. weaker
        ≡ is_weaker (map form_of forms.now) (map replaced_by form.now)) }
{
    for other in forms {
        let stronger = is_stronger(alloc, other, form)?;
        if stronger {
            return Ok(true);
        }
    }
    Ok(false)
}

// Whether two pairs of forms are the same.
fn is_same_pair(alloc: Global, one: &Replaced, other: &Replaced) -> Result<bool, Memory>
    ensures { IfOk result (λ same. same ≡ same_pair (replaced_by one.now) (replaced_by other.now)) }
{
    if one.var != other.var {
        return Ok(false);
    }
    let same = are_same(alloc, &one.by, &other.by)?;
    Ok(same)
}

// Whether two forms are the same.
fn is_same_form(alloc: Global, one: &[Replaced], other: &[Replaced]) -> Result<bool, Memory>
    ensures { IfOk result (λ same. same
        ≡ same_form (map replaced_by one.now) (map replaced_by other.now)) }
{
    if one.len() != other.len() {
        return Ok(false);
    }
    for at in 0..one.len() {
        let same = is_same_pair(alloc, &one[at], &other[at])?;
        if !same {
            return Ok(false);
        }
    }
    Ok(true)
}

// Whether a form isn't among others.
fn is_new(alloc: Global, forms: &[Vec<Replaced>], form: &[Replaced]) -> Result<bool, Memory>
    ensures { IfOk result (λ new. new ≡ is_new (map form_of forms.now) (map replaced_by form.now)) }
{
    for other in forms {
        let same = is_same_form(alloc, other, form)?;
        if same {
            return Ok(false);
        }
    }
    Ok(true)
}

/// Whether no form is stronger than the one at an index, and none before it is the same.
pub(crate) fn is_chosen(
    alloc: Global,
    forms: &[Vec<Replaced>],
    at: usize,
    form: &[Replaced],
) -> Result<bool, Memory>
    requires { at < length forms.now }
    ensures { IfOk result (λ chosen. chosen
        ≡ (not (is_weaker (map form_of forms.now) (map replaced_by form.now))
        && is_new (map form_of (take at forms.now)) (map replaced_by form.now))) }
{
    let weaker = is_weaker(alloc, forms, form)?;
    let new = is_new(alloc, &forms[..at], form)?;
    Ok(!weaker & new)
}
