//! Whether the equation of a solved form fits a store's types and absences.

ghost use Rattle.std.specs.Prelude.{◌≡◌, not, map, IfOk};
ghost use Rattle.std.specs.List.{All, list_all, list_any};
ghost use Rattle.kan_terms.specs.Terms.{tree};
ghost use Rattle.kan_model.specs.Stores.Kept.{is_variable};
ghost use Rattle.kan_model.specs.Stores.Calls.{IsFree};
ghost use Rattle.kan_solving.specs.Solving.{replaced_by};
ghost use Rattle.reify.specs.Fitting.{IsOver, agrees_at, fits, fits_at, is_symbol_letter};
ghost use Rattle.reify.specs.Fitting.{kind_allows, kinds_agree, tags_fit, types_fit};

use crate::typing::is_kind;
use kan_model::{Kind, Letter, Store, spell};
use kan_solving::Replaced;
use kan_terms::{Memory, Term};
use std::alloc::Global;

// Whether a type, where there is one, allows a term in place of a variable.
fn allows(kind: Option<Kind>, by: &Term) -> bool
    ensures { result ≡ kind_allows kind (tree by.now) }
{
    match by {
        Term::Var(_) => true,
        Term::Sym(_) => kind.is_none() || is_kind(Kind::Symbol, kind),
        Term::Num(_) | Term::Large(_) => kind.is_none() || is_kind(Kind::Number, kind),
        Term::Str(_) => kind.is_none() || is_kind(Kind::Text, kind),
        Term::Truth(_) => kind.is_none(),
        Term::Nil => kind.is_none(),
        Term::Pair(_) => kind.is_none(),
    }
}

// Whether two variables aren't of two types.
fn agree(one: Option<Kind>, other: Option<Kind>) -> bool
    ensures { result ≡ kinds_agree one other }
{
    match one {
        None => true,
        Some(kind) => match other {
            None => true,
            Some(_) => is_kind(kind, other),
        },
    }
}

// Whether a term is a variable.
fn is_variable(by: &Term, var: u64) -> bool
    ensures { result ≡ is_variable var (tree by.now) }
{
    match by {
        Term::Var(found) => var == *found,
        _ => false,
    }
}

// Whether a replaced variable isn't of another type, if it is replaced by this one.
fn agrees<St: Store>(store: &St, kind: Option<Kind>, var: u64, other: &Replaced) -> bool
    requires { IsFree (St.meaning store.now) other.now.var }
    ensures { result ≡ agrees_at (St.meaning store.now) kind var (replaced_by other.now) }
{
    if is_variable(&other.by, var) {
        agree(kind, store.kind(other.var))
    } else {
        true
    }
}

// The same of all replaced variables.
fn agrees_all<St: Store>(store: &St, kind: Option<Kind>, var: u64, form: &[Replaced]) -> bool
    requires { All (IsOver (St.meaning store.now)) form.now }
    ensures { result
        ≡ list_all (agrees_at (St.meaning store.now) kind var) (map replaced_by form.now) }
{
    for other in form {
        if !agrees(store, kind, var, other) {
            return false;
        }
    }
    true
}

// Whether the type of a replaced variable fits what replaces it.
fn types_fit<St: Store>(store: &St, form: &[Replaced], at: &Replaced) -> bool
    requires over { All (IsOver (St.meaning store.now)) form.now }
    requires here { IsOver (St.meaning store.now) at.now }
    ensures { result
        ≡ types_fit (St.meaning store.now) (map replaced_by form.now) (replaced_by at.now) }
{
    let kind = store.kind(at.var);
    match &at.by {
        Term::Var(var) => { agree(kind, store.kind(*var)) & agrees_all(store, kind, *var, form) }
        _ => allows(kind, &at.by),
    }
}

// Whether a letter is the symbol.
fn is_symbol(letter: Letter, tag: u32) -> bool
    ensures { result ≡ is_symbol_letter tag letter }
{
    match letter {
        Letter::Sym(found) => tag == found,
        _ => false,
    }
}

// Whether a symbol is among letters.
fn stands(letters: &[Letter], tag: u32) -> bool
    ensures { result ≡ list_any (is_symbol_letter tag) letters.now }
{
    letters.iter().any(|letter| is_symbol(*letter, tag))
}

// Whether no tag is among letters.
fn none_stands(tags: &[u32], letters: &[Letter]) -> bool
    ensures { result
        ≡ list_all (λ tag. not (list_any (is_symbol_letter tag) letters.now)) tags.now }
{
    tags.iter().all(|tag| !stands(letters, *tag))
}

// Whether no tag that must not stand in a replaced variable stands in what replaces it.
fn tags_fit<St: Store>(alloc: Global, store: &St, at: &Replaced) -> Result<bool, Memory>
    requires { IsFree (St.meaning store.now) at.now.var }
    ensures { IfOk result (λ fit. fit ≡ tags_fit (St.meaning store.now) (replaced_by at.now)) }
{
    let tags = store.tags(alloc, at.var)?;
    let letters = spell(alloc, &at.by)?;
    let fit = none_stands(tags.items(), &letters);
    Ok(fit)
}

// Whether a replaced variable fits what replaces it.
fn fits_at<St: Store>(
    alloc: Global,
    store: &St,
    form: &[Replaced],
    at: &Replaced,
) -> Result<bool, Memory>
    requires over { All (IsOver (St.meaning store.now)) form.now }
    requires here { IsOver (St.meaning store.now) at.now }
    ensures { IfOk result (λ fit. fit
        ≡ fits_at (St.meaning store.now) (map replaced_by form.now) (replaced_by at.now)) }
{
    let types = types_fit(store, form, at);
    let tags = tags_fit(alloc, store, at)?;
    Ok(types & tags)
}

/// Whether the equation of a solved form can be kept together with a store's types and absences.
pub(crate) fn fits<St: Store>(alloc: Global, store: &St, form: &[Replaced]) -> Result<bool, Memory>
    requires { All (IsOver (St.meaning store.now)) form.now }
    ensures { IfOk result (λ fit. fit ≡ fits (St.meaning store.now) (map replaced_by form.now)) }
{
    for at in form {
        let fit = fits_at(alloc, store, form, at)?;
        if !fit {
            return Ok(false);
        }
    }
    Ok(true)
}
