//! The forms of a store's disequalities.

ghost use Rattle.std.specs.Prelude.{◌≡◌, ◌++◌, [], ◌∷◌, map, IfOk, OnOk, option_map};
ghost use Rattle.std.specs.List.{All, list_all};
ghost use Rattle.kan_model.specs.Stores.Prims.{equation};
ghost use Rattle.kan_model.specs.Stores.Calls.{replacement_of, IsFree};
ghost use Rattle.kan_model.specs.Answers.Answer.{all_named, forms_of};
ghost use Rattle.kan_solving.specs.Solving.{replaced_by};
ghost use Rattle.reify.specs.Keeping.{form_kept, form_of, forms_meant, is_named, letter_named};

use crate::fitting::fits;
use crate::forms::{in_rank, solved};
use crate::naming::Naming;
use kan_model::{Letter, Store, spell};
use kan_solving::Replaced;
use kan_terms::{Memory, TermPair, TermPairs};
use std::alloc::Global;

// Whether a letter is none of an unnamed variable.
fn is_letter_named(naming: &Naming, letter: Letter) -> bool
    ensures { result ≡ letter_named naming.now letter }
{
    match letter {
        Letter::Var(var) => naming.stands(var),
        _ => true,
    }
}

// Whether no letter is one of an unnamed variable.
fn are_letters_named(naming: &Naming, letters: &[Letter]) -> bool
    ensures { result ≡ list_all (letter_named naming.now) letters.now }
{
    letters
        .iter()
        .all(|letter| is_letter_named(naming, *letter))
}

// Whether a replaced variable and what replaces it are named.
fn is_pair_named(alloc: Global, naming: &Naming, pair: &Replaced) -> Result<bool, Memory>
    ensures { IfOk result (λ named. named ≡ is_named naming.now (replaced_by pair.now)) }
{
    let letters = spell(alloc, &pair.by)?;
    Ok(naming.stands(pair.var) & are_letters_named(naming, &letters))
}

// Whether a form mentions named variables alone.
fn is_form_named(alloc: Global, naming: &Naming, form: &[Replaced]) -> Result<bool, Memory>
    ensures { IfOk result (λ named. named ≡ all_named naming.now (map replaced_by form.now)) }
{
    for pair in form {
        let named = is_pair_named(alloc, naming, pair)?;
        if !named {
            return Ok(false);
        }
    }
    Ok(true)
}

// A form in the order of the replaced variables, where it may be written.
fn written<St: Store>(
    alloc: Global,
    store: &St,
    naming: &Naming,
    form: Vec<Replaced>,
) -> Result<Option<Vec<Replaced>>, Memory>
    requires { All (IsFree (St.meaning store.now)) naming.now }
    ensures { IfOk result (λ made. option_map form_of made
        ≡ form_kept naming.now (St.meaning store.now) (form_of form)) }
{
    let named = is_form_named(alloc, naming, &form)?;
    if !named {
        return Ok(None);
    }
    let fit = fits(alloc, store, &form)?;
    if !fit {
        return Ok(None);
    }
    let made = in_rank(alloc, naming, form)?;
    Ok(Some(made))
}

// Adds the form of pairs, where it may be written.
fn add_form<St: Store>(
    alloc: Global,
    store: &St,
    naming: &Naming,
    pairs: &[TermPair],
    forms: &mut Vec<Vec<Replaced>>,
) -> Result<(), Memory>
    requires { All (IsFree (St.meaning store.now)) naming.now }
    ensures { OnOk result (map form_of forms.new.items
        ≡ map form_of forms.old.items
        ++ forms_meant naming.now (St.meaning store.now) (map equation pairs.now ∷ [])) }
{
    if let Some(form) = solved(alloc, store, naming, pairs)? {
        if let Some(made) = written(alloc, store, naming, form)? {
            forms.push(made)?;
        }
    }
    Ok(())
}

// The forms of lists of pairs.
fn forms_in<St: Store>(
    alloc: Global,
    store: &St,
    naming: &Naming,
    lists: &[TermPairs],
) -> Result<Vec<Vec<Replaced>>, Memory>
    requires { All (IsFree (St.meaning store.now)) naming.now }
    ensures { IfOk result (λ forms. map form_of forms.items
        ≡ forms_meant naming.now (St.meaning store.now) (map (map equation) lists.now)) }
{
    let mut forms = Vec::new(alloc);
    for pairs in lists {
        add_form(alloc, store, naming, pairs.items(), &mut forms)?;
    }
    Ok(forms)
}

/// The forms of a store's disequalities that may be written.
pub(crate) fn forms<St: Store>(
    alloc: Global,
    store: &St,
    naming: &Naming,
) -> Result<Vec<Vec<Replaced>>, Memory>
    requires { All (IsFree (St.meaning store.now)) naming.now }
    ensures { IfOk result (λ forms. map form_of forms.items
        ≡ forms_of naming.now (St.meaning store.now) (replacement_of (St.meaning store.now))
        (St.meaning store.now).prims) }
{
    let lists = store.differences(alloc)?;
    let forms = forms_in(alloc, store, naming, lists.items())?;
    Ok(forms)
}
