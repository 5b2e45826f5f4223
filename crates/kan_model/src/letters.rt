//! Terms as lists of letters, so that plain code works on lists and never recurses on a term's
//! depth.

ghost use Rattle.std.specs.Prelude.{◌≡◌, [], ◌∷◌, ◌++◌, IfOk, OnOk, IsSome, Some, option_map};
ghost use Rattle.std.specs.Prelude.{IsTrue, ◌↔◌};
ghost use Rattle.std.specs.List.{list_any};
ghost use Rattle.kan_terms.specs.Tree.{term_eq, occurs};
ghost use Rattle.kan_terms.specs.Terms.{tree};
ghost use Rattle.kan_model.specs.Terms.Letters.{spelling, letter_of, IsAtomOf};
ghost use Rattle.kan_model.specs.Terms.Letters.{join_two, stack_terms, put_letter, term_of};
ghost use Rattle.kan_model.specs.Terms.Letters.{is_letter_of, letter_eq};

use kan_terms::{Memory, Term, wait_for_parts};
use std::alloc::Global;

/// A letter of a term: its letters in preorder spell it.
#[derive(Clone, Copy, Debug, PartialEq, Eq)]
pub enum Letter {
    /// A pair, whose two parts follow.
    Pair,
    /// A variable.
    Var(u64),
    /// A symbol.
    Sym(u32),
    /// A string.
    Str(u32),
    /// A whole number.
    Num(i128),
    /// A truth value.
    Truth(bool),
    /// The empty list.
    Nil,
}

/// The first letter of a term.
pub fn first_letter(term: &Term) -> Letter
    ensures { result ≡ letter_of (tree term.now) }
{
    match term {
        Term::Var(var) => Letter::Var(*var),
        Term::Sym(name) => Letter::Sym(*name),
        Term::Str(text) => Letter::Str(*text),
        Term::Num(number) => Letter::Num(i128::from(*number)),
        Term::Large(number) => Letter::Num(**number),
        Term::Truth(truth) => Letter::Truth(*truth),
        Term::Nil => Letter::Nil,
        Term::Pair(_) => Letter::Pair,
    }
}

/// The letters of a term.
pub fn spell(alloc: Global, term: &Term) -> Result<Vec<Letter>, Memory>
    ensures { IfOk result (λ letters. letters.items ≡ spelling (tree term.now)) }
{
    let mut letters = Vec::new(alloc);
    let mut waiting = Vec::new(alloc);
    waiting.push(term)?;
    while let Some(next) = waiting.pop() {
        letters.push(first_letter(next))?;
        wait_for_parts(next, &mut waiting)?;
    }
    Ok(letters)
}

// The term of a letter that is none of a pair.
fn atom(alloc: Global, letter: Letter) -> Result<Option<Term>, Memory>
    ensures { IfOk result (λ made. IsAtomOf letter (option_map tree made)) }
{
    Ok(match letter {
        Letter::Pair => None,
        Letter::Var(var) => Some(Term::Var(var)),
        Letter::Sym(name) => Some(Term::Sym(name)),
        Letter::Str(text) => Some(Term::Str(text)),
        Letter::Num(number) => Some(Term::number(alloc, number)?),
        Letter::Truth(truth) => Some(Term::Truth(truth)),
        Letter::Nil => Some(Term::Nil),
    })
}

// Makes a pair of the two terms on top of the stack.
fn join_top(alloc: Global, stack: &mut Vec<Term>) -> Result<(), Memory>
    requires { IsSome (join_two (stack_terms stack.old.items)) }
    ensures { OnOk result (join_two (stack_terms stack.old.items)
        ≡ Some (stack_terms stack.new.items)) }
{
    let first = stack.pop().unwrap();
    let rest = stack.pop().unwrap();
    stack.push(Term::pair(alloc, first, rest)?)?;
    Ok(())
}

// Puts the term of a letter on the stack, where a pair takes the two on top.
fn put_on_stack(alloc: Global, letter: Letter, stack: &mut Vec<Term>) -> Result<(), Memory>
    requires { IsSome (put_letter letter (stack_terms stack.old.items)) }
    ensures { OnOk result (put_letter letter (stack_terms stack.old.items)
        ≡ Some (stack_terms stack.new.items)) }
{
    match atom(alloc, letter)? {
        None => join_top(alloc, stack),
        Some(term) => {
            stack.push(term)?;
            Ok(())
        }
    }
}

/// The term that letters spell.
pub fn build(alloc: Global, mut letters: Vec<Letter>) -> Result<Term, Memory>
    requires { IsSome (term_of letters.items) }
    ensures { IfOk result (λ made. term_of letters.items ≡ Some (tree made)) }
{
    let mut stack = Vec::new(alloc);
    while let Some(letter) = letters.pop() {
        put_on_stack(alloc, letter, &mut stack)?;
    }
    Ok(stack.pop().unwrap())
}

// Whether two letters are the same.
fn same_letter(left: Letter, right: Letter) -> bool
    ensures { result ≡ letter_eq left right }
{
    match left {
        Letter::Pair => matches!(right, Letter::Pair),
        Letter::Var(var) => is_variable(right, var),
        Letter::Sym(name) => matches!(right, Letter::Sym(other) if other == name),
        Letter::Str(text) => matches!(right, Letter::Str(other) if other == text),
        Letter::Num(number) => matches!(right, Letter::Num(other) if other == number),
        Letter::Truth(truth) => matches!(right, Letter::Truth(other) if other == truth),
        Letter::Nil => matches!(right, Letter::Nil),
    }
}

// Whether two lists of letters are the same.
fn same_letters(mut left: Vec<Letter>, mut right: Vec<Letter>) -> bool
    ensures { IsTrue result ↔ (left.items ≡ right.items) }
{
    while let Some(letter) = left.pop() {
        let Some(other) = right.pop() else {
            return false;
        };
        if !same_letter(letter, other) {
            return false;
        }
    }
    right.is_empty()
}

// Whether a letter is the variable.
fn is_variable(letter: Letter, var: u64) -> bool
    ensures { result ≡ is_letter_of var letter }
{
    match letter {
        Letter::Var(found) => var == found,
        _ => false,
    }
}

/// Whether two terms are the same.
pub fn same_terms(alloc: Global, left: &Term, right: &Term) -> Result<bool, Memory>
    ensures { IfOk result (λ same. same ≡ term_eq (tree left.now) (tree right.now)) }
{
    let left = spell(alloc, left)?;
    let right = spell(alloc, right)?;
    Ok(same_letters(left, right))
}

// Whether a variable is among letters.
fn has_variable(letters: &[Letter], var: u64) -> bool
    ensures { result ≡ list_any (is_letter_of var) letters.now }
{
    letters.iter().any(|letter| is_variable(*letter, var))
}

/// Whether a variable stands in a term.
pub fn occurs_in(alloc: Global, var: u64, term: &Term) -> Result<bool, Memory>
    ensures { IfOk result (λ found. found ≡ occurs var (tree term.now)) }
{
    let letters = spell(alloc, term)?;
    Ok(has_variable(&letters, var))
}
