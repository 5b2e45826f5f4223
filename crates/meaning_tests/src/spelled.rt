//! Derivations and ground terms as words.

use ground_meaning::{Derivation, Step, Steps};
use kan_terms::{Ground, Grounds, Mark, Names};
use std::alloc::Global;
use std::test::Fail;

// The mark that a word is: a dot before the two parts of a pair, a dash for the empty list, one
// digit, or a symbol or string of the text.
fn mark_of(word: &str, names: &Names) -> Result<Mark, Fail> {
    if word == "." {
        Ok(Mark::Pair)
    } else if word == "-" {
        Ok(Mark::Nil)
    } else if word == "1" {
        Ok(Mark::Num(1))
    } else if word == "2" {
        Ok(Mark::Num(2))
    } else if word == "true" {
        Ok(Mark::Truth(true))
    } else if let Some(symbol) = names.find(word) {
        Ok(Mark::Sym(symbol))
    } else {
        Err(Fail::from("no symbol of the text"))
    }
}

/// The ground term that words spell, each pair before its parts.
pub(crate) fn ground(alloc: Global, words: &str, names: &Names) -> Result<Ground, Fail> {
    let mut marks = Vec::new(alloc);
    for word in words.split_whitespace() {
        marks.push(mark_of(word, names)?)?;
    }
    match Ground::of_marks(marks) {
        Ok(term) => Ok(term),
        Err(_) => Err(Fail::from("words that spell no term")),
    }
}

// The list of one ground term.
fn one(alloc: Global, term: Ground) -> Result<Grounds, Fail> {
    let mut terms = Grounds::new(alloc);
    match terms.push(term) {
        Ok(()) => Ok(terms),
        Err(_) => Err(Fail::from("no memory")),
    }
}

/// The list of the ground term that words spell.
pub(crate) fn values(alloc: Global, words: &str, names: &Names) -> Result<Grounds, Fail> {
    let term = ground(alloc, words, names)?;
    one(alloc, term)
}

// The ground terms that words spell, with a comma behind each.
fn chosen(alloc: Global, words: &str, names: &Names) -> Result<Grounds, Fail> {
    let mut terms = Grounds::new(alloc);
    for word in words.split(',') {
        let term = ground(alloc, word, names)?;
        if terms.push(term).is_err() {
            return Err(Fail::from("no memory"));
        }
    }
    Ok(terms)
}

// The step that a word names, or the choice of the terms that it spells.
fn step_of(alloc: Global, word: &str, names: &Names) -> Result<Step, Fail> {
    match word {
        "holds" => Ok(Step::Holds),
        "both" => Ok(Step::Both),
        "left" => Ok(Step::Left),
        "right" => Ok(Step::Right),
        "enter" => Ok(Step::Enter),
        "choose" => Ok(Step::Choose(Grounds::new(alloc))),
        terms => Ok(Step::Choose(chosen(alloc, terms, names)?)),
    }
}

/// The derivation that words spell, with a semicolon between two steps.
pub(crate) fn derivation(alloc: Global, words: &str, names: &Names) -> Result<Derivation, Fail> {
    let mut steps = Steps::new(alloc);
    for word in words.split(';') {
        let step = step_of(alloc, word, names)?;
        if steps.push(step).is_err() {
            return Err(Fail::from("no memory"));
        }
    }
    Ok(Derivation::new(steps))
}
