//! Terms, whose pairs are shared behind `Arc`.

ghost use Rattle.std.specs.Prelude.{◌≡◌, ⊤, IfOk};
ghost use Rattle.kan_terms.specs.Greatest.{greater, greatest_in};
ghost use Rattle.kan_terms.specs.Memory.{memory};
ghost use Rattle.kan_terms.specs.Terms.{tree};
ghost use Rattle.kan_terms.specs.Tree.{Tree, noted_size, term_eq};

use std::alloc::{AllocError, AllocFailed, Global};
use std::marker::Model;
use std::sync::Arc;

/// Want of memory: a call could not get the memory that its answer takes.
#[derive(Clone, Copy, Debug, PartialEq, Eq)]
pub struct Memory;

impl From<AllocError> for Memory {
    ghost from_gives = { λ _ e. e ≡ memory };

    fn from(_refused: AllocError) -> Memory {
        Memory
    }
}

impl<T: Drop> From<AllocFailed<T>> for Memory {
    ghost from_gives = { λ _ e. e ≡ memory };

    fn from(_refused: AllocFailed<T>) -> Memory {
        Memory
    }
}

/// A term of the engine.
#[cycle(term)]
pub enum Term {
    /// A logic variable, by its number.
    Var(u64),
    /// A symbol, by its number in the table of names.
    Sym(u32),
    /// A string, by its number in the table of strings.
    Str(u32),
    /// A whole number that fits in 64 bits, as most do.
    Num(i64),
    /// A whole number, behind a pointer, so that no term takes more than 16 bytes.
    Large(Arc<i128>),
    /// A truth value.
    Truth(bool),
    /// The empty list.
    Nil,
    /// A pair, which may be shared with other terms.
    Pair(Arc<PairParts>),
}

// A loop down the heavier parts, so that a term however high is dropped in little stack: a
// recursion is into a part of at most half the nodes.
impl Drop for Term {
    fn drop(mut self) {
        loop {
            match self {
                Term::Pair(parts) => match Arc::into_inner(parts) {
                    Some(
                        PairParts {
                            first,
                            rest,
                            greatest: _,
                            weight: _,
                        },
                    ) => {
                        if first.weight() > rest.weight() {
                            self = first;
                        } else {
                            self = rest;
                        }
                    }
                    None => return,
                },
                Term::Var(_) => return,
                Term::Sym(_) => return,
                Term::Str(_) => return,
                Term::Num(_) => return,
                Term::Large(_) => return,
                Term::Truth(_) => return,
                Term::Nil => return,
            }
        }
    }
}

/// The two parts of a pair.
#[cycle(term)]
#[derive(Drop)]
pub struct PairParts {
    /// The first part.
    pub first: Term,
    /// The rest.
    pub rest: Term,
    greatest: Option<u64>,
    // How many nodes the pair has, as far as the greatest number.
    weight: u64,
}

impl Model for PairParts {
    ghost use Rattle.std.specs.Prelude.{◌+◌, ◌≡◌};
    ghost use Rattle.kan_terms.specs.Greatest.{greater, greatest_in};
    ghost use Rattle.kan_terms.specs.Tree.{Tree, Tm, noted_size};
    ghost use Rattle.kan_terms.specs.Tree as trees;
    ghost use Rattle.kan_terms.specs.TermCode.{sides_code};

    ghost Value = { Tm × Tm };

    ghost coded = { sides_code };

    ghost use Rattle.kan_terms.specs.Terms.{tree};

    ghost view = { λ parts. (tree parts.first, tree parts.rest) };

    ghost invariant = { λ parts.
        (parts.greatest ≡ greater (greatest_in (tree parts.first)) (greatest_in (tree parts.rest)))
        × (parts.weight ≡ noted_size (Tree.pair (tree parts.first) (tree parts.rest))) };

    ghost size = { λ sides. trees.size sides.0 + trees.size sides.1 };

    ghost use Rattle.kan_terms.specs.PartsFall.{depth_le-size};

    ghost size_decreases = { λ parts h. depth_le-size parts.first parts.rest };
}

impl PairParts {
    /// The greatest variable that stands in the parts. It looks at neither.
    pub fn greatest_variable(&self) -> Option<u64>
        ensures { result ≡ greater (greatest_in self.now.0) (greatest_in self.now.1) }
    {
        self.greatest
    }

    // How many nodes the pair has, as far as the greatest number.
    fn weight(&self) -> u64
        ensures { result ≡ noted_size (Tree.pair self.now.0 self.now.1) }
    {
        self.weight
    }
}

/// Two terms.
#[derive(Drop)]
pub struct TermPair {
    /// The first part.
    pub first: Term,
    /// The rest.
    pub rest: Term,
}

/// The greater of two variables, where there are any.
pub fn greater_of(one: Option<u64>, other: Option<u64>) -> Option<u64>
    ensures { result ≡ greater one other }
{
    match (one, other) {
        (None, _) => other,
        (Some(_), None) => one,
        (Some(first), Some(second)) => Some(first.max(second)),
    }
}

impl Term {
    /// The greatest variable that stands in the term. It looks into no pair.
    pub fn greatest_variable(&self) -> Option<u64>
        ensures { result ≡ greatest_in (tree self.now) }
    {
        match self {
            Term::Var(var) => Some(*var),
            Term::Sym(_) | Term::Str(_) | Term::Truth(_) | Term::Nil => None,
            Term::Num(_) | Term::Large(_) => None,
            Term::Pair(parts) => parts.greatest_variable(),
        }
    }

    // How many nodes the term has, as far as the greatest number. It looks into no pair.
    fn weight(&self) -> u64
        ensures { result ≡ noted_size (tree self.now) }
    {
        match self {
            Term::Var(_) => 1,
            Term::Sym(_) | Term::Str(_) | Term::Truth(_) | Term::Nil => 1,
            Term::Num(_) | Term::Large(_) => 1,
            Term::Pair(parts) => parts.weight(),
        }
    }

    /// The term of a whole number. Only one that doesn't fit in 64 bits takes memory.
    pub fn number(alloc: Global, number: i128) -> Result<Term, Memory>
        ensures { IfOk result (λ made. tree made ≡ Tree.num number) }
    {
        match i64::try_from(number) {
            Ok(small) => Ok(Term::Num(small)),
            Err(_) => Ok(Term::Large(Arc::new(alloc, number)?)),
        }
    }

    /// Whether the term is this whole number.
    pub fn is_number(&self, number: i128) -> bool
        ensures { result ≡ term_eq (Tree.num number) (tree self.now) }
    {
        match self {
            Term::Num(found) => number == i128::from(*found),
            Term::Large(found) => number == **found,
            _ => false,
        }
    }

    /// The pair of two terms.
    pub fn pair(alloc: Global, first: Term, rest: Term) -> Result<Term, Memory>
        ensures { IfOk result (λ made. tree made ≡ Tree.pair (tree first) (tree rest)) }
    {
        let greatest = greater_of(first.greatest_variable(), rest.greatest_variable());
        let weight = first
            .weight()
            .saturating_add(rest.weight())
            .saturating_add(1);
        let parts = PairParts {
            first,
            rest,
            greatest,
            weight,
        };
        let parts = Arc::new(alloc, parts)?;
        Ok(Term::Pair(parts))
    }

    /// The term once more. A pair is shared and not copied, so this takes the same time for every
    /// term.
    pub fn again(&self) -> Result<Term, Memory>
        ensures { IfOk result (λ copy. tree copy ≡ tree self.now) }
    {
        Ok(match self {
            Term::Var(var) => Term::Var(*var),
            Term::Sym(name) => Term::Sym(*name),
            Term::Str(text) => Term::Str(*text),
            Term::Num(number) => Term::Num(*number),
            Term::Large(number) => Term::Large(Arc::try_clone(number)?),
            Term::Truth(truth) => Term::Truth(*truth),
            Term::Nil => Term::Nil,
            Term::Pair(parts) => Term::Pair(Arc::try_clone(parts)?),
        })
    }
}
