//! Whether terms are the same.

ghost use Rattle.std.specs.Prelude.{◌≡◌, IfOk, IfSome};
ghost use Rattle.kan_terms.specs.Terms.{tree};
ghost use Rattle.kan_terms.specs.Tree.{term_eq};

use kan_model::same_terms;
use kan_terms::{Memory, Term};
use std::alloc::Global;

// Whether two terms are the same, where one of them is no pair.
fn are_same_atoms(left: &Term, right: &Term) -> Option<bool>
    ensures { IfSome result (λ same. same ≡ term_eq (tree left.now) (tree right.now)) }
{
    match left {
        Term::Var(var) => Some(matches!(right, Term::Var(other) if *var == *other)),
        Term::Sym(name) => Some(matches!(right, Term::Sym(other) if *name == *other)),
        Term::Str(text) => Some(matches!(right, Term::Str(other) if *text == *other)),
        Term::Num(number) => Some(right.is_number(i128::from(*number))),
        Term::Large(number) => Some(right.is_number(**number)),
        Term::Truth(truth) => Some(matches!(right, Term::Truth(other) if *truth == *other)),
        Term::Nil => Some(matches!(right, Term::Nil)),
        Term::Pair(_) => match right {
            Term::Pair(_) => None,
            _ => Some(false),
        },
    }
}

/// Whether two terms are the same. Only two pairs are compared by their letters.
pub(crate) fn are_same(alloc: Global, left: &Term, right: &Term) -> Result<bool, Memory>
    ensures { IfOk result (λ same. same ≡ term_eq (tree left.now) (tree right.now)) }
{
    match are_same_atoms(left, right) {
        Some(same) => Ok(same),
        None => same_terms(alloc, left, right),
    }
}
