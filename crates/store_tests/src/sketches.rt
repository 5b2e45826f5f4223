//! Small terms and primitives over four variables, written down in a few words.

ghost use Rattle.std.specs.Prelude.{◌≡◌, true, IfOk};
ghost use Rattle.kan_terms.specs.Terms.{tree};
ghost use Rattle.kan_model.specs.Stores.Prims.{prim as primitive};
ghost use Rattle.kan_model.specs.Programs.Scope.{all_below, sides_below};

use kan_model::Prim;
use kan_terms::{Memory, Term};
use std::alloc::Global;

/// A term without parts.
#[derive(Clone, Copy)]
pub(crate) enum Atom {
    /// The variable 0.
    X,
    /// The variable 1.
    Y,
    /// The variable 2.
    Z,
    /// The variable 3.
    W,
    /// A symbol.
    Sym(u32),
    /// A string.
    Str(u32),
    /// A number.
    Num(i64),
    /// The empty list.
    Nil,
}

/// A term that is at most one pair high.
#[derive(Clone, Copy)]
pub(crate) enum Sketch {
    /// A term without parts.
    Of(Atom),
    /// A pair.
    Pair(Atom, Atom),
}

/// A primitive over such terms.
#[derive(Clone, Copy)]
pub(crate) enum Step {
    /// The two terms are equal.
    Same(Sketch, Sketch),
    /// The two terms are different.
    Differ(Sketch, Sketch),
    /// The term is a symbol.
    Symbol(Sketch),
    /// The term is a number.
    Number(Sketch),
    /// The term is a string.
    Text(Sketch),
    /// The symbol stands nowhere in the term.
    Absent(u32, Sketch),
}

/// The term without parts.
pub(crate) fn atom_term(atom: Atom) -> Term
    ensures { all_below 4 (tree result) ≡ true }
{
    match atom {
        Atom::X => Term::Var(0),
        Atom::Y => Term::Var(1),
        Atom::Z => Term::Var(2),
        Atom::W => Term::Var(3),
        Atom::Sym(name) => Term::Sym(name),
        Atom::Str(text) => Term::Str(text),
        Atom::Num(number) => Term::Num(number),
        Atom::Nil => Term::Nil,
    }
}

/// The term.
pub(crate) fn sketched(alloc: Global, sketch: Sketch) -> Result<Term, Memory>
    ensures { IfOk result (λ made. all_below 4 (tree made) ≡ true) }
{
    match sketch {
        Sketch::Of(atom) => Ok(atom_term(atom)),
        Sketch::Pair(first, rest) => {
            let made = Term::pair(alloc, atom_term(first), atom_term(rest))?;
            Ok(made)
        }
    }
}

// Ten pairs, one in the rest of the other, with an atom at their end.
fn nested(alloc: Global, last: Atom) -> Result<Term, Memory>
    ensures { IfOk result (λ made. all_below 4 (tree made) ≡ true) }
{
    let mut term = atom_term(last);
    for _ in 0..10 {
        term = Term::pair(alloc, Term::Nil, term)?;
    }
    Ok(term)
}

/// The equation of the first variable and ten pairs with an atom at their end.
pub(crate) fn nested_prim(alloc: Global, last: Atom) -> Result<Prim, Memory>
    ensures { IfOk result (λ made. sides_below 4 (primitive made) ≡ true) }
{
    let term = nested(alloc, last)?;
    Ok(Prim::Same(Term::Var(0), term))
}

// The equation of two terms.
fn same_prim(alloc: Global, left: Sketch, right: Sketch) -> Result<Prim, Memory>
    ensures { IfOk result (λ made. sides_below 4 (primitive made) ≡ true) }
{
    let left = sketched(alloc, left)?;
    let right = sketched(alloc, right)?;
    Ok(Prim::Same(left, right))
}

// The disequality of two terms.
fn differ_prim(alloc: Global, left: Sketch, right: Sketch) -> Result<Prim, Memory>
    ensures { IfOk result (λ made. sides_below 4 (primitive made) ≡ true) }
{
    let left = sketched(alloc, left)?;
    let right = sketched(alloc, right)?;
    Ok(Prim::Differ(left, right))
}

/// The primitive.
pub(crate) fn step_prim(alloc: Global, step: Step) -> Result<Prim, Memory>
    ensures { IfOk result (λ made. sides_below 4 (primitive made) ≡ true) }
{
    match step {
        Step::Same(left, right) => same_prim(alloc, left, right),
        Step::Differ(left, right) => differ_prim(alloc, left, right),
        Step::Symbol(term) => Ok(Prim::Symbol(sketched(alloc, term)?)),
        Step::Number(term) => Ok(Prim::Number(sketched(alloc, term)?)),
        Step::Text(term) => Ok(Prim::Text(sketched(alloc, term)?)),
        Step::Absent(tag, term) => Ok(Prim::Absent(tag, sketched(alloc, term)?)),
    }
}
