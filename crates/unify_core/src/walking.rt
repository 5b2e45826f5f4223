//! Following bound variables.

ghost use Rattle.std.specs.Prelude.{◌≡◌, []};
ghost use Rattle.std.specs.Option.{option_map};
ghost use Rattle.kan_terms.specs.Bound.{bound_to};
ghost use Rattle.kan_terms.specs.Terms.{tree};
ghost use Rattle.unify_core.specs.Cycles.{HasNoCycle};
ghost use Rattle.unify_core.specs.LentBindings.{with_lent};
ghost use Rattle.unify_core.specs.Walking.{walk};

use kan_terms::{Bindings, Term};

/// A variable that a unification has bound, with its term, which is lent by the sides or by the
/// bindings.
#[derive(Clone, Copy)]
pub struct LentBinding<'a> {
    /// The variable.
    pub var: u64,
    /// What it is bound to.
    pub term: &'a Term,
}

// The term that a variable is bound to, looked for in the lent bindings first, the last one first.
fn find<'a, B: Bindings>(var: u64, bindings: &'a B, lent: &[LentBinding<'a>]) -> Option<&'a Term>
    ensures { option_map (λ term. tree term.now) result ≡
        bound_to var (with_lent lent.now (B.pairs bindings.now)) }
{
    let mut left = lent.len();
    while left > 0 {
        left -= 1;
        let last = &lent[left];
        if last.var == var {
            return Some(last.term);
        }
    }
    bindings.get(var)
}

/// What a term walks to under bindings with lent ones in front of them.
pub fn walk_on<'a, B: Bindings>(
    term: &'a Term,
    bindings: &'a B,
    lent: &[LentBinding<'a>],
) -> &'a Term
    requires { HasNoCycle (with_lent lent.now (B.pairs bindings.now)) }
    ensures { tree result.now ≡ walk (with_lent lent.now (B.pairs bindings.now)) (tree term.now) }
{
    let mut reached = term;
    while let Term::Var(var) = reached {
        match find(*var, bindings, lent) {
            Some(next) => reached = next,
            None => return reached,
        }
    }
    reached
}

/// What a term walks to: a bound variable goes on with its term, until there is no bound variable.
/// It takes no memory.
pub fn walk<'a, B: Bindings>(term: &'a Term, bindings: &'a B) -> &'a Term
    requires { HasNoCycle (B.pairs bindings.now) }
    ensures { tree result.now ≡ walk (B.pairs bindings.now) (tree term.now) }
{
    walk_on(term, bindings, &[])
}
