//! Unification: the bindings under which two terms are the same.

ghost use Rattle.std.specs.Prelude.{◌≡◌, ◌↔◌, ◌++◌, [], ◌∷◌, ℕ, map, IfOk, IfSome, None, OnOk};
ghost use Rattle.std.specs.Option.{option_map};
ghost use Rattle.kan_model.specs.Stores.Prims.{equation as pair_equation};
ghost use Rattle.kan_model.specs.Stores.Solve as solver;
ghost use Rattle.kan_terms.specs.Terms.{sides, tree};
ghost use Rattle.kan_terms.specs.Tree.{Gd, fill};
ghost use Rattle.unify_core.specs.Cycles.{HasNoCycle};
ghost use Rattle.unify_core.specs.LentBindings.{Binds, MeetsTo, StepTo, equation_of};
ghost use Rattle.unify_core.specs.LentBindings.{equations_ahead, left_by, lent_sides};
ghost use Rattle.unify_core.specs.LentBindings.{waiting_equations, with_lent, with_next};
ghost use Rattle.unify_core.specs.Solutions.{AddedTo, IsSolution, bindings_solved, equation};
ghost use Rattle.unify_core.specs.Unifying.{Adds, AddsBinding, Unifying, meeting, asked_by};
ghost use Rattle.unify_core.specs.Unifying.{same_atoms, taken_apart};
ghost use Rattle.unify_core.specs.Walking as walking;
ghost use Rattle.unify_core.specs.Walking.{IsOtherEnd, Pairs};

use crate::occurring::{is_inside, is_variable};
use crate::walking::{LentBinding, walk, walk_on};
use kan_terms::{Bindings, Memory, Term, TermPair, TermPairs};
use std::alloc::Global;

/// What unification makes of bindings.
#[derive(Drop)]
pub struct Unified<B> {
    /// The bindings with those that were added.
    pub bindings: B,
    /// What was added, in that order: variables in `first`, their terms in `rest`.
    pub added: TermPairs,
}

// Two terms that are to be made the same.
#[derive(Clone, Copy)]
struct Sides<'a> {
    left: &'a Term,
    right: &'a Term,
}

// Whether two terms are the same, where the left one is no pair.
fn same_atom(left: &Term, right: &Term) -> bool
    ensures { result ≡ same_atoms (tree left.now) (tree right.now) }
{
    match left {
        Term::Var(var) => is_variable(right, *var),
        Term::Sym(name) => matches!(right, Term::Sym(other) if *name == *other),
        Term::Str(text) => matches!(right, Term::Str(other) if *text == *other),
        Term::Num(number) => right.is_number(i128::from(*number)),
        Term::Large(number) => right.is_number(**number),
        Term::Truth(truth) => matches!(right, Term::Truth(other) if *truth == *other),
        Term::Nil => matches!(right, Term::Nil),
        Term::Pair(_) => false,
    }
}

// What two terms that were met leave to be done.
enum Met<'a> {
    // Nothing: they are the same, or a binding was lent that makes them so.
    Same,
    // They are pairs, whose first parts and rests are to be made the same.
    Parts(Sides<'a>, Sides<'a>),
    // Nothing makes them the same.
    Clash,
}

// Two pairs are taken apart, and all else must be the same.
fn take_apart<'a>(left: &'a Term, right: &'a Term) -> Met<'a>
    ensures { left_by result ≡ taken_apart (tree left.now) (tree right.now) }
{
    let Term::Pair(left_parts) = left else {
        return if same_atom(left, right) {
            Met::Same
        } else {
            Met::Clash
        };
    };
    let Term::Pair(right_parts) = right else {
        return Met::Clash;
    };
    Met::Parts(
        Sides {
            left: &left_parts.first,
            right: &right_parts.first,
        },
        Sides {
            left: &left_parts.rest,
            right: &right_parts.rest,
        },
    )
}

// Binds a variable to a lent term, unless it stands in the term.
fn bind_unless_inside<'a, B: Bindings>(
    alloc: Global,
    var: u64,
    term: &'a Term,
    bindings: &'a B,
    lent: &mut Vec<LentBinding<'a>>,
) -> Result<Met<'a>, Memory>
    requires no_cycle { HasNoCycle (with_lent lent.old.items (B.pairs bindings.now)) }
    requires other { IsOtherEnd (with_lent lent.old.items (B.pairs bindings.now)) var
        (tree term.now) }
    ensures { IfOk result
        (λ left.
        Binds (B.pairs bindings.now) lent.old.items left lent.new.items var (tree term.now)) }
{
    if is_inside(alloc, var, term, bindings, lent)? {
        return Ok(Met::Clash);
    }
    lent.push(LentBinding { var, term })?;
    Ok(Met::Same)
}

// Two terms are met where they end: the left variable is bound, else the right one, else pairs are
// taken apart.
fn meet<'a, B: Bindings>(
    alloc: Global,
    next: Sides<'a>,
    bindings: &'a B,
    lent: &mut Vec<LentBinding<'a>>,
) -> Result<Met<'a>, Memory>
    requires { HasNoCycle (with_lent lent.old.items (B.pairs bindings.now)) }
    ensures { IfOk result
        (λ left. MeetsTo (B.pairs bindings.now) lent.old.items left lent.new.items
        (asked_by (with_lent lent.old.items (B.pairs bindings.now)) (equation_of next.entry))) }
{
    let left = walk_on(next.left, bindings, lent);
    let right = walk_on(next.right, bindings, lent);
    if let Term::Var(var) = left {
        if is_variable(right, *var) {
            return Ok(Met::Same);
        }
        return bind_unless_inside(alloc, *var, right, bindings, lent);
    }
    if let Term::Var(var) = right {
        return bind_unless_inside(alloc, *var, left, bindings, lent);
    }
    Ok(take_apart(left, right))
}

// A stack of what waits behind the next sides. Its top is held apart, so that a stack of one takes
// no memory.
#[derive(Drop)]
struct Ahead<'a> {
    top: Option<Sides<'a>>,
    below: Vec<Sides<'a>>,
}

// Puts sides on the stack.
fn put_ahead<'a>(ahead: &mut Ahead<'a>, sides: Sides<'a>) -> Result<(), Memory>
    ensures { OnOk result
        (equations_ahead ahead.new ≡ equation_of sides.entry ∷ equations_ahead ahead.old) }
{
    if let Some(covered) = ahead.top {
        ahead.below.push(covered)?;
    }
    ahead.top = Some(sides);
    Ok(())
}

// Takes the sides on top of the stack, unless it is empty.
fn take_ahead<'a>(ahead: &mut Ahead<'a>) -> Option<Sides<'a>>
    ensures { with_next result (equations_ahead ahead.new) ≡ equations_ahead ahead.old }
{
    match ahead.top {
        Some(sides) => {
            ahead.top = None;
            Some(sides)
        }
        None => ahead.below.pop(),
    }
}

// One step, and what is next after it; None where there is no unifier.
fn step<'a, B: Bindings>(
    alloc: Global,
    next: Sides<'a>,
    bindings: &'a B,
    lent: &mut Vec<LentBinding<'a>>,
    ahead: &mut Ahead<'a>,
) -> Result<Option<Option<Sides<'a>>>, Memory>
    requires { HasNoCycle (with_lent lent.old.items (B.pairs bindings.now)) }
    ensures { IfOk result
        (λ after.
        StepTo (B.pairs bindings.now) lent.old.items (equations_ahead ahead.old)
        (option_map (λ next. with_next next (equations_ahead ahead.new)) after) lent.new.items
        (asked_by (with_lent lent.old.items (B.pairs bindings.now)) (equation_of next.entry))) }
{
    match meet(alloc, next, bindings, lent)? {
        Met::Same => Ok(Some(take_ahead(ahead))),
        Met::Parts(first, rest) => {
            put_ahead(ahead, rest)?;
            Ok(Some(Some(first)))
        }
        Met::Clash => Ok(None),
    }
}

// The bindings that make the sides of all equations the same, the first one and then those that
// wait, in the order in which they are made.
fn lend_bindings<'a, B: Bindings>(
    alloc: Global,
    first: Option<Sides<'a>>,
    waiting: Vec<Sides<'a>>,
    bindings: &'a B,
) -> Result<Option<Vec<LentBinding<'a>>>, Memory>
    requires { HasNoCycle (B.pairs bindings.now) }
    ensures { IfOk result
        (λ found. Unifying (B.pairs bindings.now)
        (with_next first.entry (waiting_equations waiting.entry.items))
        (option_map (λ lent. lent_sides lent.items) found)) }
{
    let mut lent = Vec::new(alloc);
    let mut ahead = Ahead {
        top: None,
        below: waiting,
    };
    let mut next = first;
    while let Some(sides) = next {
        match step(alloc, sides, bindings, &mut lent, &mut ahead)? {
            None => return Ok(None),
            Some(after) => next = after,
        }
    }
    Ok(Some(lent))
}

// Lent bindings as pairs of terms.
fn owned<'a>(alloc: Global, lent: &[LentBinding<'a>]) -> Result<TermPairs, Memory>
    ensures { IfOk result (λ made. map sides made ≡ lent_sides lent.now) }
{
    let mut made = Vec::with_capacity(alloc, lent.len())?;
    for one in lent {
        made.push_reserved(TermPair {
            first: Term::Var(one.var),
            rest: one.term.again()?,
        });
    }
    Ok(TermPairs::of(made))
}

// Puts pairs on a stack of equations, the first one on top.
fn wait_for_pairs<'a>(alloc: Global, pairs: &'a [TermPair]) -> Result<Vec<Sides<'a>>, Memory>
    ensures { IfOk result
        (λ waiting. waiting_equations waiting.items ≡ map pair_equation pairs.now) }
{
    let mut waiting = Vec::with_capacity(alloc, pairs.len())?;
    let mut left = pairs.len();
    while left > 0 {
        left -= 1;
        let pair = &pairs[left];
        waiting.push(Sides {
            left: &pair.first,
            right: &pair.rest,
        })?;
    }
    Ok(waiting)
}

// What the equations add, the first one and then those that wait.
fn added_in_order<'a, B: Bindings>(
    alloc: Global,
    first: Option<Sides<'a>>,
    waiting: Vec<Sides<'a>>,
    bindings: &'a B,
) -> Result<Option<TermPairs>, Memory>
    requires { HasNoCycle (B.pairs bindings.now) }
    ensures { IfOk result
        (λ found. Unifying (B.pairs bindings.now)
        (with_next first.entry (waiting_equations waiting.entry.items))
        (option_map (λ made. map sides made) found)) }
{
    match lend_bindings(alloc, first, waiting, bindings)? {
        None => Ok(None),
        Some(lent) => Ok(Some(owned(alloc, &lent)?)),
    }
}

/// What unification of the sides of all pairs, the first pair first, would add to bindings; None
/// where there is no unifier. It makes no bindings.
pub fn would_add_all<B: Bindings>(
    alloc: Global,
    pairs: &[TermPair],
    bindings: &B,
) -> Result<Option<TermPairs>, Memory>
    requires { HasNoCycle (B.pairs bindings.now) }
    ensures { IfOk result
        (λ found. Unifying (B.pairs bindings.now) (map pair_equation pairs.now)
        (option_map (λ made. map sides made) found)) }
{
    let mut waiting = wait_for_pairs(alloc, pairs)?;
    let first = waiting.pop();
    added_in_order(alloc, first, waiting, bindings)
}

// What a binding adds, unless its variable stands in the term.
fn added_binding<B: Bindings>(
    alloc: Global,
    var: u64,
    term: &Term,
    bindings: &B,
) -> Result<Option<TermPairs>, Memory>
    requires no_cycle { HasNoCycle (B.pairs bindings.now) }
    requires other { IsOtherEnd (B.pairs bindings.now) var (tree term.now) }
    ensures { IfOk result
        (λ found. AddsBinding (B.pairs bindings.now) var (tree term.now)
        (option_map (λ made. map sides made) found)) }
{
    if is_inside(alloc, var, term, bindings, &[])? {
        return Ok(None);
    }
    let mut made = Vec::with_capacity(alloc, 1)?;
    made.push_reserved(TermPair {
        first: Term::Var(var),
        rest: term.again()?,
    });
    Ok(Some(TermPairs::of(made)))
}

// What two terms add that were walked to. A variable is bound with nothing lent.
fn added_by_ends<B: Bindings>(
    alloc: Global,
    left: &Term,
    right: &Term,
    bindings: &B,
) -> Result<Option<TermPairs>, Memory>
    requires no_cycle { HasNoCycle (B.pairs bindings.now) }
    requires left_walked { walking.walk (B.pairs bindings.now) (tree left.now) ≡ tree left.now }
    requires right_walked { walking.walk (B.pairs bindings.now) (tree right.now) ≡ tree right.now }
    ensures { IfOk result
        (λ found. Adds (B.pairs bindings.now) (meeting (tree left.now) (tree right.now))
        (option_map (λ made. map sides made) found)) }
{
    if let Term::Var(var) = left {
        if is_variable(right, *var) {
            return Ok(Some(TermPairs::new(alloc)));
        }
        return added_binding(alloc, *var, right, bindings);
    }
    if let Term::Var(var) = right {
        return added_binding(alloc, *var, left, bindings);
    }
    added_in_order(
        alloc,
        Some(Sides { left, right }),
        Vec::new(alloc),
        bindings,
    )
}

/// What unification of two terms would add to bindings; None where there is no unifier. It makes no
/// bindings.
pub fn would_add<B: Bindings>(
    alloc: Global,
    left: &Term,
    right: &Term,
    bindings: &B,
) -> Result<Option<TermPairs>, Memory>
    requires { HasNoCycle (B.pairs bindings.now) }
    ensures { IfOk result
        (λ found. Unifying (B.pairs bindings.now) (equation (tree left.now) (tree right.now) ∷ [])
        (option_map (λ made. map sides made) found)) }
{
    let left_end = walk(left, bindings);
    let right_end = walk(right, bindings);
    added_by_ends(alloc, left_end, right_end, bindings)
}

// Binds what unification added, one after the other.
fn bind_all<B: Bindings>(bindings: B, added: &[TermPair]) -> Result<B, Memory>
    requires { (new : Pairs) × AddedTo (B.pairs bindings) (map sides added.now) new }
    ensures { IfOk result
        (λ made. AddedTo (B.pairs bindings) (map sides added.now) (B.pairs made)) }
{
    let mut made = bindings;
    for pair in added {
        let Term::Var(var) = &pair.first else {
            unreachable!()
        };
        made = made.bind_owned(*var, &pair.rest)?;
    }
    Ok(made)
}

/// What `unify` gives, made of the bindings themselves: in place where nobody else holds them.
pub fn unify_owned<B: Bindings>(
    alloc: Global,
    left: &Term,
    right: &Term,
    bindings: B,
) -> Result<Option<Unified<B>>, Memory>
    requires { HasNoCycle (B.pairs bindings) }
    ensures added { IfOk result (λ found. IfSome found
        (λ made. AddedTo (B.pairs bindings) (map sides made.added) (B.pairs made.bindings))) }
    ensures no_cycle { IfOk result (λ found. IfSome found
        (λ made. HasNoCycle (B.pairs made.bindings))) }
    ensures solutions { IfOk result (λ found. IfSome found (λ made. (f : ℕ → Gd) →
        IsSolution f (B.pairs made.bindings) ↔
        (IsSolution f (B.pairs bindings) ×
        (fill f (tree left.now) ≡ fill f (tree right.now))))) }
    ensures in_order { IfOk result
        (λ found. Unifying (B.pairs bindings) (equation (tree left.now) (tree right.now) ∷ [])
        (option_map (λ made. map sides made.added) found)) }
    ensures none { IfOk result (λ found. (found ≡ None) ↔
        (solver.solve (bindings_solved (B.pairs bindings) ++
        equation (tree left.now) (tree right.now) ∷ []) ≡ None)) }
{
    match would_add(alloc, left, right, &bindings)? {
        None => Ok(None),
        Some(added) => {
            let bindings = bind_all(bindings, added.items())?;
            Ok(Some(Unified { bindings, added }))
        }
    }
}

/// Bindings under which two terms are the same, and which have exactly the solutions that this
/// takes; None where there are none.
pub fn unify<B: Bindings>(
    alloc: Global,
    left: &Term,
    right: &Term,
    bindings: &B,
) -> Result<Option<Unified<B>>, Memory>
    requires { HasNoCycle (B.pairs bindings.now) }
    ensures added { IfOk result (λ found. IfSome found
        (λ made. AddedTo (B.pairs bindings.now) (map sides made.added) (B.pairs made.bindings))) }
    ensures no_cycle { IfOk result (λ found. IfSome found
        (λ made. HasNoCycle (B.pairs made.bindings))) }
    ensures solutions { IfOk result (λ found. IfSome found (λ made. (f : ℕ → Gd) →
        IsSolution f (B.pairs made.bindings) ↔
        (IsSolution f (B.pairs bindings.now) ×
        (fill f (tree left.now) ≡ fill f (tree right.now))))) }
    ensures in_order { IfOk result
        (λ found. Unifying (B.pairs bindings.now) (equation (tree left.now) (tree right.now) ∷ [])
        (option_map (λ made. map sides made.added) found)) }
    ensures none { IfOk result (λ found. (found ≡ None) ↔
        (solver.solve (bindings_solved (B.pairs bindings.now) ++
        equation (tree left.now) (tree right.now) ∷ []) ≡ None)) }
{
    unify_owned(alloc, left, right, bindings.again()?)
}
