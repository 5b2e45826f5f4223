//! Types of variables.

ghost use Rattle.std.specs.Prelude.{◌≡◌, ℕ, Some, None, IfOk, IsTrue, OnOk, option_map};
ghost use Rattle.kan_model.specs.declared.prims.Kind.{Kind};
ghost use Rattle.kan_model.specs.Stores.Kept.{may_be};
ghost use Rattle.kan_terms.specs.Terms.{tree};
ghost use Rattle.type_absence.specs.Meaning.{types};
ghost use Rattle.type_absence.specs.Types.{GivesTypes, MovesTypes, made_if, may_have};
ghost use Rattle.type_absence.specs.Types.{same_kind, with_type};
ghost use Rattle.unify_core.specs.Cycles.{HasNoCycle};
ghost use Rattle.unify_core.specs.Walking.{walk};

use kan_model::Kind;
use kan_terms::{Bindings, Memory, Term};
use kan_tree::{Again, VarTree};
use std::alloc::Global;
use unify_core::walk;

/// A type, as the tree stores it.
#[derive(Clone, Copy)]
pub(crate) struct Stored {
    kind: Kind,
}

impl Again for Stored {
    ghost Meaning = { Kind };

    ghost meaning = { λ entry. entry.kind };

    fn again(&self) -> Result<Stored, Memory> {
        Ok(*self)
    }
}

// Whether two types are the same.
fn same(one: Kind, other: Kind) -> bool
    ensures { result ≡ same_kind one other }
{
    match one {
        Kind::Symbol => matches!(other, Kind::Symbol),
        Kind::Number => matches!(other, Kind::Number),
        Kind::Text => matches!(other, Kind::Text),
    }
}

// Whether a term is a variable, or an atom of a type.
fn may_stand_for(kind: Kind, term: &Term) -> bool
    ensures { result ≡ may_be kind (tree term.now) }
{
    match term {
        Term::Var(_) => true,
        Term::Sym(_) => matches!(kind, Kind::Symbol),
        Term::Num(_) | Term::Large(_) => matches!(kind, Kind::Number),
        Term::Str(_) => matches!(kind, Kind::Text),
        Term::Truth(_) | Term::Nil | Term::Pair(_) => false,
    }
}

/// Types of variables. A variable that was bound keeps the type that it had, which nobody asks for
/// any more.
#[derive(Drop)]
pub struct Kinds {
    stored: VarTree<Stored>,
}

impl Kinds {
    /// No variable has a type. This takes no memory.
    pub fn empty(alloc: Global) -> Kinds
        ensures { (v : ℕ) → types result v ≡ None }
    {
        Kinds {
            stored: VarTree::empty(alloc),
        }
    }

    /// Whether no variable ever had a type. It takes no memory.
    pub fn is_untouched(&self) -> bool
        ensures { IsTrue result → (v : ℕ) → types self.now v ≡ None }
    {
        self.stored.is_untouched()
    }

    /// The type of a variable. It takes no memory.
    pub fn of(&self, var: u64) -> Option<Kind>
        ensures { result ≡ types self.now var }
    {
        match self.stored.get(var) {
            Some(entry) => Some(entry.kind),
            None => None,
        }
    }

    /// The same types once more.
    pub fn again(&self) -> Result<Kinds, Memory>
        ensures { IfOk result (λ copy. (v : ℕ) → types copy v ≡ types self.now v) }
    {
        Ok(Kinds {
            stored: self.stored.again()?,
        })
    }

    // Whether a term that was walked to may have a type.
    fn allow(&self, kind: Kind, reached: &Term) -> bool
        ensures { result ≡ may_have (types self.now) kind (tree reached.now) }
    {
        match reached {
            Term::Var(var) => match self.of(*var) {
                Some(known) => same(kind, known),
                None => true,
            },
            _ => may_stand_for(kind, reached),
        }
    }

    // Puts a type on a term that was walked to, if it is a variable.
    fn put(&mut self, kind: Kind, reached: &Term) -> Result<(), Memory>
        ensures { OnOk result ((v : ℕ) → types self.new v ≡
            with_type (types self.old) kind (tree reached.now) v) }
    {
        match reached {
            Term::Var(var) => self.stored.put(*var, Stored { kind }),
            _ => Ok(()),
        }
    }

    /// Puts a type on what a term walks to; false where that can't have it.
    pub fn put_on<B: Bindings>(
        &mut self,
        kind: Kind,
        term: &Term,
        bindings: &B,
    ) -> Result<bool, Memory>
        requires { HasNoCycle (B.pairs bindings.now) }
        ensures { IfOk result (λ fits. GivesTypes (types self.old) kind
            (walk (B.pairs bindings.now) (tree term.now)) (made_if fits (types self.new))) }
    {
        let reached = walk(term, bindings);
        if !self.allow(kind, reached) {
            return Ok(false);
        }
        self.put(kind, reached)?;
        Ok(true)
    }

    /// The types with that of a term, and None exactly where what the term walks to can't have it.
    pub fn add<B: Bindings>(
        &self,
        kind: Kind,
        term: &Term,
        bindings: &B,
    ) -> Result<Option<Kinds>, Memory>
        requires { HasNoCycle (B.pairs bindings.now) }
        ensures { IfOk result (λ made. GivesTypes (types self.now) kind
            (walk (B.pairs bindings.now) (tree term.now)) (option_map types made)) }
    {
        let mut made = self.again()?;
        if !made.put_on(kind, term, bindings)? {
            return Ok(None);
        }
        Ok(Some(made))
    }

    /// Puts the type of a variable, which was just bound, on its term; false where that can't have
    /// it.
    pub fn move_over<B: Bindings>(
        &mut self,
        var: u64,
        term: &Term,
        bindings: &B,
    ) -> Result<bool, Memory>
        requires { HasNoCycle (B.pairs bindings.now) }
        ensures { IfOk result (λ fits. MovesTypes (types self.old) (types self.old var)
            (walk (B.pairs bindings.now) (tree term.now)) (made_if fits (types self.new))) }
    {
        match self.of(var) {
            Some(kind) => self.put_on(kind, term, bindings),
            None => Ok(true),
        }
    }

    /// The types where that of a variable, which was just bound, goes over to its term.
    pub fn moved<B: Bindings>(
        &self,
        var: u64,
        term: &Term,
        bindings: &B,
    ) -> Result<Option<Kinds>, Memory>
        requires { HasNoCycle (B.pairs bindings.now) }
        ensures { IfOk result (λ made. MovesTypes (types self.now) (types self.now var)
            (walk (B.pairs bindings.now) (tree term.now)) (option_map types made)) }
    {
        let mut made = self.again()?;
        if !made.move_over(var, term, bindings)? {
            return Ok(None);
        }
        Ok(Some(made))
    }
}
