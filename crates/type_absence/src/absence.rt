//! Tags that stand nowhere in variables.

ghost use Rattle.std.specs.Prelude.{◌≡◌, ◌++◌, ℕ, [], false, eqb, IfOk, OnOk, option_map};
ghost use Rattle.std.specs.Prelude.{if◌then◌else◌, IsTrue};
ghost use Rattle.kan_terms.specs.Terms.{tree};
ghost use Rattle.type_absence.specs.Absent.{GivesTag, GivesTags};
ghost use Rattle.type_absence.specs.Meaning.{tags};
ghost use Rattle.type_absence.specs.Types.{made_if};
ghost use Rattle.type_absence.specs.Tags.{with_tags};
ghost use Rattle.type_absence.specs.Waiting.{names_one, put_on, Tagged};
ghost use Rattle.unify_core.specs.Cycles.{HasNoCycle};
ghost use Rattle.kan_terms.specs.Waiting.{waiting_trees, parts_of};
ghost use Rattle.unify_core.specs.Walking.{full, walk};

use crate::tags::{copied, lists, lists_all, put_all};
use kan_terms::{Bindings, Memory, Tags, Term, wait_for_parts};
use kan_tree::VarTree;
use std::alloc::Global;
use std::sync::Arc;
use unify_core::walk;

// Whether a term is one of the symbols.
fn is_one_of(symbols: &[u32], term: &Term) -> bool
    ensures { result ≡ names_one symbols.now (tree term.now) }
{
    match term {
        Term::Sym(name) => lists(symbols, *name),
        _ => false,
    }
}

/// Tags that stand nowhere in variables. A variable that was bound keeps those that it had, which
/// nobody asks for any more.
#[derive(Drop)]
pub struct Absences {
    stored: VarTree<Arc<Tags>>,
}

impl Absences {
    /// No variable has a tag. This takes no memory.
    pub fn empty(alloc: Global) -> Absences
        ensures { (v : ℕ) → tags result v ≡ [] }
    {
        Absences {
            stored: VarTree::empty(alloc),
        }
    }

    /// Whether no variable ever had a tag. It takes no memory.
    pub fn is_untouched(&self) -> bool
        ensures { IsTrue result → (v : ℕ) → tags self.now v ≡ [] }
    {
        self.stored.is_untouched()
    }

    /// The tags of a variable, in the order in which they came.
    pub fn of(&self, alloc: Global, var: u64) -> Result<Tags, Memory>
        ensures { IfOk result (λ made. made ≡ tags self.now var) }
    {
        match self.stored.get(var) {
            Some(listed) => copied(alloc, listed.items()),
            None => Ok(Tags::new(alloc)),
        }
    }

    /// The same absences once more.
    pub fn again(&self) -> Result<Absences, Memory>
        ensures { IfOk result (λ copy. (v : ℕ) → tags copy v ≡ tags self.now v) }
    {
        Ok(Absences {
            stored: self.stored.again()?,
        })
    }

    // Whether a variable has all of some tags.
    fn has_all(&self, more: &[u32], var: u64) -> bool
        ensures { IsTrue result → with_tags more.now (tags self.now var) ≡ tags self.now var }
    {
        match self.stored.get(var) {
            Some(listed) => lists_all(listed.items(), more),
            None => more.is_empty(),
        }
    }

    // Puts tags on a variable.
    fn put(&mut self, alloc: Global, more: &[u32], var: u64) -> Result<(), Memory>
        ensures { OnOk result ((v : ℕ) → tags self.new v ≡
            (if eqb v var then with_tags more.now (tags self.old v) else tags self.old v)) }
    {
        if self.has_all(more, var) {
            return Ok(());
        }
        let mut listed = self.of(alloc, var)?;
        put_all(more, &mut listed)?;
        self.stored.put(var, Arc::new(alloc, listed)?)
    }

    // Puts tags on what was walked to, if it is a variable.
    fn put_on(&mut self, alloc: Global, more: &[u32], reached: &Term) -> Result<(), Memory>
        ensures { OnOk result ((v : ℕ) → tags self.new v ≡
            put_on more.now (tree reached.now) (tags self.old) v) }
    {
        match reached {
            Term::Var(var) => self.put(alloc, more, *var),
            _ => Ok(()),
        }
    }

    // Whether what a term walks to is one of the tags. Where it isn't, a variable gets them, and
    // the parts of a pair wait.
    fn look_at<'a, B: Bindings>(
        &mut self,
        alloc: Global,
        more: &[u32],
        term: &'a Term,
        bindings: &'a B,
        waiting: &mut Vec<&'a Term>,
    ) -> Result<bool, Memory>
        requires { HasNoCycle (B.pairs bindings.now) }
        ensures found { IfOk result (λ found. found ≡
            names_one more.now (walk (B.pairs bindings.now) (tree term.now))) }
        ensures waits { IfOk result (λ found. found ≡ false →
            waiting_trees waiting.new.items ≡
            parts_of (walk (B.pairs bindings.now) (tree term.now)) ++
            waiting_trees waiting.old.items) }
        ensures tagged { IfOk result (λ found. found ≡ false → (v : ℕ) → tags self.new v ≡
            put_on more.now (walk (B.pairs bindings.now) (tree term.now)) (tags self.old) v) }
    {
        let reached = walk(term, bindings);
        if is_one_of(more, reached) {
            return Ok(true);
        }
        self.put_on(alloc, more, reached)?;
        wait_for_parts(reached, waiting)?;
        Ok(false)
    }

    // Puts tags on all variables of a term, or tells that one of the tags stands in it.
    fn put_inside<B: Bindings>(
        &mut self,
        alloc: Global,
        more: &[u32],
        term: &Term,
        bindings: &B,
    ) -> Result<bool, Memory>
        requires { HasNoCycle (B.pairs bindings.now) }
        ensures { IfOk result (λ found. Tagged (tags self.old) more.now
            (full (B.pairs bindings.now) (tree term.now)) found (tags self.new)) }
    {
        let mut waiting = Vec::new(alloc);
        if self.look_at(alloc, more, term, bindings, &mut waiting)? {
            return Ok(true);
        }
        while let Some(next) = waiting.pop() {
            if self.look_at(alloc, more, next, bindings, &mut waiting)? {
                return Ok(true);
            }
        }
        Ok(false)
    }

    /// Puts a tag on all variables of a term; false where the tag stands in it.
    pub fn put_on_all<B: Bindings>(
        &mut self,
        alloc: Global,
        tag: u32,
        term: &Term,
        bindings: &B,
    ) -> Result<bool, Memory>
        requires { HasNoCycle (B.pairs bindings.now) }
        ensures { IfOk result (λ fits. GivesTag (tags self.old) tag
            (full (B.pairs bindings.now) (tree term.now)) (made_if fits (tags self.new))) }
    {
        let found = self.put_inside(alloc, &[tag], term, bindings)?;
        Ok(!found)
    }

    /// The absences with a tag more for each variable of a term, and None exactly where the tag
    /// stands in the term under the bindings.
    pub fn add<B: Bindings>(
        &self,
        alloc: Global,
        tag: u32,
        term: &Term,
        bindings: &B,
    ) -> Result<Option<Absences>, Memory>
        requires { HasNoCycle (B.pairs bindings.now) }
        ensures { IfOk result (λ made. GivesTag (tags self.now) tag
            (full (B.pairs bindings.now) (tree term.now)) (option_map tags made)) }
    {
        let mut made = self.again()?;
        if made.put_inside(alloc, &[tag], term, bindings)? {
            return Ok(None);
        }
        Ok(Some(made))
    }

    /// Puts the tags of a variable, which was just bound, on its term; false where one of them
    /// stands in it.
    pub fn move_over<B: Bindings>(
        &mut self,
        alloc: Global,
        var: u64,
        term: &Term,
        bindings: &B,
    ) -> Result<bool, Memory>
        requires { HasNoCycle (B.pairs bindings.now) }
        ensures { IfOk result (λ fits. GivesTags (tags self.old) (tags self.old var)
            (full (B.pairs bindings.now) (tree term.now)) (made_if fits (tags self.new))) }
    {
        let more = self.of(alloc, var)?;
        if more.is_empty() {
            return Ok(true);
        }
        let found = self.put_inside(alloc, more.items(), term, bindings)?;
        Ok(!found)
    }

    /// The absences where the tags of a variable, which was just bound, go over to its term: `add`
    /// of each, one after the other.
    pub fn moved<B: Bindings>(
        &self,
        alloc: Global,
        var: u64,
        term: &Term,
        bindings: &B,
    ) -> Result<Option<Absences>, Memory>
        requires { HasNoCycle (B.pairs bindings.now) }
        ensures { IfOk result (λ made. GivesTags (tags self.now) (tags self.now var)
            (full (B.pairs bindings.now) (tree term.now)) (option_map tags made)) }
    {
        let mut made = self.again()?;
        if !made.move_over(alloc, var, term, bindings)? {
            return Ok(None);
        }
        Ok(Some(made))
    }
}
