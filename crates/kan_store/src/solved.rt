//! The parts of a solved store, and what each kind of primitive makes of them.

ghost use Rattle.std.specs.Prelude.{◌≡◌, ℕ, [], None, true, map, IfOk};
ghost use Rattle.kan_terms.specs.Terms.{tree};
ghost use Rattle.kan_model.specs.Stores.Prims.{prim as primitive};
ghost use Rattle.unify_core.specs.Cycles.{HasNoCycle};
ghost use Rattle.diseq.specs.Kept.{AreWatched};
ghost use Rattle.diseq.specs.Meaning.{asserted_in, disequalities_in, watching_in};
ghost use Rattle.kan_terms.specs.Terms.{sides};
ghost use Rattle.unify_core.specs.Solutions.{AddedTo};
ghost use Rattle.unify_core.specs.Walking.{Pairs};
ghost use Rattle.type_absence.specs.Types.{made_if};
ghost use Rattle.kan_store.specs.Parts.{Adding, Differing, Equated, Keeping, SameParts, Typing};
ghost use Rattle.kan_store.specs.Parts.{BroughtUp, Carried};
ghost use Rattle.kan_store.specs.Meaning.{parts_of};

use crate::moving::{move_tags, move_types};
use diseq::Diseqs;
use kan_model::{Kind, Prim as Asserted};
use kan_terms::{Bindings, Memory, Term, TermPairs};
use std::alloc::Global;
use std::mem;
use type_absence::{Absences, Kinds};
use unify_core::{Unified, unify_owned};

/// Bindings, with the types, absences and disequalities of the variables that they leave unbound.
#[derive(Drop)]
pub struct Solved<B> {
    /// The bindings.
    pub bindings: B,
    /// The types of variables.
    pub kinds: Kinds,
    /// The absences of variables.
    pub absences: Absences,
    /// The disequalities that didn't hold when they were asserted.
    pub diseqs: Diseqs,
}

/// Nothing was asserted.
pub fn unsolved<B: Bindings>(alloc: Global) -> Result<Solved<B>, Memory>
    ensures bindings { IfOk result (λ made. (parts_of B.pairs made).bound ≡ []) }
    ensures types { IfOk result (λ made. (v : ℕ) → (parts_of B.pairs made).types v ≡ None) }
    ensures tags { IfOk result (λ made. (v : ℕ) → (parts_of B.pairs made).tags v ≡ []) }
    ensures lists { IfOk result (λ made. (parts_of B.pairs made).lists.asserted ≡ []) }
    ensures watching { IfOk result
        (λ made. (v : ℕ) → (parts_of B.pairs made).lists.watching v ≡ []) }
{
    Ok(Solved {
        bindings: B::empty(alloc)?,
        kinds: Kinds::empty(alloc),
        absences: Absences::empty(alloc),
        diseqs: Diseqs::empty(alloc),
    })
}

/// The parts once more. No tree is copied.
pub fn copied<B: Bindings>(solved: &Solved<B>) -> Result<Solved<B>, Memory>
    ensures { IfOk result (λ copy. SameParts (parts_of B.pairs solved.now)
        (parts_of B.pairs copy)) }
{
    Ok(Solved {
        bindings: solved.bindings.again()?,
        kinds: solved.kinds.again()?,
        absences: solved.absences.again()?,
        diseqs: solved.diseqs.again()?,
    })
}

// Looks at disequalities under bindings that were made; false where one of them is false by now.
fn recheck<B: Bindings>(
    alloc: Global,
    diseqs: &mut Diseqs,
    added: &TermPairs,
    bindings: &B,
) -> Result<bool, Memory>
    requires no_cycle { HasNoCycle (B.pairs bindings.now) }
    requires older { (older : Pairs) ×
        AddedTo older (map sides added.now) (B.pairs bindings.now) ×
        AreWatched older (asserted_in diseqs.old) (watching_in diseqs.old) }
    ensures { IfOk result (λ differ. BroughtUp (B.pairs bindings.now) (disequalities_in diseqs.old)
        (made_if differ (disequalities_in diseqs.new))) }
{
    if diseqs.is_untouched() {
        return Ok(true);
    }
    let older = mem::replace(diseqs, Diseqs::empty(alloc));
    match older.recheck(alloc, added, bindings)? {
        None => Ok(false),
        Some(brought) => {
            *diseqs = brought;
            Ok(true)
        }
    }
}

// What stands on variables that were bound goes over to their terms, and disequalities are looked
// at under the bindings.
fn carry<B: Bindings>(
    alloc: Global,
    solved: &mut Solved<B>,
    added: &TermPairs,
) -> Result<bool, Memory>
    requires no_cycle { HasNoCycle (parts_of B.pairs solved.old).bound }
    requires older { (older : Pairs) ×
        AddedTo older (map sides added.now) (parts_of B.pairs solved.old).bound ×
        AreWatched older (parts_of B.pairs solved.old).lists.asserted
        (parts_of B.pairs solved.old).lists.watching }
    ensures { IfOk result (λ fits. Carried (parts_of B.pairs solved.old) (map sides added.now)
        (made_if fits (parts_of B.pairs solved.new))) }
{
    if !move_types(&mut solved.kinds, added, &solved.bindings)? {
        return Ok(false);
    }
    if !move_tags(alloc, &mut solved.absences, added, &solved.bindings)? {
        return Ok(false);
    }
    recheck(alloc, &mut solved.diseqs, added, &solved.bindings)
}

// Two terms are equal: what stands on the variables that this binds goes over to their terms.
fn equate<B: Bindings>(
    alloc: Global,
    solved: &mut Solved<B>,
    left: &Term,
    right: &Term,
) -> Result<bool, Memory>
    requires no_cycle { HasNoCycle (parts_of B.pairs solved.old).bound }
    requires watched { AreWatched (parts_of B.pairs solved.old).bound
        (parts_of B.pairs solved.old).lists.asserted
        (parts_of B.pairs solved.old).lists.watching }
    ensures { IfOk result (λ fits. Equated (parts_of B.pairs solved.old) (tree left.now)
        (tree right.now) (made_if fits (parts_of B.pairs solved.new))) }
{
    let bindings = mem::replace(&mut solved.bindings, B::empty(alloc)?);
    match unify_owned(alloc, left, right, bindings)? {
        None => Ok(false),
        Some(unified) => {
            let Unified { bindings, added } = unified;
            solved.bindings = bindings;
            carry(alloc, solved, &added)
        }
    }
}

// A term is of a type.
fn add_type<B: Bindings>(solved: &mut Solved<B>, kind: Kind, term: &Term) -> Result<bool, Memory>
    requires { HasNoCycle (parts_of B.pairs solved.old).bound }
    ensures { IfOk result (λ fits. Typing (parts_of B.pairs solved.old) kind (tree term.now)
        (made_if fits (parts_of B.pairs solved.new))) }
{
    solved.kinds.put_on(kind, term, &solved.bindings)
}

// A tag stands nowhere in a term.
fn add_absence<B: Bindings>(
    alloc: Global,
    solved: &mut Solved<B>,
    tag: u32,
    term: &Term,
) -> Result<bool, Memory>
    requires { HasNoCycle (parts_of B.pairs solved.old).bound }
    ensures { IfOk result (λ fits. Keeping (parts_of B.pairs solved.old) tag (tree term.now)
        (made_if fits (parts_of B.pairs solved.new))) }
{
    solved
        .absences
        .put_on_all(alloc, tag, term, &solved.bindings)
}

// Two terms differ.
fn add_difference<B: Bindings>(
    alloc: Global,
    solved: &mut Solved<B>,
    left: &Term,
    right: &Term,
) -> Result<bool, Memory>
    requires no_cycle { HasNoCycle (parts_of B.pairs solved.old).bound }
    requires watched { AreWatched (parts_of B.pairs solved.old).bound
        (parts_of B.pairs solved.old).lists.asserted
        (parts_of B.pairs solved.old).lists.watching }
    ensures { IfOk result (λ fits. Differing (parts_of B.pairs solved.old) (tree left.now)
        (tree right.now) (made_if fits (parts_of B.pairs solved.new))) }
{
    let older = mem::replace(&mut solved.diseqs, Diseqs::empty(alloc));
    match older.add(alloc, left, right, &solved.bindings)? {
        None => Ok(false),
        Some(made) => {
            solved.diseqs = made;
            Ok(true)
        }
    }
}

/// Makes of the parts those with one more primitive; false where it can't be kept with those
/// before. Then, and after want of memory, the parts are of no more use.
pub fn add<B: Bindings>(
    alloc: Global,
    solved: &mut Solved<B>,
    prim: &Asserted,
) -> Result<bool, Memory>
    requires no_cycle { HasNoCycle (parts_of B.pairs solved.old).bound }
    requires watched { AreWatched (parts_of B.pairs solved.old).bound
        (parts_of B.pairs solved.old).lists.asserted
        (parts_of B.pairs solved.old).lists.watching }
    ensures { IfOk result (λ fits. Adding (parts_of B.pairs solved.old) (primitive prim.now)
        (made_if fits (parts_of B.pairs solved.new))) }
{
    match prim {
        Asserted::Same(left, right) => equate(alloc, solved, left, right),
        Asserted::Differ(left, right) => add_difference(alloc, solved, left, right),
        Asserted::Symbol(term) => add_type(solved, Kind::Symbol, term),
        Asserted::Number(term) => add_type(solved, Kind::Number, term),
        Asserted::Text(term) => add_type(solved, Kind::Text, term),
        Asserted::Absent(tag, term) => add_absence(alloc, solved, *tag, term),
    }
}
