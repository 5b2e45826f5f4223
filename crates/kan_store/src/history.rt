//! Primitives that only clauses read.

ghost use Rattle.std.specs.Prelude.{◌≡◌, List, []};
ghost use base.Fml.{ftrue};
ghost use Rattle.kan_terms.specs.Tree.{Tm};
ghost use Rattle.kan_model.specs.Programs.Goals.{Primitive};
ghost use Rattle.kan_store.specs.PrimsCode.{prims_code};

use std::marker::{Model, PhantomData};

/// How primitives are read off a value.
pub trait Tells<X> {
    ghost prims: { X → List (Primitive Tm) };
}

/// The primitives of a store, in the order of assertion. It has no bytes and owns nothing, so only
/// a clause ties `prims`.
pub struct History {
    marker: PhantomData<()>,
    pub ghost prims: { List (Primitive Tm) } by { prims_code },
}

impl Model for History {
    ghost also_owns = { λ _. ftrue };
}

impl History {
    /// The primitives that are read off a value.
    pub fn of<X, M: Tells<X>>(x: &X) -> History
        ensures { result.prims ≡ M.prims x.now }
    {
        let _ = x;
        History {
            marker: PhantomData,
        }
    }
}

// No primitives.
struct Nothing;

impl Tells<()> for Nothing {
    ghost prims = { λ _. [] };
}

// The primitives of another history.
struct Same;

impl Tells<History> for Same {
    ghost prims = { λ history. history.prims };
}

impl History {
    /// No primitives.
    pub fn empty() -> History
        ensures { result.prims ≡ [] }
    {
        History::of::<(), Nothing>(&())
    }

    /// The same primitives once more.
    pub fn again(&self) -> History
        ensures { result.prims ≡ self.now.prims }
    {
        History::of::<History, Same>(self)
    }
}

impl Drop for History {
    fn drop(self) {
        let Self { marker: _ } = self;
    }
}

unsafe impl Send for History {}

unsafe impl Sync for History {}
