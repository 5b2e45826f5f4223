//! The terms of environments, which several may share.

ghost use Rattle.std.specs.Prelude.{◌≡◌, IfOk, map};
ghost use Rattle.kan_terms.specs.Terms.{tree};

use kan_terms::{Memory, Term};
use std::alloc::Global;
use std::sync::Arc;

/// Terms that one environment has, or that several share.
#[derive(Drop)]
pub(crate) enum Values {
    Own(Vec<Term>),
    Shared(Arc<Vec<Term>>),
}

/// Terms once more, in the same order.
pub(crate) fn copied(alloc: Global, values: &[Term]) -> Result<Vec<Term>, Memory>
    ensures { IfOk result (λ copies. map tree copies.items ≡ map tree values.now) }
{
    let mut copies = Vec::with_capacity(alloc, values.len())?;
    for value in values {
        copies.push_reserved(value.again()?);
    }
    Ok(copies)
}

impl Values {
    ghost use Rattle.kan_model.specs.Programs.Values.{values_of};

    /// Terms that can be shared.
    pub(crate) fn shared(alloc: Global, values: Vec<Term>) -> Result<Values, Memory>
        ensures { IfOk result (λ made. values_of made ≡ values.items) }
    {
        let all = Arc::new(alloc, values)?;
        Ok(Values::Shared(all))
    }

    /// The terms, lent.
    pub(crate) fn lent(&self) -> &[Term]
        ensures { result.now ≡ values_of self.now }
    {
        match self {
            Values::Own(own) => own.as_slice(),
            Values::Shared(all) => all.as_slice(),
        }
    }

    /// The terms, to be changed. They are copied only where others have them too.
    pub(crate) fn owned(self, alloc: Global) -> Result<Vec<Term>, Memory>
        ensures { IfOk result (λ made. map tree made.items ≡ map tree (values_of self)) }
    {
        match self {
            Values::Own(own) => Ok(own),
            Values::Shared(all) => match Arc::try_unwrap(all) {
                Ok(own) => Ok(own),
                Err(shared) => copied(alloc, shared.as_slice()),
            },
        }
    }

    /// The terms once more. What is shared is not copied.
    pub(crate) fn again(&self, alloc: Global) -> Result<Values, Memory>
        ensures { IfOk result (λ copy. map tree (values_of copy) ≡ map tree (values_of self.now)) }
    {
        match self {
            Values::Own(own) => {
                let copies = copied(alloc, own.as_slice())?;
                let made = Values::shared(alloc, copies)?;
                Ok(made)
            }
            Values::Shared(all) => {
                let more = Arc::try_clone(all)?;
                Ok(Values::Shared(more))
            }
        }
    }
}
