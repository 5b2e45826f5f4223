//! The ground terms that an answer covers.

ghost use Rattle.std.specs.Prelude.{◌↔◌, IsTrue, IfOk};
ghost use Rattle.kan_model.specs.Answers.Covers.{Covers};
ghost use Rattle.reify.specs.Meaning.{meaning};

use crate::meeting::covers;
use crate::values::values_of;
use kan_terms::{Ground, Memory};
use reify::Answer;
use std::alloc::Global;

/// Whether an answer covers a ground term: ground terms for its names make its term that one, and
/// meet its constraints.
pub fn is_instance(alloc: Global, answer: &Answer, ground: &Ground) -> Result<bool, Memory>
    ensures { IfOk result (λ covered. IsTrue covered ↔ Covers (meaning answer.now) ground.now) }
{
    let found = values_of(alloc, answer.term(), ground.marks())?;
    match found {
        Some(values) => covers(alloc, &values, answer, ground.marks()),
        None => Ok(false),
    }
}
