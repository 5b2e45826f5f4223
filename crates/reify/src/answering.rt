//! The answer of a store.

ghost use Rattle.std.specs.Prelude.{◌≡◌, IfOk};
ghost use Rattle.kan_model.specs.Answers.Answer.{HasNames};
ghost use Rattle.kan_model.specs.Answers.AnswerText.{answer_of};
ghost use Rattle.reify.specs.Meaning.{meaning};

use crate::absences::{absences, texts_differ};
use crate::answers::Answer;
use crate::naming::Naming;
use crate::typing::names_of;
use crate::walking::spell_in;
use crate::writing::disequalities;
use kan_model::{Kind, Store};
use kan_terms::{Memory, Names, Term};
use std::alloc::Global;

/// The answer of a store: the value of variable 0, and what is left of the constraints.
pub fn answer_of<St: Store>(alloc: Global, store: &St, names: &Names) -> Result<Answer, Memory>
    requires named { HasNames names.now (St.meaning store.now) }
    ensures { IfOk result (λ answer. meaning answer ≡ answer_of names.now (St.meaning store.now)) }
{
    let letters = spell_in(alloc, store, &Term::Var(0))?;
    let naming = Naming::of(alloc, &letters)?;
    let term = naming.shapes(alloc, &letters)?;
    let disequalities = disequalities(alloc, store, names, &naming)?;
    let numbers = names_of(alloc, store, Kind::Number, &naming)?;
    let symbols = names_of(alloc, store, Kind::Symbol, &naming)?;
    let strings = names_of(alloc, store, Kind::Text, &naming)?;
    let absences = absences(alloc, store, names, &naming)?;
    texts_differ(names);
    Ok(Answer {
        term,
        disequalities,
        numbers,
        symbols,
        strings,
        absences,
    })
}
