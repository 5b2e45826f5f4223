//! The check that a derivation is one of a goal at ground values.

ghost use Rattle.std.specs.Prelude.{◌↔◌, map, IfOk, IsTrue};
ghost use Rattle.kan_model.specs.Meaning.Derivations.{AreSteps};
ghost use Rattle.kan_model.specs.Programs.Closed as programs;
ghost use Rattle.ground_meaning.specs.Following.{step_of, steps_in};

use crate::following::{Waiting, follow_all};
use crate::steps::Derivation;
use crate::values::copied;
use kan_model::Program;
use kan_terms::{Grounds, Memory};
use std::alloc::Global;

/// Whether the derivation is one of the goal at a place, at these values of its slots. Past the end
/// of the program's goals stands the goal that never holds.
pub fn check(
    alloc: Global,
    program: &Program,
    goal: u32,
    values: &Grounds,
    derivation: &Derivation,
) -> Result<bool, Memory>
    ensures { IfOk result (λ shown. IsTrue shown ↔ AreSteps (programs.meaning program.now)
        (programs.goal program.now goal) values.now (map step_of (steps_in derivation.now))) }
{
    let mut waiting = Vec::new(alloc);
    let values = copied(alloc, values)?;
    waiting.push(Waiting { goal, values })?;
    follow_all(alloc, program, waiting, derivation.steps().items())
}
