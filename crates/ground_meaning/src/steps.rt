//! Derivations, as the steps that spell them.

ghost use Rattle.std.specs.Prelude.{◌≡◌};
ghost use Rattle.ground_meaning.specs.Following.{steps_in};

use kan_terms::{Grounds, ListOf};

/// A step of a derivation, which comes before those below it.
#[derive(Drop)]
pub enum Step {
    /// A primitive that holds, or the goal that always does.
    Holds,
    /// Both goals hold: the steps of the first one follow, and then those of the second one.
    Both,
    /// The left one of two goals holds.
    Left,
    /// The right one of two goals holds.
    Right,
    /// These ground terms are the values of a goal's new slots.
    Choose(Grounds),
    /// A relation's body holds, or the goal behind a pause.
    Enter,
}

/// Steps in order.
pub type Steps = ListOf<Step>;

/// A derivation, as its steps.
#[derive(Drop)]
pub struct Derivation {
    steps: Steps,
}

impl Derivation {
    /// The derivation of these steps.
    pub fn new(steps: Steps) -> Derivation
        ensures { steps_in result ≡ steps }
    {
        Derivation { steps }
    }

    /// The steps. It takes no memory.
    pub fn steps(&self) -> &Steps
        ensures { result.now ≡ steps_in self.now }
    {
        &self.steps
    }
}
