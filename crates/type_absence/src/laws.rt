//! Laws of the definitions. Each function has its law for its contract, and does nothing.

ghost use Rattle.type_absence.specs.Laws.{AbsencesSolve, OneByOne, TypesSolve};

/// Types have exactly the solutions of all that was added to them.
#[tactic(auto, using(crate::proofs::TypeLaws::types_solve))]
pub fn types_have_their_solutions()
    ensures { TypesSolve }
{}

/// Absences have exactly the solutions of all that was added to them.
#[tactic(auto, using(crate::proofs::AbsentLaws::absences_solve))]
pub fn absences_have_their_solutions()
    ensures { AbsencesSolve }
{}

/// Several tags are put one after the other, and each stands once.
#[tactic(auto, using(crate::proofs::OneByOneLaws::one_by_one))]
pub fn tags_are_put_one_by_one()
    ensures { OneByOne }
{}
