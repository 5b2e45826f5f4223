//! The bound on pulls: within how many pulls the answer of a derivation comes, so that no solution
//! is missed. The laws are of the definitions alone. Each function has its law for its contract,
//! and does nothing.
#![tactic(auto)]

ghost use Rattle.pull_bounds.specs.Coming.{AnswersAreBounded, BothCome, BoundComes};
ghost use Rattle.pull_bounds.specs.Coming.{LeftComes, RightComes};
ghost use Rattle.pull_bounds.specs.Finding.{DerivationIsFound, HoldingIsAdded, SolvedIsKept};
ghost use Rattle.pull_bounds.specs.Finding.{EndHasAll, MoreFuelAddsBehind, NoneIsMissed};
ghost use Rattle.pull_bounds.specs.Finding.{WhatComesIsTaken};

/// What the left one of two appended streams gives within some pulls comes within twice as many.
#[tactic(auto, using(crate::proofs::AppendLaws::left_comes))]
pub fn left_comes_within_twice()
    ensures { LeftComes }
{}

/// What the right one gives comes within one pull more than that.
#[tactic(auto, using(crate::proofs::AppendLaws::right_comes))]
pub fn right_comes_one_later()
    ensures { RightComes }
{}

/// A goal has no more answers within some pulls than are counted for it.
#[tactic(auto, using(crate::proofs::CountLaws::answers_are_bounded))]
pub fn answers_are_counted()
    ensures { AnswersAreBounded }
{}

/// What a goal gives at a store of a stream comes of the goal that is bound to the stream.
pub fn bound_goals_come()
    ensures { BoundComes }
{}

/// An answer of one goal, and of a second one at it, give one of both.
pub fn conjunctions_come()
    ensures { BothCome }
{}

/// A store with a solution is kept.
#[tactic(auto, using(crate::proofs::KeptStores::solved_is_kept))]
pub fn solved_stores_are_kept()
    ensures { SolvedIsKept }
{}

/// A primitive that holds of a solution's values is added.
#[tactic(auto, using(crate::proofs::KeptStores::holding_is_added))]
pub fn what_holds_is_added()
    ensures { HoldingIsAdded }
{}

/// A derivation at the values of a solution leads to a store with a longer one, within its pulls.
#[tactic(auto, using(crate::proofs::FoundSolutions::derivation_is_found))]
pub fn derivations_are_found()
    ensures { DerivationIsFound }
{}

/// A store that comes of a stream is taken, unless the limit is met, or a fuel below its pulls is
/// spent.
pub fn what_comes_is_taken()
    ensures { WhatComesIsTaken }
{}

/// What is taken with some fuel comes first with more.
#[tactic(auto, using(crate::proofs::MoreFuel::more_fuel_adds_behind))]
pub fn more_fuel_adds_behind()
    ensures { MoreFuelAddsBehind }
{}

/// A solution of a run is taken, unless the limit is met, or a fuel below the pulls of its
/// derivation is spent.
#[tactic(auto, using(crate::proofs::TakenSolutions::none_is_missed))]
pub fn no_solution_is_missed()
    ensures { NoneIsMissed }
{}

/// A run that comes to its end has taken every solution.
#[tactic(auto, using(crate::proofs::TakenSolutions::end_has_all))]
pub fn runs_that_end_have_all()
    ensures { EndHasAll }
{}
