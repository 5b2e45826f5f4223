//! Laws of the definitions. Each function has its law for its contract, and does nothing.

ghost use Rattle.unify_core.specs.Laws.{AddsOne, AddsSolutions, BindingsReplace, FullValues};
ghost use Rattle.unify_core.specs.Laws.{WalksToEnd};

/// Walking follows bound variables to the end.
#[tactic(auto, using(crate::proofs::CentralLaw::walks_to_end))]
pub fn walking_follows()
    ensures { WalksToEnd }
{}

/// Full values are those that following bound variables gives.
#[tactic(auto, using(crate::proofs::CentralLaw::full_values))]
pub fn full_values_follow()
    ensures { FullValues }
{}

/// Bindings in which nothing is ever replaced have exactly the solutions of the replacement that
/// the solver answers for them, and what a term walks to, fully, is what the replacement makes of
/// it.
#[tactic(auto, using(crate::proofs::CentralLaw::bindings_replace))]
pub fn bindings_are_a_replacement()
    ensures { BindingsReplace }
{}

/// What unification adds, and in which order, is one list.
#[tactic(auto, using(crate::proofs::Relation::OneAnswer::adds_one))]
pub fn unification_adds_one_list()
    ensures { AddsOne }
{}

/// What unification adds has, beside the bindings, the solutions of the equations.
#[tactic(auto, using(crate::proofs::AddedLaws::adds_solutions))]
pub fn added_pairs_have_the_solutions()
    ensures { AddsSolutions }
{}
