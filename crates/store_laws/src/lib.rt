//! Laws of stores: most general answers, and the one solved form of a disequality. Each function
//! has its law for its contract, and does nothing.
#![tactic(auto)]

ghost use Rattle.store_laws.specs.General.{AnswerIsGeneral, ComposedIsGeneral, GeneralForOthers};
ghost use Rattle.store_laws.specs.General.{GeneralIsTheForm, HoldUnderAll, KeptUnderGeneral};
ghost use Rattle.store_laws.specs.General.{PairsCanBeEqual};
ghost use Rattle.store_laws.specs.SolvedForms.{DifferenceForm, DifferenceInRank, NamedInRank};
ghost use Rattle.store_laws.specs.SolvedForms.{OneFormInRank, OneNamedForm, OneSolvedForm};
ghost use Rattle.store_laws.specs.SolvedForms.{AnswerSendsHigher};

/// A variable is sent to itself or to a variable of a higher rank, or to no variable.
#[tactic(auto, using(crate::proofs::OneForm::answer_sends_higher))]
pub fn variables_are_sent_higher()
    ensures { AnswerSendsHigher }
{}

/// Equations of the same unifiers are solved alike, whatever order the variables are in.
#[tactic(auto, using(crate::proofs::OneForm::one_solved_form))]
pub fn solved_forms_are_one()
    ensures { OneSolvedForm }
{}

/// The same where the variables are in the order of their names.
#[tactic(auto, using(crate::proofs::OneForm::one_named_form))]
pub fn named_forms_are_one()
    ensures { OneNamedForm }
{}

/// What a store says of a disequality, solved under its answer, is the disequality's solved form.
#[tactic(auto, using(crate::proofs::Differences::difference_form))]
pub fn differences_have_their_form()
    ensures { DifferenceForm }
{}

/// Equations of the same unifiers have the same form, once its pairs are in order.
#[tactic(auto, using(crate::proofs::RankedForms::one_form_in_rank))]
pub fn forms_in_rank_are_one()
    ensures { OneFormInRank }
{}

/// The pairs that a store says of a disequality have the disequality's form.
#[tactic(auto, using(crate::proofs::RankedForms::difference_in_rank))]
pub fn differences_in_rank()
    ensures { DifferenceInRank }
{}

/// Whether all is named doesn't hang on the order.
#[tactic(auto, using(crate::proofs::RankedForms::named_in_rank))]
pub fn names_in_rank()
    ensures { NamedInRank }
{}

/// What the solver answers is a most general unifier, in whatever order of variables.
#[tactic(auto, using(crate::proofs::GeneralUnifiers::answer_is_general))]
pub fn answers_are_general()
    ensures { AnswerIsGeneral }
{}

/// Two pieces of equations have one, piece by piece.
#[tactic(auto, using(crate::proofs::GeneralUnifiers::composed_is_general))]
pub fn pieces_are_general()
    ensures { ComposedIsGeneral }
{}

/// Equations of the same unifiers have the same most general ones.
#[tactic(auto, using(crate::proofs::GeneralUnifiers::general_for_others))]
pub fn others_are_general()
    ensures { GeneralForOthers }
{}

/// Constraints hold under every most general unifier, or under none.
#[tactic(auto, using(crate::proofs::GeneralUnifiers::hold_under_all))]
pub fn constraints_hold_alike()
    ensures { HoldUnderAll }
{}

/// A store is kept exactly where its constraints hold under any most general unifier of its
/// equations.
#[tactic(auto, using(crate::proofs::GeneralUnifiers::kept_under_general))]
pub fn stores_are_kept_alike()
    ensures { KeptUnderGeneral }
{}

/// Two sides can be equal exactly where the rest holds once the pairs that say the same are solved
/// under the answer.
#[tactic(auto, using(crate::proofs::CanBeEqual::pairs_can_be_equal))]
pub fn pairs_tell_what_can_be_equal()
    ensures { PairsCanBeEqual }
{}

/// A most general unifier that sends variables to none but higher ones is the solved form.
pub fn rising_is_the_form()
    ensures { GeneralIsTheForm }
{}
