//! Laws of the definitions. Each function has its law for its contract, and does nothing.

ghost use Rattle.kan_model.specs.Meaning.Derivations.{SpelledOnce, TestIsFamily};
ghost use Rattle.kan_model.specs.Answers.Decimals.{DecimalAsPrinted};
ghost use Rattle.kan_model.specs.Answers.InForm.{AnswerInForm, FormIsSolved};
ghost use Rattle.kan_model.specs.Streams.Stream.{AppendEmpty};
ghost use Rattle.kan_model.specs.Stores.Composition.{FreshIsKept, SolverGoesOn};
ghost use Rattle.kan_model.specs.Stores.Unifiers.{AnswerMostGeneral, AnswerUnifies, AppliedTwice};
ghost use Rattle.kan_model.specs.Stores.Unifiers.{FactorsUnify, ReplacedIsGone};

/// What the solver answers is a unifier of its equations.
#[tactic(auto, using(crate::proofs::Solving::UnifierLaws::answer_unifies))]
pub fn solver_unifies()
    ensures { AnswerUnifies }
{}

/// Equations with a unifier by ground terms have an answer, and the unifier factors through it.
#[tactic(auto, using(crate::proofs::Solving::UnifierLaws::answer_most_general))]
pub fn solver_is_most_general()
    ensures { AnswerMostGeneral }
{}

/// What factors through an answer is a unifier.
#[tactic(auto, using(crate::proofs::Solving::UnifierLaws::factors_unify))]
pub fn factors_are_unifiers()
    ensures { FactorsUnify }
{}

/// A variable that the solver replaces is in nothing that it answers.
#[tactic(auto, using(crate::proofs::Solving::ReplacedLaws::replaced_is_gone))]
pub fn replaced_variables_are_gone()
    ensures { ReplacedIsGone }
{}

/// An answer that is applied twice gives what it gave at once.
#[tactic(auto, using(crate::proofs::Solving::ReplacedLaws::applied_twice))]
pub fn twice_is_once()
    ensures { AppliedTwice }
{}

/// Equations in two pieces are solved one piece after the other.
#[tactic(auto, using(crate::proofs::Solving::CompositionLaws::solver_goes_on))]
pub fn solver_goes_on()
    ensures { SolverGoesOn }
{}

/// A kept store stays kept where its next variable is made equal to a term of those before it.
#[tactic(auto, using(crate::proofs::Solving::FreshLaws::fresh_is_kept))]
pub fn fresh_equations_are_kept()
    ensures { FreshIsKept }
{}

/// The empty stream in front of another one changes nothing.
#[tactic(auto, using(crate::proofs::Streams::StreamLaws::append_empty))]
pub fn empty_in_front()
    ensures { AppendEmpty }
{}

/// The test of derivations accepts exactly those of the family.
#[tactic(auto, using(crate::proofs::Meaning::DerivationLaws::test_is_family))]
pub fn derivations_are_tested()
    ensures { TestIsFamily }
{}

/// Steps spell one derivation at most.
#[tactic(auto, using(crate::proofs::Meaning::DerivationLaws::spelled_one))]
pub fn steps_spell_one_derivation()
    ensures { SpelledOnce }
{}

/// The answer of a kept store whose tags have texts in the table is in form.
#[tactic(auto, using(crate::proofs::Answering::AnswerLaws::answer_in_form))]
pub fn answers_are_in_form()
    ensures { AnswerInForm }
{}

/// A number of at most 64 digits is written as std writes it.
#[tactic(auto, using(crate::proofs::Answering::DecimalLaws::decimal_as_printed))]
pub fn decimals_are_printed()
    ensures { DecimalAsPrinted }
{}

/// A disequality in form is what its own pairs solve to.
#[tactic(auto, using(crate::proofs::Answering::OwnForm::form_is_solved))]
pub fn forms_are_solved()
    ensures { FormIsSolved }
{}
