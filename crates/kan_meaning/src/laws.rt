//! Laws of the definitions. Each function has its law for its contract, and does nothing.

ghost use Rattle.kan_meaning.specs.Answers.{AnswersAreSolutions, EndCoversAll};
ghost use Rattle.kan_meaning.specs.Answers.{SolutionsAreAnswered};
ghost use Rattle.kan_meaning.specs.Instances.{InstancesAreValues, SolutionsAreCovered};
ghost use Rattle.kan_meaning.specs.KeptStores.{KeptHasSolution};
ghost use Rattle.kan_meaning.specs.LeftOut.{EqualSayNothing, ExcludedDiffer, NeverEqual};
ghost use Rattle.kan_meaning.specs.LeftOut.{UnnamedCanDiffer, WeakerSayNothing};
ghost use Rattle.kan_meaning.specs.TakenStores.{TakenAreSolutions};

/// A store whose counter lies above its variables is kept exactly where it has a solution.
#[tactic(auto, using(crate::proofs::KeptLaws::kept_has_solution))]
pub fn kept_stores_have_solutions()
    ensures { KeptHasSolution }
{}

/// Each store that a run takes has only solutions at which the run's goal has a derivation.
pub fn taken_stores_have_solutions_of_the_run()
    ensures { TakenAreSolutions }
{}

/// The answer of a kept store covers the value of variable 0 under each of its solutions.
pub fn answers_cover_solutions()
    ensures { SolutionsAreCovered }
{}

/// Its instances are exactly these values, where the store's counter lies above its variables.
pub fn instances_are_the_values()
    ensures { InstancesAreValues }
{}

/// Each ground term that an answer of a run covers is a solution of the run.
pub fn answers_cover_solutions_of_the_run()
    ensures { AnswersAreSolutions }
{}

/// Each solution of a run is covered by an answer, unless the limit is met, or a fuel below the
/// pulls of its derivation is spent.
pub fn solutions_of_the_run_are_answered()
    ensures { SolutionsAreAnswered }
{}

/// The answers of a run that comes to its end cover exactly its solutions.
pub fn runs_that_end_cover_all()
    ensures { EndCoversAll }
{}

/// A disequality is left out where its sides can't be equal any more: they have different values.
pub fn sides_without_a_form_differ()
    ensures { NeverEqual }
{}

/// Those whose forms mention unnamed variables are left out: whatever values the names have, the
/// others can have values under which the sides of all these differ.
pub fn unnamed_variables_can_differ()
    ensures { UnnamedCanDiffer }
{}

/// One whose equation can't be kept with the rest is left out: where the rest holds, its sides
/// differ.
pub fn excluded_sides_differ()
    ensures { ExcludedDiffer }
{}

/// One that another one implies, and that doesn't imply that one, says nothing more.
pub fn weaker_forms_say_nothing()
    ensures { WeakerSayNothing }
{}

/// Nor does one that is equal to an earlier one.
pub fn equal_forms_say_nothing()
    ensures { EqualSayNothing }
{}
