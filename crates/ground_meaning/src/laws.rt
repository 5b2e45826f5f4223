//! Laws of the definitions. Each function has its law for its contract, and does nothing.

ghost use Rattle.ground_meaning.specs.Accepting.{AcceptedAreSteps};

/// Steps are accepted, one after the other, exactly where they spell a derivation.
pub fn accepted_steps_are_derivations()
    ensures { AcceptedAreSteps }
{}
