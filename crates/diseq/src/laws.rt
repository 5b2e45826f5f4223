//! Laws of the definitions. Each function has its law for its contract, and does nothing.

ghost use Rattle.diseq.specs.Laws.{BringingGoesOn, GroundMeaning, WatchableDiffers};

/// Disequalities that were brought up to bindings hold under the same ground valuations.
#[tactic(auto, using(crate::proofs::BroughtLaws::ground_meaning))]
pub fn brought_disequalities_say_as_much()
    ensures { GroundMeaning }
{}

/// What was brought up can be brought up further.
#[tactic(auto, using(crate::proofs::BroughtLaws::bringing_goes_on))]
pub fn bringing_goes_on()
    ensures { BringingGoesOn }
{}

/// A watchable disequality isn't false.
#[tactic(auto, using(crate::proofs::WatchLaws::watchable_differs))]
pub fn watchable_disequalities_differ()
    ensures { WatchableDiffers }
{}
