//! The kinds of step on the words, and what each tells the seat that makes it.

use crate::rule::View;
use atomic_table::{Join, Play, Split};

/// Adds one to pulls.
pub struct AddPull;

impl Play<(), View> for AddPull {
    ghost use Rattle.std.specs.Prelude.{◌≡◌};
    ghost use Rattle.pull_budget.specs.Views.{after_pull};

    ghost then = { λ _ me _ now. now ≡ (after_pull me.0, me.1) };
}

/// Loads pulls, which are never above 2^62.
pub struct LoadPulls;

impl Play<(), View> for LoadPulls {
    ghost use Rattle.std.specs.Prelude.{◌≡◌, ◌≤◌, ◌^◌};
    ghost use Rattle.pull_budget.specs.Views.{after_seeing};

    ghost then = { λ _ me n now. (now ≡ (after_seeing me.0 n, me.1)) × (n ≤ 2 ^ 62) };
}

/// Loads begun.
pub struct LoadBegun;

impl Play<(), View> for LoadBegun {
    ghost use Rattle.std.specs.Prelude.{◌≡◌};
    ghost use Rattle.pull_budget.specs.Views.{after_reading};

    ghost then = { λ _ me n now. now ≡ (after_reading me.0 n, me.1) };
}

/// Raises begun by one, where it still is what the seat read.
pub struct RaiseBegun;

impl Play<(), View> for RaiseBegun {
    ghost use Rattle.std.specs.Prelude.{◌≡◌};
    ghost use Rattle.pull_budget.specs.Views.{after_try};

    ghost then = { λ s me n now. (s.first ≡ me.0.read) × (now ≡ (after_try me.0 n, me.1)) };
}

/// Sets stop.
pub struct SetStop;

impl Play<(), View> for SetStop {
    ghost use Rattle.std.specs.Prelude.{◌≡◌};
    ghost use Rattle.pull_budget.specs.Views.{after_stop};

    ghost then = { λ _ me _ now. now ≡ (after_stop me.0, me.1) };
}

/// Loads stop.
pub struct LoadStop;

impl Play<(), View> for LoadStop {
    ghost use Rattle.std.specs.Prelude.{◌≡◌};
    ghost use Rattle.pull_budget.specs.Views.{after_asking, is_set};

    ghost then = { λ _ me n now. now ≡ (after_asking me.0 (is_set n), me.1) };
}

/// Sets bound, once.
pub struct SetBound;

impl Play<(), View> for SetBound {
    ghost use Rattle.std.specs.Prelude.{◌≡◌};
    ghost use Rattle.pull_budget.specs.Views.{after_bound};

    ghost then = { λ _ me n now. now ≡ (after_bound me.0 n, me.1) };
}

/// Splits a seat, or joins one that doesn't pull.
pub struct Hire;

impl Split<View> for Hire {
    ghost use Rattle.pull_budget.specs.Views.{hired_view};

    ghost left = { λ v. v };

    ghost right = { hired_view };
}

impl Join<View> for Hire {
    ghost use Rattle.pull_budget.specs.Views.{joined_view};

    ghost both = { λ v w. v };

    ghost spent = { joined_view };
}
