//! Plans of which calls fail.

ghost use Rattle.std.specs.Prelude.{◌≡◌};
ghost use Rattle.kan_base.specs.Plans.{new_plan, is_due, after_success, after_failure};

use crate::faults::one_more;
use std::marker::Model;

/// Which calls are to fail, by their numbers from 0, with counts of calls and of faults.
#[derive(Drop)]
pub(crate) struct Plan {
    fails: Vec<u32>,
    calls: u64,
    faults: u64,
}

impl Model for Plan {
    ghost use Rattle.kan_base.specs.Plans.{CallPlan};

    ghost Value = { CallPlan };

    ghost view = { λ plan. record {
      fails = plan.fails.items;
      calls = plan.calls;
      faults = plan.faults;
    } };
}

impl Plan {
    pub(crate) fn new(fails: Vec<u32>) -> Plan
        ensures { result ≡ new_plan fails.items }
    {
        Plan {
            fails,
            calls: 0,
            faults: 0,
        }
    }

    /// Whether the next call is to fail.
    pub(crate) fn is_due(&self) -> bool
        ensures { result ≡ is_due self.now }
    {
        let call = self.calls;
        self.fails.iter().any(|number| u64::from(*number) == call)
    }

    /// Counts a call that succeeded.
    pub(crate) fn pass(&mut self)
        ensures { self.new ≡ after_success self.old }
    {
        self.calls = one_more(self.calls);
    }

    /// Counts a call that failed.
    pub(crate) fn fail(&mut self)
        ensures { self.new ≡ after_failure self.old }
    {
        self.calls = one_more(self.calls);
        self.faults = one_more(self.faults);
    }
}
