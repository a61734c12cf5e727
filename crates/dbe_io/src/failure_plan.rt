ghost use Rattle.std.specs.Prelude.{◌≡◌, true};
ghost use Rattle.dbe_io.specs.Causes.{HasCause};
ghost use Rattle.dbe_io.specs.Memory.{counted, fails_at, one_more};

use std::marker::Model;

/// A count of calls, some of which fail by a plan, and a count of failures. Both counts stay at their
/// greatest value.
///
/// Contracts see the record `FailurePlanState`.
#[derive(Drop)]
pub struct FailurePlan {
    calls: u64,
    fails: Vec<u64>,
    faults: u64,
}

impl Model for FailurePlan {
    ghost use Rattle.dbe_io.specs.Memory.{FailurePlanState};

    ghost Value = { FailurePlanState };

    ghost view = { λ p. record { calls = p.calls; fails = p.fails.items; faults = p.faults } };
}

impl FailurePlan {
    /// A plan by which the k-th call, counted from 1, fails exactly where k is in `fails`.
    pub fn new(fails: Vec<u64>) -> FailurePlan
        ensures { result ≡ record { calls = 0; fails = fails.items; faults = 0 } }
    {
        FailurePlan {
            calls: 0,
            fails,
            faults: 0,
        }
    }

    /// How often a call has failed.
    pub fn faults(&self) -> u64
        ensures { result ≡ self.now.faults }
    {
        self.faults
    }

    /// Counts a call, and answers whether it fails. A failure is counted too.
    pub fn count_call(&mut self) -> bool
        ensures planned { result ≡ fails_at self.old.fails self.new.calls }
        ensures kept { self.new ≡ record self.old { calls = one_more self.old.calls; faults = counted result self.old.faults } }
        ensures cause { HasCause result self.old.faults self.new.faults }
    {
        self.calls = self.calls.saturating_add(1);
        let fails = self.fails.contains(&self.calls);
        if fails {
            self.count_failure();
        }
        fails
    }

    /// Counts a failure that is not of the plan.
    pub fn count_failure(&mut self)
        ensures kept { self.new ≡ record self.old { faults = one_more self.old.faults } }
        ensures cause { HasCause true self.old.faults self.new.faults }
    {
        self.faults = self.faults.saturating_add(1);
    }
}
